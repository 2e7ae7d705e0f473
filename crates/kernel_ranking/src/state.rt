// What a scan holds between two records: the nine counts, the first two of the ranking, and how many are eligible.
ghost use Rattle.std.specs.Prelude.{◌≡◌};
ghost use Rattle.rules.specs.Count.{no_counts};
ghost use Rattle.kernel_ranking.specs.State.{nobody, start_of};

use kernel_verdict::Candidate;
use pricing_terms::ZERO_SCORE;
use rules::RejectionHistogram;
use rules::limits::NO_PLACE;

// The first two of the ranking. A place that nobody holds has the candidate `nobody`, below every eligible model, so that
// the ranking of a record, a step of the scan's loop, has no case for it.
#[derive(Clone, Copy)]
pub struct Top {
    pub best: Candidate,
    pub second: Candidate,
}

#[derive(Clone, Copy)]
pub struct State {
    pub counts: RejectionHistogram,
    pub top: Top,
    pub eligible: u16,
}

// The candidate that nobody is: what a rejection shows, and below every eligible model, whose score is above that of 0.
#[tactic(auto, unfolding(crate::specs::State::nobody))]
pub fn nobody() -> Candidate
    ensures { result ≡ nobody }
{
    Candidate {
        model_id: 0,
        model_index: NO_PLACE,
        quality_bps: 0,
        cost: 0,
        score: ZERO_SCORE,
    }
}

// Nine counts of zero.
pub fn no_counts() -> RejectionHistogram
    ensures { result ≡ no_counts }
{
    RejectionHistogram {
        disabled: 0,
        quality: 0,
        risk_ceiling: 0,
        latency: 0,
        capability: 0,
        provider: 0,
        region: 0,
        budget: 0,
        utility: 0,
    }
}

// Before the first record.
#[tactic(auto, unfolding(crate::specs::State::state_of, rules::specs::Count::counts_of, rules::specs::Count::counts_from, rules::specs::Rank::ranking))]
pub fn start() -> State
    ensures { result ≡ start_of }
{
    State {
        counts: no_counts(),
        top: Top {
            best: nobody(),
            second: nobody(),
        },
        eligible: 0,
    }
}
