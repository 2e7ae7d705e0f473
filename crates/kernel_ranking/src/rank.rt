// The ranking: higher utility, lower cost, higher quality, lower id, earlier place.
ghost use Rattle.std.specs.Prelude.{◌≡◌};
ghost use Rattle.kernel_ranking.specs.State.{better_of, ranked_of};

use crate::state::Top;
use kernel_verdict::Candidate;

// `candidate_better`: the left one ranks above the right one. The Rust meets the places in order and leaves the last key unsaid.
#[tactic(auto, unfolding(crate::specs::State::better_of, crate::specs::State::cheaper_of, crate::specs::State::earlier_of, rules::specs::Choice::lower))]
pub fn candidate_better(left: Candidate, right: Candidate) -> bool
    ensures { result ≡ better_of left right }
{
    // Of score and quality the higher goes first, so they stand on the other side.
    let left_keys = (
        right.score,
        left.cost,
        right.quality_bps,
        left.model_id,
        left.model_index,
    );
    let right_keys = (
        left.score,
        right.cost,
        left.quality_bps,
        right.model_id,
        right.model_index,
    );
    left_keys < right_keys
}

// The first two with one candidate more. The second place is asked first, since most candidates end there.
#[tactic(auto, unfolding(crate::specs::State::ranked_of))]
pub fn ranked(top: Top, candidate: Candidate) -> Top
    ensures { result ≡ ranked_of top candidate }
{
    if !candidate_better(candidate, top.second) {
        return top;
    }
    if candidate_better(candidate, top.best) {
        Top {
            best: candidate,
            second: top.best,
        }
    } else {
        Top {
            second: candidate,
            ..top
        }
    }
}
