// One entry of an explanation in bytes.
ghost use Rattle.std.specs.Prelude.{◌≡◌};
ghost use Rattle.rules.specs.Numbers.{two_numbers, told_terms, told_verdict};
ghost use Rattle.rules.specs.Explain.{explanation_record};
ghost use Rattle.explain_entries.specs.Entry.{verdict_numbers, judged_entry};

use endian_signs::signed_bits;
use endian_writing::{put_wide, put16, put32, put64};
use rules::limits::EXPLANATION_BYTES;
use rules::{CandidateVerdict, KernelModel, UtilityTerms, Wide};

pub type EntryBytes = [u8; EXPLANATION_BYTES];

// A verdict in document 01's numbers, as they stand in an entry from offset 6 on.
#[derive(Clone, Copy)]
pub struct VerdictNumbers {
    pub kind: u8,
    pub gate: u8,
    // Measured, cost or quality term.
    pub first: Wide,
    // Limit, budget or risk term.
    pub second: Wide,
    pub cost: u64,
    pub latency: Wide,
    pub utility: i64,
}

// Verdicts 1 and 2 carry two numbers; the rest stays 0.
#[tactic(auto, unfolding(rules::specs::Wide::limbs))]
fn two_numbers(kind: u8, gate: u8, first: u64, second: u64) -> VerdictNumbers
    ensures { verdict_numbers result ≡ two_numbers kind gate first second }
{
    VerdictNumbers {
        kind,
        gate,
        first: Wide { hi: 0, lo: first },
        second: Wide { hi: 0, lo: second },
        cost: 0,
        latency: Wide { hi: 0, lo: 0 },
        utility: 0,
    }
}

// Verdicts 3 and 4 carry all terms.
fn all_terms(kind: u8, terms: UtilityTerms) -> VerdictNumbers
    ensures { verdict_numbers result ≡ told_terms kind terms }
{
    VerdictNumbers {
        kind,
        gate: 0,
        first: terms.quality_adjusted,
        second: terms.risk_penalty,
        cost: terms.cost_microunits,
        latency: terms.latency_penalty,
        utility: terms.utility,
    }
}

// The numbers of a verdict.
pub fn verdict_numbers(verdict: CandidateVerdict) -> VerdictNumbers
    ensures { verdict_numbers result ≡ told_verdict verdict }
{
    match verdict {
        CandidateVerdict::Rejected {
            gate,
            measured,
            limit,
        } => two_numbers(1, gate, measured, limit),
        CandidateVerdict::OverBudget {
            cost_microunits,
            limit_microunits,
        } => two_numbers(2, 0, cost_microunits, limit_microunits),
        CandidateVerdict::NonPositiveUtility(terms) => all_terms(3, terms),
        CandidateVerdict::Eligible(terms) => all_terms(4, terms),
    }
}

// The bytes of an entry: zeros at first, then its fields one after the other.
pub fn entry_bytes(place: u16, model: KernelModel, told: VerdictNumbers) -> EntryBytes
    ensures { result ≡ explanation_record (judged_entry place model (verdict_numbers told)) }
{
    let mut a = [0u8; EXPLANATION_BYTES];
    put32(&mut a, 0, model.model_id);
    put16(&mut a, 4, place);
    a[6] = told.kind;
    a[7] = told.gate;
    put_wide(&mut a, 8, told.first);
    put_wide(&mut a, 24, told.second);
    put64(&mut a, 40, told.cost);
    put_wide(&mut a, 48, told.latency);
    put64(&mut a, 64, signed_bits(told.utility));
    a
}
