// Why a model was not chosen.
ghost use Rattle.std.specs.Prelude.{◌≡◌, ◌+◌, ◌-◌, ◌≤◌, length};
ghost use Rattle.rules.specs.Numbers.{told_decision, told_terms, told_verdict};
ghost use Rattle.rules.specs.NotChosen.{later_gate_words, gate_words, budget_words, worth_words, key_words, outranked_words, reason_words, standing_words};
ghost use Rattle.std.proofs.Math.Option.{some};
ghost use Rattle.splice.specs.Placed.{placed};
ghost use Rattle.program_standing.specs.Parts.{lower_utility_words};

use program_phrases::{put_about, put_comparing};
use rules::{CandidateVerdict, KernelDecision, UtilityTerms};
use text::{put_byte, put_signed, put_text};

// Gates 4 to 8: capabilities, provider, regions, risk.
#[tactic(auto, unfolding(rules::specs::NotChosen::later_gate_words, rules::specs::Choice::equal, rules::specs::Text::text))]
fn put_later_gate(out: &mut [u8], at: usize, gate: u8, measured: u64, limit: u64) -> usize
    requires { at + 150 ≤ length out.old }
    ensures out_after { some (result, out.new) ≡ placed out.old at (later_gate_words gate measured limit) }
    ensures upper_bound { result ≤ at + 150 }
{
    match gate {
        4 => put_comparing(
            out,
            at,
            b" is rejected: its capabilities, mask ",
            measured,
            b", lack some of those required, mask ",
            limit,
            b".",
        ),
        5 => put_comparing(
            out,
            at,
            b" is rejected: its provider ",
            measured,
            b" is above ",
            limit,
            b".",
        ),
        6 => put_comparing(
            out,
            at,
            b" is rejected: its provider ",
            measured,
            b" is not among those allowed, mask ",
            limit,
            b".",
        ),
        7 => put_comparing(
            out,
            at,
            b" is rejected: its regions, mask ",
            measured,
            b", have none of those required, mask ",
            limit,
            b".",
        ),
        _ => put_comparing(
            out,
            at,
            b" is rejected: the request's risk of ",
            measured,
            b" basis points is above its ceiling of ",
            limit,
            b".",
        ),
    }
}

// The gate that a model fails, with both numbers.
#[tactic(auto, unfolding(rules::specs::NotChosen::gate_words, rules::specs::Choice::equal, rules::specs::Text::text))]
fn put_gate(out: &mut [u8], at: usize, gate: u8, measured: u64, limit: u64) -> usize
    requires { at + 150 ≤ length out.old }
    ensures out_after { some (result, out.new) ≡ placed out.old at (gate_words gate measured limit) }
    ensures upper_bound { result ≤ at + 150 }
{
    match gate {
        1 => put_text(out, at, b" is switched off."),
        2 => put_comparing(
            out,
            at,
            b" is rejected: its quality of ",
            measured,
            b" basis points is below the ",
            limit,
            b" required.",
        ),
        3 => put_comparing(
            out,
            at,
            b" is rejected: its latency of ",
            measured,
            b" ms is above the limit of ",
            limit,
            b" ms.",
        ),
        _ => put_later_gate(out, at, gate, measured, limit),
    }
}

// Over budget, and by how much.
fn put_budget(out: &mut [u8], at: usize, cost: u64, budget: u64) -> usize
    requires { at + 150 ≤ length out.old }
    ensures out_after { some (result, out.new) ≡ placed out.old at (budget_words cost budget) }
    ensures upper_bound { result ≤ at + 150 }
{
    let next = put_comparing(
        out,
        at,
        b" is over budget: it costs ",
        cost,
        b" microunits, ",
        cost.saturating_sub(budget),
        b"",
    );
    put_about(out, next, b" more than the budget of ", budget, b".")
}

// A utility that isn't positive.
fn put_worth(out: &mut [u8], at: usize, utility: i64) -> usize
    requires { at + 150 ≤ length out.old }
    ensures out_after { some (result, out.new) ≡ placed out.old at (worth_words utility) }
    ensures upper_bound { result ≤ at + 150 }
{
    let number = put_text(out, at, b" is rejected: its utility of ");
    let next = put_signed(out, number, utility);
    put_text(out, next, b" microunits is not above 0.")
}

// Below the chosen one by the utility.
fn put_lower_utility(out: &mut [u8], at: usize, utility: i64, best: i64) -> usize
    requires { at + 110 ≤ length out.old }
    ensures out_after { some (result, out.new) ≡ placed out.old at (lower_utility_words utility best) }
    ensures upper_bound { result ≤ at + 110 }
{
    let number = put_text(out, at, b"its utility of ");
    let next = put_signed(out, number, utility);
    let other = put_text(out, next, b" microunits is below ");
    let end = put_signed(out, other, best);
    put_text(out, end, b".")
}

// The first key in which the chosen model is ahead.
fn put_key(
    out: &mut [u8],
    at: usize,
    terms: UtilityTerms,
    quality: u16,
    decision: KernelDecision,
    highest: u16,
) -> usize
    requires { at + 130 ≤ length out.old }
    ensures out_after { some (result, out.new) ≡ placed out.old at (key_words terms.utility decision.expected_utility_microunits terms.cost_microunits decision.estimated_cost_microunits quality highest) }
    ensures upper_bound { result ≤ at + 130 }
{
    if terms.utility < decision.expected_utility_microunits {
        return put_lower_utility(out, at, terms.utility, decision.expected_utility_microunits);
    }
    let cost = terms.cost_microunits;
    let lowest = decision.estimated_cost_microunits;
    if lowest < cost {
        return put_comparing(
            out,
            at,
            b"at the same utility, its cost of ",
            cost,
            b" microunits is above ",
            lowest,
            b".",
        );
    }
    if quality < highest {
        return put_comparing(
            out,
            at,
            b"at the same utility and cost, its quality of ",
            u64::from(quality),
            b" basis points is below ",
            u64::from(highest),
            b".",
        );
    }
    put_text(
        out,
        at,
        b"at the same utility, cost and quality, the lower id goes first.",
    )
}

// Eligible, but another was chosen.
fn put_outranked(
    out: &mut [u8],
    at: usize,
    terms: UtilityTerms,
    quality: u16,
    decision: KernelDecision,
    highest: u16,
) -> usize
    requires { at + 180 ≤ length out.old }
    ensures out_after { some (result, out.new) ≡ placed out.old at (outranked_words (told_terms 4 terms) quality (told_decision decision) highest) }
    ensures upper_bound { result ≤ at + 180 }
{
    let next = put_about(
        out,
        at,
        b" is outranked by model ",
        u64::from(decision.selected_model_id),
        b": ",
    );
    put_key(out, next, terms, quality, decision, highest)
}

// Why a model with a verdict was not chosen.
#[tactic(auto, unfolding(rules::specs::NotChosen::reason_words, rules::specs::Choice::equal))]
fn put_reason(
    out: &mut [u8],
    at: usize,
    verdict: CandidateVerdict,
    quality: u16,
    decision: KernelDecision,
    highest: u16,
) -> usize
    requires { at + 180 ≤ length out.old }
    ensures out_after { some (result, out.new) ≡ placed out.old at (reason_words (told_verdict verdict) quality (told_decision decision) highest) }
    ensures upper_bound { result ≤ at + 180 }
{
    match verdict {
        CandidateVerdict::Rejected {
            gate,
            measured,
            limit,
        } => put_gate(out, at, gate, measured, limit),
        CandidateVerdict::OverBudget {
            cost_microunits,
            limit_microunits,
        } => put_budget(out, at, cost_microunits, limit_microunits),
        CandidateVerdict::NonPositiveUtility(terms) => put_worth(out, at, terms.utility),
        CandidateVerdict::Eligible(terms) => {
            put_outranked(out, at, terms, quality, decision, highest)
        }
    }
}

// The sentence that says so of a model with an id and a quality, beside the decision and the chosen model's quality.
pub fn put_standing(
    out: &mut [u8],
    at: usize,
    id: u32,
    verdict: CandidateVerdict,
    quality: u16,
    decision: KernelDecision,
    highest: u16,
) -> usize
    requires { at + 210 ≤ length out.old }
    ensures out_after { some (result, out.new) ≡ placed out.old at (standing_words id (told_verdict verdict) quality (told_decision decision) highest) }
    ensures upper_bound { result ≤ at + 210 }
{
    let next = put_about(out, at, b"Model ", u64::from(id), b"");
    let end = put_reason(out, next, verdict, quality, decision, highest);
    put_byte(out, end, b'\n')
}
