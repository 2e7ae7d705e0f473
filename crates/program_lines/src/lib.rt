// For other crates: the lines of a report that tell a decision, its counts or a refusal, each put into a buffer from a position on, which must leave
// room.
#![tactic(auto)]

ghost use Rattle.std.specs.Prelude.{◌≡◌, ◌+◌, ◌≤◌, length};
ghost use Rattle.rules.specs.Refused.{told_refusal};
ghost use Rattle.rules.specs.Numbers.{told_decision};
ghost use Rattle.rules.specs.Printed.{decision_line, counts_line, refused_line};
ghost use Rattle.std.proofs.Math.Option.{some};
ghost use Rattle.splice.specs.Placed.{placed};
ghost use Rattle.program_lines.specs.Pieces.{decision_start};

use rules::{KernelDecision, Refusal, RejectionHistogram};
use text::{put_byte, put_line, put_signed_word, put_text, put_word, put_words};

// The decision's line up to its utility.
fn put_start(out: &mut [u8], at: usize, decision: KernelDecision) -> usize
    requires { at + 155 ≤ length out.old }
    ensures out_after { some (result, out.new) ≡ placed out.old at (decision_start (told_decision decision)) }
    ensures upper_bound { result ≤ at + 155 }
{
    let numbers = [
        decision.request_sequence,
        decision.action.number() as u64,
        decision.reason.number() as u64,
        decision.selected_model_id as u64,
        decision.selected_model_index as u64,
        decision.estimated_cost_microunits,
    ];
    let named = put_text(out, at, b"decision");
    let next = put_words(out, named, &numbers);
    put_signed_word(out, next, decision.expected_utility_microunits)
}

// The decision's line.
pub fn put_decision(out: &mut [u8], at: usize, decision: KernelDecision) -> usize
    requires { at + 282 ≤ length out.old }
    ensures out_after { some (result, out.new) ≡ placed out.old at (decision_line (told_decision decision)) }
    ensures upper_bound { result ≤ at + 282 }
{
    let numbers = [
        decision.evaluated_models as u64,
        decision.eligible_models as u64,
        decision.policy_epoch,
        decision.catalog_epoch,
    ];
    let start = put_start(out, at, decision);
    let other = put_word(out, start, u64::from(decision.counterfactual_model_id));
    let worth = put_signed_word(out, other, decision.counterfactual_utility_microunits);
    let end = put_words(out, worth, &numbers);
    put_byte(out, end, b'\n')
}

// The line of the nine counts.
#[tactic(auto, unfolding(rules::specs::Printed::counts_line, rules::specs::Text::text))]
pub fn put_counts(out: &mut [u8], at: usize, counts: RejectionHistogram) -> usize
    requires { at + 198 ≤ length out.old }
    ensures out_after { some (result, out.new) ≡ placed out.old at (counts_line counts) }
    ensures upper_bound { result ≤ at + 198 }
{
    let numbers = [
        counts.disabled as u64,
        counts.quality as u64,
        counts.risk_ceiling as u64,
        counts.latency as u64,
        counts.capability as u64,
        counts.provider as u64,
        counts.region as u64,
        counts.budget as u64,
        counts.utility as u64,
    ];
    put_line(out, at, b"rejected", &numbers)
}

// The line of a refusal.
#[tactic(auto, unfolding(rules::specs::Printed::refused_line, rules::specs::Text::text))]
pub fn put_refused(out: &mut [u8], at: usize, refusal: Refusal) -> usize
    requires { at + 29 ≤ length out.old }
    ensures out_after { some (result, out.new) ≡ placed out.old at (refused_line (told_refusal refusal)) }
    ensures upper_bound { result ≤ at + 29 }
{
    put_line(out, at, b"refused", &[u64::from(refusal.number())])
}
