// Who was chosen, at what cost and utility; or why nothing was.
ghost use Rattle.std.specs.Prelude.{◌≡◌, ◌+◌, ◌≤◌, length};
ghost use Rattle.rules.specs.Numbers.{told_decision, reason_no};
ghost use Rattle.rules.specs.Phrases.{sentence, comparing};
ghost use Rattle.rules.specs.Text.{text};
ghost use Rattle.rules.specs.Words.{chosen_words, rejection_words, choice_words};
ghost use Rattle.std.proofs.Math.Option.{some};
ghost use Rattle.splice.specs.Placed.{placed};

use program_phrases::{put_comparing, put_remark, put_sentence};
use rules::{KernelDecision, KernelInput, KernelReason, PolicySnapshot};
use text::{put_byte, put_signed};

// The chosen model.
fn put_chosen(out: &mut [u8], at: usize, decision: KernelDecision) -> usize
    requires { at + 180 ≤ length out.old }
    ensures out_after { some (result, out.new) ≡ placed out.old at (chosen_words (told_decision decision)) }
    ensures upper_bound { result ≤ at + 180 }
{
    let next = put_comparing(
        out,
        at,
        b"Chosen: model ",
        u64::from(decision.selected_model_id),
        b", at a cost of ",
        decision.estimated_cost_microunits,
        b" microunits, with a utility of ",
    );
    let end = put_signed(out, next, decision.expected_utility_microunits);
    put_sentence(out, end, b" microunits.")
}

// A request that is stopped: its number beside the policy's.
fn put_stopped(
    out: &mut [u8],
    at: usize,
    before: &[u8],
    measured: u16,
    middle: &[u8],
    limit: u16,
) -> usize
    requires { at + (length before.now + 42 + length middle.now) ≤ length out.old }
    ensures out_after { some (result, out.new) ≡ placed out.old at (sentence (comparing before.now measured middle.now limit (text "."))) }
    ensures upper_bound { result ≤ at + (length before.now + 42 + length middle.now) }
{
    let end = put_comparing(
        out,
        at,
        before,
        u64::from(measured),
        middle,
        u64::from(limit),
        b".",
    );
    put_byte(out, end, b'\n')
}

// Why nothing was chosen: the request is stopped, or no model is eligible.
fn put_rejection(
    out: &mut [u8],
    at: usize,
    policy: PolicySnapshot,
    input: KernelInput,
    reason: KernelReason,
) -> usize
    requires { at + 180 ≤ length out.old }
    ensures out_after { some (result, out.new) ≡ placed out.old at (rejection_words policy input (reason_no reason)) }
    ensures upper_bound { result ≤ at + 180 }
{
    match reason {
        KernelReason::RiskHardLimit => put_stopped(
            out,
            at,
            b"Nothing is chosen: the request is stopped, since its risk of ",
            input.risk_bps,
            b" basis points is not below the policy's hard limit of ",
            policy.hard_risk_limit_bps,
        ),
        KernelReason::ConfidenceHardLimit => put_stopped(
            out,
            at,
            b"Nothing is chosen: the request is stopped, since its confidence of ",
            input.confidence_bps,
            b" basis points is below the policy's minimum of ",
            policy.minimum_confidence_bps,
        ),
        _ => put_remark(
            out,
            at,
            b"Nothing is chosen: no model is eligible, with reason ",
            u64::from(reason.number()),
            b".",
        ),
    }
}

// The choice.
#[tactic(auto, unfolding(rules::specs::Words::choice_words))]
pub fn put_choice(
    out: &mut [u8],
    at: usize,
    policy: PolicySnapshot,
    input: KernelInput,
    decision: KernelDecision,
) -> usize
    requires { at + 180 ≤ length out.old }
    ensures out_after { some (result, out.new) ≡ placed out.old at (choice_words policy input (told_decision decision)) }
    ensures upper_bound { result ≤ at + 180 }
{
    if decision.is_rejected() {
        return put_rejection(out, at, policy, input, decision.reason);
    }
    put_chosen(out, at, decision)
}
