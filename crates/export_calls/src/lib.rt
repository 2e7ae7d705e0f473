// For the library: what stands behind the exported functions that decide and explain. Each function but the two that hand over takes the very
// slices of an exported one and answers its word: 0, or the refusal's. Those two serve the calls over live records as well; they
// are two, and `export_lookups` and `export_bounds` have more, since each kind of answer has bytes and room of its own.
#![tactic(auto)]

ghost use Rattle.std.specs.Prelude.{◌≡◌, ◌≤◌, [], length};
ghost use Rattle.rules.specs.Numbers.{told_prescribed, told_traced};
ghost use Rattle.export_decision_bytes.specs.Layout.{decision_size, decision_bytes, uncounted_size, uncounted_bytes};
ghost use Rattle.export_checks.specs.Checks.{lent, handed};
ghost use Rattle.export_calls.specs.Calls.{prescribe_call, prescribe_checked_call, explain_call};

use bank::unchecked::{input_of, policy_of};
use explain::explain;
use export_checks::{call_outcome, checked_call_outcome, hand_bytes, refusal_word};
use export_decision_bytes::{DECISION_BYTES, UNCOUNTED_BYTES, decision_bytes, uncounted_bytes};
use kernel_trace::lent::traced_lent;
use rules::{DecisionTrace, KernelDecision, Refusal};

// A decision with its counts, where it has room.
pub fn traced_handed(
    traced: Result<(KernelDecision, DecisionTrace), Refusal>,
    out: &mut [u8],
) -> u64
    requires { decision_size ≤ length out.old }
    ensures { (result, out.new) ≡ handed decision_bytes [] (told_traced traced) out.old }
{
    match traced {
        Ok((decision, trace)) => hand_bytes(out, &decision_bytes(decision, trace)),
        Err(refusal) => refusal_word(refusal, 0),
    }
}

// The decision with its counts. Refused: 22, 23, 1, 2, 4.
pub fn prescribe_delivered(policy: &[u8], request: &[u8], bank: &[u8], out: &mut [u8]) -> u64
    ensures { (result, out.new) ≡ prescribe_call (lent policy.now request.now bank.now) out.old }
{
    if let Err(refusal) = call_outcome(policy, request, bank, DECISION_BYTES, out.len()) {
        return refusal_word(refusal, 0);
    }
    traced_handed(Ok(traced_lent(policy, request, bank)), out)
}

// The same, after the request check. Refused: 22, 23, 1, 2, 4, 3.
pub fn prescribe_checked_delivered(
    policy: &[u8],
    request: &[u8],
    bank: &[u8],
    out: &mut [u8],
) -> u64
    ensures { (result, out.new) ≡ prescribe_checked_call (lent policy.now request.now bank.now) out.old }
{
    if let Err(refusal) = checked_call_outcome(policy, request, bank, DECISION_BYTES, out.len()) {
        return refusal_word(refusal, 0);
    }
    traced_handed(Ok(traced_lent(policy, request, bank)), out)
}

// A decision alone, where it has room.
pub fn decision_handed(prescribed: Result<KernelDecision, Refusal>, out: &mut [u8]) -> u64
    requires { uncounted_size ≤ length out.old }
    ensures { (result, out.new) ≡ handed uncounted_bytes [] (told_prescribed prescribed) out.old }
{
    match prescribed {
        Ok(decision) => hand_bytes(out, &uncounted_bytes(decision)),
        Err(refusal) => refusal_word(refusal, 0),
    }
}

// The decision, with what every record is told in the list. Refused: 22, 23, 1, 2, 4 for the decision's room, 4 for the list's.
pub fn explain_delivered(
    policy: &[u8],
    request: &[u8],
    bank: &[u8],
    list: &mut [u8],
    out: &mut [u8],
) -> u64
    ensures { ((result, out.new), list.new) ≡ explain_call (lent policy.now request.now bank.now)
        list.old out.old }
{
    if let Err(refusal) = call_outcome(policy, request, bank, UNCOUNTED_BYTES, out.len()) {
        return refusal_word(refusal, 0);
    }
    let prescribed = explain(policy_of(policy), bank, input_of(request), list);
    decision_handed(prescribed, out)
}
