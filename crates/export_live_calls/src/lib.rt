// For the library: what stands behind the exported functions that decide and explain over live records. Each function takes the very slices of
// an exported one and answers its word: 0, or the refusal's. The slots are read once, before the scan.
#![tactic(auto)]

ghost use Rattle.std.specs.Prelude.{◌≡◌, [], ◌≤◌, length};
ghost use Rattle.rules.specs.Limits.{request_bytes};
ghost use Rattle.rules.specs.Records.{input_of, policy_of};
ghost use Rattle.rules.specs.Numbers.{told_trace};
ghost use Rattle.rules.specs.Stored.{policy_size_faults};
ghost use Rattle.rules.specs.Decide.{traced_of};
ghost use Rattle.live_slots.specs.Among.{among_of, Among};
ghost use Rattle.export_checks.specs.Checks.{lent};
ghost use Rattle.export_live_calls.specs.LiveCalls.{live_prescribe_call, live_prescribe_checked_call, live_explain_call};

use bank::unchecked::{input_of, policy_of};
use explain::among::explain_among;
use export_calls::{decision_handed, traced_handed};
use export_checks::refusal_word;
use export_decision_bytes::{DECISION_BYTES, UNCOUNTED_BYTES};
use export_live_checks::{live_call_outcome, live_checked_call_outcome};
use kernel_among::among::decide_among;
use kernel_trace::trace::trace_of;
use rules::{DecisionTrace, KernelDecision};

// The decision over so many records with its counts. Policy and request come as their bytes, as in `kernel_trace::lent`.
fn traced_live(
    policy: &[u8],
    request: &[u8],
    bank: &[u8],
    live: u16,
) -> (KernelDecision, DecisionTrace)
    requires { (policy_size_faults policy.now ≡ []) × (request_bytes ≤ length request.now) × Among live bank.now }
    ensures { told_trace result ≡ traced_of (policy_of policy.now) (input_of request.now) (among_of live bank.now) }
{
    let decided = decide_among(policy_of(policy), bank, input_of(request), live);
    (decided.decision, trace_of(decided.decision, decided.counts))
}

// The decision over the live records with its counts. Refused: 22, 23, 1, 2, 34, 4.
pub fn live_prescribe_delivered(policy: &[u8], request: &[u8], bank: &[u8], out: &mut [u8]) -> u64
    ensures { (result, out.new) ≡ live_prescribe_call (lent policy.now request.now bank.now) out.old }
{
    match live_call_outcome(policy, request, bank, DECISION_BYTES, out.len()) {
        Ok(live) => traced_handed(Ok(traced_live(policy, request, bank, live)), out),
        Err(refusal) => refusal_word(refusal, 0),
    }
}

// The same, after the request check. Refused: 22, 23, 1, 2, 34, 4, 3.
pub fn live_prescribe_checked_delivered(
    policy: &[u8],
    request: &[u8],
    bank: &[u8],
    out: &mut [u8],
) -> u64
    ensures { (result, out.new) ≡ live_prescribe_checked_call (lent policy.now request.now bank.now)
        out.old }
{
    match live_checked_call_outcome(policy, request, bank, DECISION_BYTES, out.len()) {
        Ok(live) => traced_handed(Ok(traced_live(policy, request, bank, live)), out),
        Err(refusal) => refusal_word(refusal, 0),
    }
}

// The decision over the live records, with what each is told in the list. Refused: 22, 23, 1, 2, 34, 4 for the decision's room, 4 for the list's.
pub fn live_explain_delivered(
    policy: &[u8],
    request: &[u8],
    bank: &[u8],
    list: &mut [u8],
    out: &mut [u8],
) -> u64
    ensures { ((result, out.new), list.new) ≡ live_explain_call (lent policy.now request.now bank.now)
        list.old out.old }
{
    match live_call_outcome(policy, request, bank, UNCOUNTED_BYTES, out.len()) {
        Ok(live) => {
            let prescribed = explain_among(policy_of(policy), bank, input_of(request), live, list);
            decision_handed(prescribed, out)
        }
        Err(refusal) => refusal_word(refusal, 0),
    }
}
