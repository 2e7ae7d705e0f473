// The calls that decide over live records: plain, checked, and with the counts. They differ from those of `kernel` in their first line, how a bank is read; a
// trait for that line would have a law for each rule that both are promised by.
ghost use Rattle.std.specs.Prelude.{◌≡◌, ◌++◌, length};
ghost use Rattle.rules.specs.Refused.{refused, answered, unless};
ghost use Rattle.rules.specs.Numbers.{told_number, told_prescribed, told_traced};
ghost use Rattle.rules.specs.Decide.{request_faults};
ghost use Rattle.rules.specs.Slots.{live_faults, live_in};
ghost use Rattle.rules.specs.Live.{live_prescribe_of, live_prescribe_checked_of, live_prescribe_traced_of, live_prescribe_traced_checked_of};

use crate::traced::traced_among;
use call_checks::refuse::input_outcome;
use kernel_among::among::decision_among;
use live_slots::slots::read_slots;
use rules::{DecisionTrace, KernelDecision, KernelInput, PolicySnapshot, Refusal};

// How many records are live, of a checked call: what refuses the slots, then the request.
fn checked_slots(bank: &[u8], input: KernelInput) -> Result<u16, Refusal>
    ensures { told_number result ≡ unless (live_faults bank.now ++ request_faults input 0) refused (answered (length (live_in bank.now))) }
{
    let live = read_slots(bank)?;
    input_outcome(input, 0)?;
    Ok(live)
}

// `prescribe` over live records: the slot is the place. Refused: 1, 2, 34.
pub fn prescribe(
    policy: PolicySnapshot,
    bank: &[u8],
    input: KernelInput,
) -> Result<KernelDecision, Refusal>
    ensures { told_prescribed result ≡ live_prescribe_of policy input bank.now }
{
    let many = read_slots(bank)?;
    Ok(decision_among(policy, bank, input, many))
}

// `prescribe_checked`: the same, after the request check. Refused: 1, 2, 34, 3.
pub fn prescribe_checked(
    policy: PolicySnapshot,
    bank: &[u8],
    input: KernelInput,
) -> Result<KernelDecision, Refusal>
    ensures { told_prescribed result ≡ live_prescribe_checked_of policy input bank.now }
{
    let many = checked_slots(bank, input)?;
    Ok(decision_among(policy, bank, input, many))
}

// `prescribe_with_trace`: the decision with its nine counts, in which free slots aren't counted. Refused: 1, 2, 34.
pub fn prescribe_with_trace(
    policy: PolicySnapshot,
    bank: &[u8],
    input: KernelInput,
) -> Result<(KernelDecision, DecisionTrace), Refusal>
    ensures { told_traced result ≡ live_prescribe_traced_of policy input bank.now }
{
    let many = read_slots(bank)?;
    Ok(traced_among(policy, bank, input, many))
}

// `prescribe_with_trace_checked`: the same, after the request check. Refused: 1, 2, 34, 3.
pub fn prescribe_with_trace_checked(
    policy: PolicySnapshot,
    bank: &[u8],
    input: KernelInput,
) -> Result<(KernelDecision, DecisionTrace), Refusal>
    ensures { told_traced result ≡ live_prescribe_traced_checked_of policy input bank.now }
{
    let many = checked_slots(bank, input)?;
    Ok(traced_among(policy, bank, input, many))
}
