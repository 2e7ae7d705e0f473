// The calls that decide over a bank: plain, checked, and with the counts.
ghost use Rattle.std.specs.Prelude.{◌≡◌};
ghost use Rattle.rules.specs.Numbers.{told_prescribed, told_traced};
ghost use Rattle.rules.specs.Decide.{prescribe_of, prescribe_checked_of, prescribe_traced_of, prescribe_traced_checked_of};

use call_checks::refuse::{bank_outcome, checked_outcome};
use kernel_decide::decide::decide;
use kernel_trace::trace::traced;
use rules::{DecisionTrace, KernelDecision, KernelInput, PolicySnapshot, Refusal};

// `prescribe`: the decision over a bank. Refused: 1, 2.
pub fn prescribe(
    policy: PolicySnapshot,
    bank: &[u8],
    input: KernelInput,
) -> Result<KernelDecision, Refusal>
    ensures { told_prescribed result ≡ prescribe_of policy input bank.now }
{
    bank_outcome(bank.len())?;
    Ok(decide(policy, bank, input))
}

// `prescribe_checked`: the same, after the request check. Refused: 1, 2, 3.
pub fn prescribe_checked(
    policy: PolicySnapshot,
    bank: &[u8],
    input: KernelInput,
) -> Result<KernelDecision, Refusal>
    ensures { told_prescribed result ≡ prescribe_checked_of policy input bank.now }
{
    checked_outcome(bank.len(), input)?;
    Ok(decide(policy, bank, input))
}

// `prescribe_with_trace`: the decision with its nine counts. Refused: 1, 2.
pub fn prescribe_with_trace(
    policy: PolicySnapshot,
    bank: &[u8],
    input: KernelInput,
) -> Result<(KernelDecision, DecisionTrace), Refusal>
    ensures { told_traced result ≡ prescribe_traced_of policy input bank.now }
{
    bank_outcome(bank.len())?;
    Ok(traced(policy, bank, input))
}

// `prescribe_with_trace_checked`: the same, after the request check. Refused: 1, 2, 3.
pub fn prescribe_with_trace_checked(
    policy: PolicySnapshot,
    bank: &[u8],
    input: KernelInput,
) -> Result<(KernelDecision, DecisionTrace), Refusal>
    ensures { told_traced result ≡ prescribe_traced_checked_of policy input bank.now }
{
    checked_outcome(bank.len(), input)?;
    Ok(traced(policy, bank, input))
}
