// The decision with its counts over so many records.
ghost use Rattle.std.specs.Prelude.{◌≡◌};
ghost use Rattle.rules.specs.Numbers.{told_trace};
ghost use Rattle.rules.specs.Decide.{traced_of};
ghost use Rattle.live_slots.specs.Among.{among_of, Among};

use kernel_among::among::decide_among;
use kernel_trace::trace::trace_of;
use rules::{DecisionTrace, KernelDecision, KernelInput, PolicySnapshot};

// The decision with its counts. Where the request is stopped they are zero.
pub fn traced_among(
    policy: PolicySnapshot,
    bank: &[u8],
    input: KernelInput,
    many: u16,
) -> (KernelDecision, DecisionTrace)
    requires { Among many bank.now }
    ensures { told_trace result ≡ traced_of policy input (among_of many bank.now) }
{
    let decided = decide_among(policy, bank, input, many);
    (decided.decision, trace_of(decided.decision, decided.counts))
}
