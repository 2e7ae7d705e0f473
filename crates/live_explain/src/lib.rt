// The explanation of a decision over a bank whose models are swapped: what each live record is told. The call asks nothing of its caller.
#![tactic(auto)]

ghost use Rattle.std.specs.Prelude.{◌≡◌};
ghost use Rattle.rules.specs.Numbers.{told_prescribed};
ghost use Rattle.rules.specs.Live.{live_explain_of, live_explain_list};

use explain::among::explain_among;
use live_slots::slots::read_slots;
use rules::{KernelDecision, KernelInput, PolicySnapshot, Refusal};

// `explain` over live records: the decision, and in the list what each of them is told, 72 bytes each in the order of the slots and without a
// gap, the slot as place; a stopped request lists none. Refused: 1, 2, 34, then 4 where this answer needs more room; a refused call leaves
// the list as it was.
pub fn explain(
    policy: PolicySnapshot,
    bank: &[u8],
    input: KernelInput,
    list: &mut [u8],
) -> Result<KernelDecision, Refusal>
    ensures answer { told_prescribed result ≡ live_explain_of policy input bank.now list.old }
    ensures bytes { list.new ≡ live_explain_list policy input bank.now list.old }
{
    let live = read_slots(bank)?;
    explain_among(policy, bank, input, live, list)
}
