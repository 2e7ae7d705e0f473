// For other crates: the explanation of so many of a bank's records, all of them or its live ones. `explain_among` asks for a bank that is tested.
ghost use Rattle.std.specs.Prelude.{◌≡◌};
ghost use Rattle.rules.specs.Numbers.{told_prescribed};
ghost use Rattle.rules.specs.Explain.{explain_over, explain_list_over};
ghost use Rattle.live_slots.specs.Among.{among_of, Among};
ghost use Rattle.explain.specs.Entries.{unrefused};

use crate::list::{needed, put_explanation};
use kernel_among::among::decision_among;
use rules::{KernelDecision, KernelInput, PolicySnapshot, Refusal};

// The decision over so many records, and in the list an entry for each. Refused: 4 where these need more room.
pub fn explain_among(
    policy: PolicySnapshot,
    bank: &[u8],
    input: KernelInput,
    many: u16,
    list: &mut [u8],
) -> Result<KernelDecision, Refusal>
    requires { Among many bank.now }
    ensures answer { told_prescribed result ≡ explain_over policy input (unrefused (among_of many bank.now)) list.old }
    ensures bytes { list.new ≡ explain_list_over policy input (unrefused (among_of many bank.now)) list.old }
{
    if list.len() < needed(policy, input, many) {
        return Err(Refusal::NoRoom);
    }
    put_explanation(policy, bank, input, many, list);
    Ok(decision_among(policy, bank, input, many))
}
