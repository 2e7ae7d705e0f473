// The call `explain`.
ghost use Rattle.std.specs.Prelude.{◌≡◌};
ghost use Rattle.rules.specs.Numbers.{told_prescribed};
ghost use Rattle.rules.specs.Explain.{explain_of, explain_list};

use crate::among::explain_among;
use call_checks::refuse::bank_outcome;
use rules::limits::RECORD_BYTES;
use rules::{KernelDecision, KernelInput, PolicySnapshot, Refusal};

// `explain`: the decision, and in the list what every record is told, 72 bytes each in the order of the bank; a stopped request lists
// none. Refused: 1, 2, then 4 where this answer needs more room; a refused call leaves the list as it was.
pub fn explain(
    policy: PolicySnapshot,
    bank: &[u8],
    input: KernelInput,
    list: &mut [u8],
) -> Result<KernelDecision, Refusal>
    ensures answer { told_prescribed result ≡ explain_of policy input bank.now list.old }
    ensures bytes { list.new ≡ explain_list policy input bank.now list.old }
{
    bank_outcome(bank.len())?;
    let every = (bank.len() / RECORD_BYTES) as u16;
    explain_among(policy, bank, input, every, list)
}
