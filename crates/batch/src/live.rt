// A batch over the live records of a bank whose models are swapped.
ghost use Rattle.std.specs.Prelude.{◌≡◌, map, length};
ghost use Rattle.rules.specs.Refused.{told_outcome};
ghost use Rattle.rules.specs.Numbers.{told_decision};
ghost use Rattle.rules.specs.Live.{live_batch_of, live_batch_row, live_batch_checked_of, live_batch_checked_row};

use crate::over::{batch_checked_over, batch_over};
use live_slots::slots::read_slots;
use rules::{KernelDecision, KernelInput, PolicySnapshot, Refusal};

// `prescribe_batch` over live records. Refused: 1, 2, 34, then 4 where the row is shorter than the requests.
pub fn prescribe_batch(
    policy: PolicySnapshot,
    bank: &[u8],
    inputs: &[KernelInput],
    row: &mut [KernelDecision],
) -> Result<(), Refusal>
    ensures { (told_outcome result ≡ live_batch_of bank.now inputs.now (length row.old)) × (map told_decision row.new ≡ live_batch_row policy bank.now inputs.now (map told_decision row.old)) }
{
    let many = read_slots(bank)?;
    batch_over(policy, bank, inputs, row, many)
}

// `prescribe_batch_checked` over live records. Refused: 1, 2, 34, 4, 3.
pub fn prescribe_batch_checked(
    policy: PolicySnapshot,
    bank: &[u8],
    inputs: &[KernelInput],
    row: &mut [KernelDecision],
) -> Result<(), Refusal>
    ensures { (told_outcome result ≡ live_batch_checked_of bank.now inputs.now (length row.old)) × (map told_decision row.new ≡ live_batch_checked_row policy bank.now inputs.now (map told_decision row.old)) }
{
    let many = read_slots(bank)?;
    batch_checked_over(policy, bank, inputs, row, many)
}
