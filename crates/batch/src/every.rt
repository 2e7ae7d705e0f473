// A batch over every record of a bank.
ghost use Rattle.std.specs.Prelude.{◌≡◌, map, length};
ghost use Rattle.rules.specs.Refused.{told_outcome};
ghost use Rattle.rules.specs.Numbers.{told_decision};
ghost use Rattle.rules.specs.Batch.{batch_of, batch_row, batch_checked_of, batch_checked_row};

use crate::over::{batch_checked_over, batch_over};
use batch_checks::every_record;
use rules::{KernelDecision, KernelInput, PolicySnapshot, Refusal};

// `prescribe_batch`: each request's decision, in the order of the requests, at the start of the row. The rest of the row stays as it was,
// and all of it where the call is refused: 1, 2, then 4 where the row is shorter than the requests.
pub fn prescribe_batch(
    policy: PolicySnapshot,
    bank: &[u8],
    inputs: &[KernelInput],
    row: &mut [KernelDecision],
) -> Result<(), Refusal>
    ensures { (told_outcome result ≡ batch_of bank.now inputs.now (length row.old)) × (map told_decision row.new ≡ batch_row policy bank.now inputs.now (map told_decision row.old)) }
{
    let many = every_record(bank)?;
    batch_over(policy, bank, inputs, row, many)
}

// `prescribe_batch_checked`: the same, once all requests are tested. Refused: 1, 2, 4, 3.
pub fn prescribe_batch_checked(
    policy: PolicySnapshot,
    bank: &[u8],
    inputs: &[KernelInput],
    row: &mut [KernelDecision],
) -> Result<(), Refusal>
    ensures { (told_outcome result ≡ batch_checked_of bank.now inputs.now (length row.old)) × (map told_decision row.new ≡ batch_checked_row policy bank.now inputs.now (map told_decision row.old)) }
{
    let many = every_record(bank)?;
    batch_checked_over(policy, bank, inputs, row, many)
}
