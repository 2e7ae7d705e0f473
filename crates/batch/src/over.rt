// A batch over a bank of which so many records are read, however it was.
ghost use Rattle.std.specs.Prelude.{◌≡◌, ◌≤◌, ◌++◌, map, length};
ghost use Rattle.rules.specs.Bytes.{filled};
ghost use Rattle.rules.specs.Refused.{first_fault, room_faults, told_outcome};
ghost use Rattle.rules.specs.Numbers.{told_decision};
ghost use Rattle.rules.specs.Batch.{batch_checked_over, batch_checked_row_over, batch_over, batch_row_over, decisions_of, requests_faults};
ghost use Rattle.live_slots.specs.Among.{among_of, Among};
ghost use Rattle.batch.specs.Read.{read_of};

use batch_checks::room_outcome;
use call_checks::refuse::input_outcome;
use kernel_among::among::decision_among;
use rules::{KernelDecision, KernelInput, PolicySnapshot, Refusal};

// Each request's decision, in the order of the requests, at the start of the row. The rest of the row stays as it was.
fn fill(
    policy: PolicySnapshot,
    bank: &[u8],
    inputs: &[KernelInput],
    row: &mut [KernelDecision],
    many: u16,
)
    requires seen { Among many bank.now }
    requires room { length inputs.now ≤ length row.old }
    ensures { map told_decision row.new ≡ filled (decisions_of policy (among_of many bank.now) inputs.now) (map told_decision row.old) }
{
    // By place: after a loop over the row's own elements beside the requests a proof knows nothing of them.
    for (place, &input) in inputs.iter().enumerate() {
        row[place] = decision_among(policy, bank, input, many);
    }
}

// The first request with a field above 10,000: 3, with its place.
fn first_bad(inputs: &[KernelInput]) -> Result<(), Refusal>
    ensures { told_outcome result ≡ first_fault (requests_faults 0 inputs.now) }
{
    for (place, &input) in inputs.iter().enumerate() {
        input_outcome(input, place)?;
    }
    Ok(())
}

// What refuses a checked batch of a bank that isn't refused: 4 for so much room, then 3.
fn checked_outcome(inputs: &[KernelInput], room: usize) -> Result<(), Refusal>
    ensures { told_outcome result ≡ first_fault (room_faults (length inputs.now) room ++ requests_faults 0 inputs.now) }
{
    room_outcome(inputs.len(), room)?;
    first_bad(inputs)
}

// A batch of a bank that isn't refused. Refused: 4 where the row is shorter than the requests; the row is then as it was.
pub(crate) fn batch_over(
    policy: PolicySnapshot,
    bank: &[u8],
    inputs: &[KernelInput],
    row: &mut [KernelDecision],
    many: u16,
) -> Result<(), Refusal>
    requires { Among many bank.now }
    ensures { (told_outcome result ≡ batch_over (read_of many bank.now) inputs.now (length row.old)) × (map told_decision row.new ≡ batch_row_over policy (read_of many bank.now) inputs.now (map told_decision row.old)) }
{
    room_outcome(inputs.len(), row.len())?;
    fill(policy, bank, inputs, row, many);
    Ok(())
}

// The same, once all requests are tested: 3 comes last.
pub(crate) fn batch_checked_over(
    policy: PolicySnapshot,
    bank: &[u8],
    inputs: &[KernelInput],
    row: &mut [KernelDecision],
    many: u16,
) -> Result<(), Refusal>
    requires { Among many bank.now }
    ensures { (told_outcome result ≡ batch_checked_over (read_of many bank.now) inputs.now (length row.old)) × (map told_decision row.new ≡ batch_checked_row_over policy (read_of many bank.now) inputs.now (map told_decision row.old)) }
{
    checked_outcome(inputs, row.len())?;
    fill(policy, bank, inputs, row, many);
    Ok(())
}
