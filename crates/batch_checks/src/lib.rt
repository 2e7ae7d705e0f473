// For `batch`: how many records of a bank are read where every record is, and what refuses a row.
#![tactic(auto)]

ghost use Rattle.std.specs.Prelude.{◌≡◌, length};
ghost use Rattle.rules.specs.Records.{records_in};
ghost use Rattle.rules.specs.Refused.{answered, bank_faults, first_fault, refused, room_faults, told_outcome, unless};
ghost use Rattle.rules.specs.Numbers.{told_number};

use call_checks::refuse::bank_outcome;
use rules::Refusal;
use rules::limits::RECORD_BYTES;

// How many records a bank has. Refused: 1, 2.
pub fn every_record(bank: &[u8]) -> Result<u16, Refusal>
    ensures { told_number result ≡ unless (bank_faults bank.now) refused (answered (records_in (length bank.now))) }
{
    bank_outcome(bank.len())?;
    Ok((bank.len() / RECORD_BYTES) as u16)
}

// 4 where a row has less room than there are requests.
#[tactic(auto, unfolding(rules::specs::Refused::room_faults, rules::specs::Refused::first_fault, rules::specs::Refused::told_outcome))]
pub fn room_outcome(requests: usize, room: usize) -> Result<(), Refusal>
    ensures { told_outcome result ≡ first_fault (room_faults requests room) }
{
    if room < requests {
        return Err(Refusal::NoRoom);
    }
    Ok(())
}
