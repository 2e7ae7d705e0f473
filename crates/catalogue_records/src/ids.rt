// Ids seen earlier: 12.
ghost use Rattle.std.specs.Prelude.{◌≡◌, ◌*◌, ◌+◌, ◌≤◌, length};
ghost use Rattle.rules.specs.Refused.{first_fault, told_outcome};
ghost use Rattle.rules.specs.Limits.{record_bytes};
ghost use Rattle.rules.specs.Records.{listed_of, model_at};
ghost use Rattle.rules.specs.Validate.{repeat_faults};
ghost use Rattle.catalogue_records.specs.Ids.{ids_of, earlier_ids, rises_from, Looked};

use rules::Refusal;
use rules::limits::RECORD_BYTES;
use sorting::insertion::id_at;

// Whether each id is above the one before it. A bank in order then needs no comparison of pairs.
pub fn ids_rise(bank: &[u8]) -> bool
    ensures { result ≡ rises_from 0 (ids_of (listed_of bank.now)) }
{
    let mut least = 0;
    for place in 0..bank.len() / RECORD_BYTES {
        let id = u64::from(id_at(bank, place));
        if id < least {
            return false;
        }
        least = id + 1;
    }
    true
}

// 12 where one of the records before a place has the id of the record there.
fn repeat_among_earlier(bank: &[u8], place: usize) -> Result<(), Refusal>
    requires { record_bytes * place + record_bytes ≤ length bank.now }
    ensures { told_outcome result ≡ first_fault (repeat_faults (earlier_ids bank.now place) (model_at bank.now place).model_id) }
{
    let id = id_at(bank, place);
    for earlier in 0..place {
        if id_at(bank, earlier) == id {
            return Err(Refusal::DuplicateModelId { model_id: id });
        }
    }
    Ok(())
}

// The same, with no comparison where the bank's ids are known to rise.
pub fn repeat_outcome(bank: &[u8], place: usize, rising: bool) -> Result<(), Refusal>
    requires { Looked bank.now place rising }
    ensures { told_outcome result ≡ first_fault (repeat_faults (earlier_ids bank.now place) (model_at bank.now place).model_id) }
{
    if rising {
        return Ok(());
    }
    repeat_among_earlier(bank, place)
}
