// For other crates: the first listed record with an id. `first_listed` asks for a bank whose length is tested.
ghost use Rattle.std.specs.Prelude.{◌≡◌, ◌≤◌, length};
ghost use Rattle.rules.specs.Limits.{max_catalog_models};
ghost use Rattle.rules.specs.Records.{records_in, listed_of};
ghost use Rattle.rules.specs.Numbers.{told_found, told_option};
ghost use Rattle.rules.specs.Listing.{first_listed, place_of, find_of};

use crate::refuse::bank_outcome;
use bank::unchecked::model_at;
use rules::Refusal;
use rules::limits::RECORD_BYTES;

// Its place in a bank of whole records.
pub fn first_listed(bank: &[u8], id: u32) -> Option<u16>
    requires { records_in (length bank.now) ≤ max_catalog_models }
    ensures { told_option result ≡ place_of (first_listed id (listed_of bank.now)) }
{
    for place in 0..bank.len() / RECORD_BYTES {
        if model_at(bank, place).model_id == id {
            return Some(place as u16);
        }
    }
    None
}

// `find`: the place of the first listed record with an id. Refused: 1, 2.
pub fn find(bank: &[u8], id: u32) -> Result<Option<u16>, Refusal>
    ensures { told_found result ≡ find_of id bank.now }
{
    bank_outcome(bank.len())?;
    Ok(first_listed(bank, id))
}
