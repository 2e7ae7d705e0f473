// A bank whose models are swapped: all its slots are read once, before anything else is done with them.
ghost use Rattle.std.specs.Prelude.{◌≡◌, ◌+◌, ◌*◌, ◌≤◌, length};
ghost use Rattle.rules.specs.Limits.{record_bytes, max_catalog_models};
ghost use Rattle.rules.specs.Records.{records_in, record_part};
ghost use Rattle.rules.specs.Refused.{refused, answered, unless};
ghost use Rattle.rules.specs.Numbers.{told_number, told_option};
ghost use Rattle.rules.specs.Listing.{first_listed, place_of};
ghost use Rattle.rules.specs.Slots.{is_blank, live_faults, live_in};

use call_checks::listing::first_listed;
use call_checks::refuse::bank_outcome;
use endian::u64_at;
use rules::Refusal;
use rules::limits::RECORD_BYTES;
use sorting::insertion::id_at;

// Whether every byte of the slot at a place is 0. Eight bytes are one load, so the last two loads share a byte. Each stands behind the test before
// it: side by side, the compiler would test their bytes one by one.
fn is_clear(bank: &[u8], place: usize) -> bool
    requires { record_bytes * place + record_bytes ≤ length bank.now }
    ensures { result ≡ is_blank (record_part bank.now place) }
{
    let at = RECORD_BYTES * place;
    if u64_at(bank, at) != 0 {
        return false;
    }
    if u64_at(bank, at + 8) != 0 {
        return false;
    }
    if u64_at(bank, at + 16) != 0 {
        return false;
    }
    if u64_at(bank, at + 24) != 0 {
        return false;
    }
    if u64_at(bank, at + 32) != 0 {
        return false;
    }
    if u64_at(bank, at + 39) != 0 {
        return false;
    }
    true
}

// All slots, once: 1, 2, then 34 for a slot with id 0 that isn't clear; where none is refused, how many are live. The free ones are counted, so that a
// live slot costs one test.
pub fn read_slots(bank: &[u8]) -> Result<u16, Refusal>
    ensures { told_number result ≡ unless (live_faults bank.now) refused (answered (length (live_in bank.now))) }
{
    bank_outcome(bank.len())?;
    let n = bank.len() / RECORD_BYTES;
    let mut free = 0;
    for place in 0..n {
        if id_at(bank, place) == 0 {
            if !is_clear(bank, place) {
                return Err(Refusal::SlotNotClear);
            }
            free += 1;
        }
    }
    Ok((n - free) as u16)
}

// The slot of the first live record with an id. Id 0 is no live record's.
pub fn first_live(bank: &[u8], id: u32) -> Option<u16>
    requires { records_in (length bank.now) ≤ max_catalog_models }
    ensures { told_option result ≡ place_of (first_listed id (live_in bank.now)) }
{
    if id == 0 {
        return None;
    }
    first_listed(bank, id)
}
