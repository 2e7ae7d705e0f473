// The records of a bank, read at their places; passed on, the models, requests and policies that bytes say. What is passed on here asks nothing
// of its caller; `unchecked` is for other crates.
#![tactic(auto)]

ghost use Rattle.std.specs.Prelude.{◌≡◌, ◌+◌, ◌≤◌, length, take, drop};
ghost use Rattle.rules.specs.Refused.{told_outcome};
ghost use Rattle.rules.specs.Listing.{reading_of, record_of, record_start};

use rules::Refusal;
use rules::limits::{MAX_CATALOG_MODELS, RECORD_BYTES};

pub mod unchecked;

pub use unpacking::{input_from, model_from};
pub use unpacking_policy::policy_from;

// Whether the record at a place can be read, and if not, why: 1, 2 or 8, in this order.
pub fn reading(bank: &[u8], place: usize) -> Result<(), Refusal>
    ensures { told_outcome result ≡ reading_of bank.now place }
{
    let size = bank.len();
    if size % RECORD_BYTES != 0 {
        return Err(Refusal::UnevenBank);
    }
    let records = size / RECORD_BYTES;
    if MAX_CATALOG_MODELS < records {
        return Err(Refusal::CatalogTooLarge);
    }
    if records <= place {
        return Err(Refusal::BeyondBank);
    }
    Ok(())
}

// A part of some bytes, as that very part of them: so many, from a position on.
fn part(s: &[u8], at: usize, size: usize) -> &[u8]
    requires { at + size ≤ length s.now }
    ensures bytes { result.now ≡ take size (drop at s.now) }
    ensures start { result.ref_ptr ≡ (s.entry.ref_ptr.0, at + s.entry.ref_ptr.1) }
{
    &s[at..at + size]
}

// The record at a place, as that very part of the bank: its bytes, and where it begins. Where `reading` refuses, the empty part at the
// bank's start.
pub fn record_at(bank: &[u8], place: usize) -> &[u8]
    ensures bytes { result.now ≡ record_of bank.now place }
    ensures start { result.ref_ptr ≡ (bank.entry.ref_ptr.0, record_start bank.now place + bank.entry.ref_ptr.1) }
{
    match reading(bank, place) {
        Ok(()) => part(bank, RECORD_BYTES * place, RECORD_BYTES),
        Err(_) => part(bank, 0, 0),
    }
}
