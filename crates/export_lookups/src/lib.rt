// For the library: what stands behind the exported functions that look something up, a model's utility, its place, the next eligible entry of
// a list. Each function but the two that hand over takes the very slices of an exported one and answers its word: 0, or the refusal's. Those two
// serve the calls over live records as well.
#![tactic(auto)]

ghost use Rattle.std.specs.Prelude.{◌≡◌, ◌≤◌, [], length};
ghost use Rattle.rules.specs.Numbers.{told_utility, told_found};
ghost use Rattle.rules.specs.Explain.{next_eligible_of};
ghost use Rattle.export_checks.specs.Checks.{lent, word_size, handed};
ghost use Rattle.export_lookups.specs.Lookups.{utility_bytes, utility_call, place_size, place_bytes, find_call, next_or, next_call};

use bank::unchecked::{input_of, policy_of};
use endian_signs::signed_bits;
use endian_writing::put16;
use explain_walk::next_eligible;
use export_checks::{call_outcome, hand_u64, lent_outcome, refusal_word};
use kernel::{find, utility_for_model};
use rules::Refusal;
use rules::limits::NO_PLACE;

// The bytes of a utility and of an entry's place, and of a model's place.
pub const WORD_BYTES: usize = 8;

pub const PLACE_BYTES: usize = 2;

// What is told in place of a next entry, where there is none.
const NO_NEXT: u64 = u64::MAX;

// A utility, where it has room.
#[tactic(auto, unfolding(export_checks::specs::Checks::handed))]
pub fn utility_handed(found: Result<i64, Refusal>, out: &mut [u8]) -> u64
    requires { word_size ≤ length out.old }
    ensures { (result, out.new) ≡ handed utility_bytes [] (told_utility found) out.old }
{
    match found {
        Ok(utility) => hand_u64(out, signed_bits(utility)),
        Err(refusal) => refusal_word(refusal, 0),
    }
}

// The utility of one model. Refused: 22, 23, 1, 2, 4, 7.
pub fn utility_delivered(policy: &[u8], request: &[u8], bank: &[u8], id: u32, out: &mut [u8]) -> u64
    ensures { (result, out.new) ≡ utility_call (lent policy.now request.now bank.now) id out.old }
{
    if let Err(refusal) = call_outcome(policy, request, bank, WORD_BYTES, out.len()) {
        return refusal_word(refusal, 0);
    }
    utility_handed(
        utility_for_model(policy_of(policy), bank, input_of(request), id),
        out,
    )
}

// A model's place, where it has room.
#[tactic(auto, unfolding(export_checks::specs::Checks::handed))]
pub fn found_handed(found: Result<Option<u16>, Refusal>, out: &mut [u8]) -> u64
    requires { place_size ≤ length out.old }
    ensures { (result, out.new) ≡ handed place_bytes [] (told_found found) out.old }
{
    match found {
        Ok(place) => {
            put16(out, 0, place.unwrap_or(NO_PLACE));
            0
        }
        Err(refusal) => refusal_word(refusal, 0),
    }
}

// The first listed place with an id. Refused: 1, 2, 4.
pub fn find_delivered(bank: &[u8], id: u32, out: &mut [u8]) -> u64
    ensures { (result, out.new) ≡ find_call bank.now id out.old }
{
    if let Err(refusal) = lent_outcome(bank, PLACE_BYTES, out.len()) {
        return refusal_word(refusal, 0);
    }
    found_handed(find(bank, id), out)
}

// The place of the next eligible entry of a list, from a place on.
fn next_place(list: &[u8], from: u64) -> u64
    ensures { result ≡ next_or (next_eligible_of list.now from) }
{
    next_eligible(list, from as usize).map_or(NO_NEXT, |place| place as u64)
}

// The same, handed over. Refused: 4.
pub fn next_delivered(list: &[u8], from: u64, out: &mut [u8]) -> u64
    ensures { (result, out.new) ≡ next_call list.now from out.old }
{
    if out.len() < WORD_BYTES {
        return refusal_word(Refusal::NoRoom, 0);
    }
    hand_u64(out, next_place(list, from))
}
