// What is lent, damaged, and what the cases come to.
ghost use Rattle.std.specs.Prelude.{◌≤◌};

use crate::calls::{CALLS, asked};
use crate::owed;
use crate::owed::has;

// The worked example as `unit` reads it: where its policy, models and request begin, and its end.
pub(crate) const EXAMPLE_BYTES: usize = 203;

const POLICY: usize = 3;

const MODELS: usize = 36;

const SECOND: usize = 83;

const AFTER_BANK: usize = 130;

const REQUEST: usize = 133;

// The example's two models with a free slot between them.
const FREE: usize = 47;

const LAST: usize = 94;

const BANK: usize = 141;

// So many places for each set of faults: as a free slot has bytes beside its id.
const PLACES: usize = 43;

// Bytes that no call may touch.
const MARK: u8 = 0xa7;

// How many cases there are, how many differ, and the number of the first that does.
#[derive(Clone, Copy, Default)]
pub(crate) struct Told {
    pub cases: u64,
    pub different: u64,
    pub first: Option<u64>,
}

// A length below its own, where that fault is among them.
fn cut(whole: usize, faults: usize, one: usize, place: usize) -> usize
    ensures { result ≤ whole }
{
    if has(faults, one) {
        whole.saturating_sub(place).saturating_sub(1)
    } else {
        whole
    }
}

// The bank's length: none from 95 to 140 is one of whole records.
fn bank_length(faults: usize, place: usize) -> usize
    ensures { result ≤ 141 }
{
    if has(faults, owed::UNEVEN) {
        BANK - 1 - place % 46
    } else {
        BANK
    }
}

// A policy's bytes up to its allowance, and one more.
const POLICY_ROOM: usize = 36;

// The length of one that says an allowance: a part of that is missing, or there is a byte too many.
fn allowing_length(faults: usize, place: usize) -> usize
    ensures { result ≤ 36 }
{
    if !has(faults, owed::SHORT_POLICY) {
        return 35;
    }
    match place % 4 {
        0 => 32,
        1 => 33,
        2 => 34,
        _ => POLICY_ROOM,
    }
}

// A policy with a 31st byte is as long as that, unless it says an allowance.
fn policy_length(faults: usize, place: usize) -> usize
    ensures { result ≤ 36 }
{
    if has(faults, owed::ALLOWING) {
        return allowing_length(faults, place);
    }
    if has(faults, owed::SHORT_POLICY) {
        return place % 30;
    }
    if has(faults, owed::BAD_ROUNDING) {
        31
    } else {
        30
    }
}

// The 31st byte: one that says nothing where that is among the faults, else either way to round.
fn rounding_of(faults: usize, place: usize) -> u8 {
    if has(faults, owed::BAD_ROUNDING) {
        (2 + place % 254) as u8
    } else {
        (place % 2) as u8
    }
}

// The policy, a 31st byte, four that say an allowance, which may be 0, and one too many.
fn policy_of(example: [u8; EXAMPLE_BYTES], faults: usize, place: usize) -> [u8; POLICY_ROOM] {
    let mut policy = [0u8; POLICY_ROOM];
    policy[..30].copy_from_slice(&example[POLICY..POLICY + 30]);
    policy[30] = rounding_of(faults, place);
    policy[31 + place % 4] = (place % 256) as u8;
    policy
}

// The bank, with one byte of the free slot set where that is among the faults.
fn bank_of(example: [u8; EXAMPLE_BYTES], faults: usize, place: usize) -> [u8; BANK] {
    let mut bank = [0u8; BANK];
    bank[..FREE].copy_from_slice(&example[MODELS..SECOND]);
    bank[LAST..].copy_from_slice(&example[SECOND..AFTER_BANK]);
    if has(faults, owed::UNCLEAR) {
        bank[FREE + 4 + place % PLACES] = (1 + place % 255) as u8;
    }
    bank
}

// Where the request or the record stands in the example.
fn offer_start(call: usize) -> usize
    ensures { result ≤ 133 }
{
    if call < 7 { REQUEST } else { MODELS }
}

// Whether a call tells the word that is owed, and leaves everything as it was.
fn is_refused(
    example: [u8; EXAMPLE_BYTES],
    call: usize,
    faults: usize,
    place: usize,
    word: u64,
) -> bool {
    let mut policy = policy_of(example, faults, place);
    let mut bank = bank_of(example, faults, place);
    let mut list = [MARK; 216];
    let mut out = [MARK; 183];
    let before = (policy, bank, list, out);
    let start = offer_start(call);
    let end = start + cut(owed::offered(call), faults, owed::SHORT_OFFER, place);
    let told = asked(
        call,
        &mut policy[..policy_length(faults, place)],
        &mut bank[..bank_length(faults, place)],
        &example[start..end],
        &mut list,
        &mut out[..cut(owed::needed(call), faults, owed::NO_ROOM, place)],
    );
    told == word && (policy, bank, list, out) == before
}

impl Told {
    // One case more.
    fn note(&mut self, number: u64, as_owed: bool) {
        self.cases = self.cases.wrapping_add(1);
        if !as_owed {
            self.different = self.different.wrapping_add(1);
            self.first = self.first.or(Some(number));
        }
    }
}

// All of them. A case's number says its call, its faults, and where they are.
pub(crate) fn every(example: [u8; EXAMPLE_BYTES]) -> Told {
    let mut told = Told::default();
    for number in 0..CALLS * owed::FAULTS * PLACES {
        let place = number % PLACES;
        let faults = number / PLACES % owed::FAULTS;
        let call = number / (PLACES * owed::FAULTS);
        if let Some(word) = owed::owed(call, faults) {
            told.note(
                number as u64,
                is_refused(example, call, faults, place, word),
            );
        }
    }
    told
}
