// Every group, with how many numbers it has: 1 to 4 are the kinds of damage. What a number of another group stands for is said by the function
// that `case_of` hands it to.
use crate::answers::CALLS;
use crate::banks::{LENGTHS, SPACE};
use crate::damage::{damaged, numbers_of};
use crate::example::{END, example};
use crate::faults::FAULTS;
use crate::limits::{LIMITS, limit};
use crate::pairs::pair;
use crate::sizes::{BANKS, bank, length};
use crate::spoken::{SENTENCES, sentence};
use crate::tally::{Seen, Tally, judged, noted};
use crate::texts::{is_example, prints};

const GROUPS: u64 = 10;

// More rooms than the longest of the example's texts has bytes.
const ROOMS: usize = 320;

// Groups 1 to 4: the example damaged, through each call.
fn damage(kind: u64, number: usize) -> Seen {
    let call = (number % CALLS) as u8;
    let mut input = [0u8; SPACE];
    let case = damaged(&mut input, 0, END, kind, number / CALLS);
    let Some(owed) = case.number else {
        return Seen::NoCase;
    };
    judged(prints(call, &input, case.end, 1, owed, 0))
}

// Group 9: the example printed into each room.
fn room(number: usize) -> Seen {
    let call = (number % CALLS) as u8;
    let input = example();
    judged(is_example(call, &input, 1, number / CALLS % ROOMS))
}

// How many numbers a group has.
fn size_of(group: u64) -> usize {
    match group {
        1..=4 => numbers_of(group) * CALLS,
        5 => FAULTS * FAULTS * CALLS,
        6 => LIMITS * CALLS,
        7 => BANKS * CALLS,
        8 => LENGTHS * CALLS,
        9 => ROOMS * CALLS,
        _ => SENTENCES,
    }
}

// What a number of a group comes to.
fn case_of(group: u64, number: usize) -> Seen {
    match group {
        1..=4 => damage(group, number),
        5 => pair(number),
        6 => limit(number),
        7 => bank(number),
        8 => length(number),
        9 => room(number),
        _ => sentence(number),
    }
}

// A tally with all numbers of a group.
fn with_group(mut tally: Tally, group: u64) -> Tally {
    for i in 0..size_of(group) {
        tally = noted(tally, group, i as u64, case_of(group, i));
    }
    tally
}

// The tally of all that is printed.
pub(crate) fn every() -> Tally {
    let mut tally = Tally::default();
    for group in 1..=GROUPS {
        tally = with_group(tally, group);
    }
    tally
}
