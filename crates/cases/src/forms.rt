// The groups of the stored form and the request form, with how many numbers each has: 1 to 4 are the kinds of damage, with an even number to
// the stored form and with an odd one to the request form; 13 to 17 are the kinds of damage to the field that says how a policy rounds, and 18 to 21
// those to the one that says its allowance, through every call that reads it. What a number of another group stands for is said by the function that
// `case_of` hands it to.
use crate::allowed::{LONGEST, allowed, allowed_numbers, longest};
use crate::banks::LENGTHS;
use crate::damage::numbers_of;
use crate::reading::{damaged_request, damaged_stored, long};
use crate::rounded::{rounded, rounded_numbers};
use crate::tally::{Seen, Tally, noted};
use crate::writing::{
    FREE_ROOMS, ONCE_ROOMS, REQUEST_ROOMS, SIZE_ROOMS, SIZES, STORED_ROOMS, VAST, VAST_ROOMS,
    free_room, once_room, request_room, size, stored_room, vast,
};

const GROUPS: u64 = 21;

// The groups before the kinds of damage to the field that says how a policy rounds, and before those to the one that says its allowance.
const BEFORE_ROUNDED: u64 = 12;

const BEFORE_ALLOWED: u64 = 17;

// The groups of what is printed come before these.
const PRINTED: u64 = 10;

// How many numbers a group has.
fn size_of(group: u64) -> usize {
    match group {
        1..=4 => numbers_of(group) * 2,
        5 => LENGTHS,
        6 => STORED_ROOMS,
        7 => REQUEST_ROOMS,
        8 => SIZES * SIZE_ROOMS,
        9 => VAST * VAST_ROOMS,
        10 => ONCE_ROOMS,
        11 => FREE_ROOMS * 2,
        12 => LONGEST,
        13..=17 => rounded_numbers(group.wrapping_sub(BEFORE_ROUNDED)),
        _ => allowed_numbers(group.wrapping_sub(BEFORE_ALLOWED)),
    }
}

// Groups 1 to 4.
fn damage(kind: u64, number: usize) -> Seen {
    if number % 2 == 0 {
        return damaged_stored(kind, number / 2);
    }
    damaged_request(kind, number / 2)
}

// What a number of a group comes to.
fn case_of(group: u64, number: usize) -> Seen {
    match group {
        1..=4 => damage(group, number),
        5 => long(number),
        6 => stored_room(number),
        7 => request_room(number),
        8 => size(number),
        9 => vast(number),
        10 => once_room(number),
        11 => free_room(number),
        12 => longest(number),
        13..=17 => rounded(group.wrapping_sub(BEFORE_ROUNDED), number),
        _ => allowed(group.wrapping_sub(BEFORE_ALLOWED), number),
    }
}

// A tally with all numbers of a group; its name counts on from the groups of what is printed.
fn with_group(mut tally: Tally, group: u64) -> Tally {
    let name = PRINTED.wrapping_add(group);
    for i in 0..size_of(group) {
        tally = noted(tally, name, i as u64, case_of(group, i));
    }
    tally
}

// The forms' cases, counted on from a tally.
pub(crate) fn every_form(mut tally: Tally) -> Tally {
    for group in 1..=GROUPS {
        tally = with_group(tally, group);
    }
    tally
}
