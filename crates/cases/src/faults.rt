// What can be wrong with an input, in the order in which it is tested: 20 to 22 field by field, 19, 10 for each limit of the policy, 11, the
// first model's 13 and 14, the second one's 12, 13 and 14, then 15, then 3 for each field of the request, and 5 for an id that isn't listed.
// Tag 4 has its faults in `rounded`, and tag 5 in `allowed`.
ghost use Rattle.std.specs.Prelude.{◌+◌, ◌≤◌};

use crate::answers::UNIT;

pub(crate) const FAULTS: usize = 33;

pub(crate) const BANK_CUT: usize = 9;

pub(crate) const TOO_MANY: usize = 16;

pub(crate) const EMPTY: usize = 20;

pub(crate) const ALL_OFF: usize = 28;

pub(crate) const UNLISTED: usize = 32;

// Document 01's numbers. For each field: no byte where it is due, a cut header, a wrong tag, a wrong length, a cut body. The unit's program
// is asked about no id.
pub(crate) fn number_for(call: u8, fault: usize) -> u8 {
    match fault {
        0 | 5 | 10 => 21,
        1 | 6 | 11 => 20,
        2 | 7 | 12 => 21,
        3 | 8 | 13 => 22,
        4 | 9 | 14 => 20,
        15 => 21,
        16 => 19,
        17..=19 => 10,
        20 => 11,
        21 | 25 => 13,
        22 | 23 | 26 | 27 => 14,
        24 => 12,
        28 => 15,
        29..=31 => 3,
        _ => {
            if call == UNIT {
                return 0;
            }
            5
        }
    }
}

// Which fault of its number it is: 3 and 10 have one for each field, 13 one for each model, 14 one for each field of each model.
pub(crate) fn variant_of(fault: usize) -> u8 {
    match fault {
        18 | 23 | 25 | 30 => 1,
        19 | 26 | 31 => 2,
        27 => 3,
        _ => 0,
    }
}

// Where an input with a fault ends, if its request's field begins at a place; 15 is a byte too many.
pub(crate) fn end_for(fault: usize, request: usize) -> usize
    requires { (36 ≤ request) × (request ≤ 65600) }
    ensures { result ≤ request + 74 }
{
    match fault {
        0 => 0,
        1 => 2,
        4 => 32,
        5 => 33,
        6 => 35,
        9 => request - 1,
        10 => request,
        11 => request + 2,
        14 => request + 72,
        15 => request + 74,
        _ => request + 73,
    }
}

// The place of the two bytes that a fault changes; for a fault that changes none, that of the policy's epoch. A tag is changed with the byte
// before it, which is 0; the first one with the length's after it.
pub(crate) fn changed_at(fault: usize, request: usize) -> usize
    requires { (36 ≤ request) × (request ≤ 65600) }
    ensures { result ≤ request + 70 }
{
    match fault {
        2 => 0,
        3 => 1,
        7 => 32,
        8 => 34,
        12 => request - 1,
        13 => request + 1,
        17 => 19,
        18 => 21,
        19 => 23,
        21 => 40,
        22 => 42,
        23 => 44,
        24 => 83,
        25 => 87,
        26 => 89,
        27 => 91,
        29 => request + 39,
        30 => request + 41,
        31 => request + 43,
        _ => 3,
    }
}

// What the two bytes then are: another tag, a length one too high, the first number above a limit, the first model's id.
pub(crate) fn changed_to(fault: usize, size: u16) -> u16
    requires { size ≤ 60000 }
{
    match fault {
        2 => 7_689,
        3 => 31,
        7 | 12 => 2_304,
        8 => size + 1,
        13 => 71,
        19 => 50_001,
        21 | 25 => 64,
        24 => 1,
        17 | 18 | 22 | 23 | 26 | 27 | 29 | 30 | 31 => 10_001,
        _ => 7,
    }
}
