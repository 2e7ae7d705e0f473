// What is read: whether a reader answers a form as it must, with a number, or with the example's numbers where that is 0.
ghost use Rattle.std.specs.Prelude.{◌≤◌};

use crate::banks::{SPACE, length_answer, length_of, put_long};
use crate::calls::{read_into, request_read};
use crate::damage::damaged;
use crate::example::{AFTER_BANK, END, MODELS, example};
use crate::marks::{MARK, owed, settled};
use crate::tally::{Seen, judged};
use rules::Rounding;

// Reads a stored form with the example's bank, and its policy that rounds so and has this allowance, into the first bytes of a buffer. Too little
// room comes last.
fn reads_in(form: &[u8], number: u8, rounding: Rounding, allowance: u32, room: usize) -> bool
    requires { room ≤ 120 }
{
    let input = example();
    let mut buffer = [MARK; 120];
    let Some(told) = read_into(form, rounding, allowance, &mut buffer, room) else {
        return false;
    };
    settled(told, number, &buffer, &input[MODELS..AFTER_BANK], room)
}

// Into more than enough room, one byte less than enough, and none.
pub(crate) fn reads_stored(form: &[u8], number: u8, rounding: Rounding, allowance: u32) -> bool {
    reads_in(form, number, rounding, allowance, 120)
        && reads_in(form, number, rounding, allowance, 93)
        && reads_in(form, number, rounding, allowance, 0)
}

// Reads a request form, which needs no room.
fn reads_request(form: &[u8], number: u8) -> bool {
    request_read(form) == Some(owed(number, 0, 0))
}

// Groups 1 to 4, the kinds of damage: first to the stored form.
pub(crate) fn damaged_stored(kind: u64, number: usize) -> Seen {
    let mut input = [0u8; SPACE];
    let case = damaged(&mut input, 0, AFTER_BANK, kind, number);
    let end = case.end;
    let Some(owed) = case.number else {
        return Seen::NoCase;
    };
    judged(reads_stored(&input[0..end], owed, Rounding::Apart, 0))
}

// Then to the request form.
pub(crate) fn damaged_request(kind: u64, number: usize) -> Seen {
    let mut input = [0u8; SPACE];
    let case = damaged(&mut input, AFTER_BANK, END, kind, number);
    let end = case.end;
    let Some(owed) = case.number else {
        return Seen::NoCase;
    };
    judged(reads_request(&input[AFTER_BANK..end], owed))
}

// Group 5: lengths around the highest that a field may have, which is a whole stored form.
pub(crate) fn long(number: usize) -> Seen {
    let size = length_of(number);
    let end = MODELS + size;
    let mut input = [0u8; SPACE];
    let mut buffer = [MARK; SPACE];
    put_long(&mut input, size);
    let Some(told) = read_into(&input[0..end], Rounding::Apart, 0, &mut buffer, SPACE) else {
        return Seen::Differs;
    };
    judged(settled(
        told,
        length_answer(size, 0),
        &buffer,
        &input[MODELS..end],
        SPACE,
    ))
}
