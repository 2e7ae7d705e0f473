// What is written: the stored form and the request form, into any room.
ghost use Rattle.std.specs.Prelude.{◌+◌, ◌≤◌, length};

use crate::banks::{Models, SPACE, put_input};
use crate::calls::{write_into, write_request_into};
use crate::example::{AFTER_BANK, END, MODELS, example};
use crate::free::{ALLOWANCE, FIELD, field_place, put_free, rounding_of};
use crate::marks::{MARK, settled};
use crate::once::{AFTER_ROUNDING, ONCE_END, put_once};
use crate::tally::{Seen, judged};
use rules::Rounding;

// Rooms up to two bytes more than each form has, also that of a policy that rounds once, and that of one with an allowance, by either rounding.
pub(crate) const STORED_ROOMS: usize = 133;

pub(crate) const REQUEST_ROOMS: usize = 76;

pub(crate) const ONCE_ROOMS: usize = 137;

pub(crate) const FREE_ROOMS: usize = 144;

// Writes a bank that stands in a form, as it does in every input, into the first bytes of a buffer that is all marks.
fn writes(form: &[u8], size: usize, out: &mut [u8], room: usize) -> bool
    requires { (36 + size ≤ length form.now) × (size ≤ 65612) × (room ≤ length out.old) }
{
    let end = MODELS + size;
    let told = write_into(Rounding::Apart, 0, &form[MODELS..end], out, room);
    settled(told, size_answer(size), out, &form[0..end], room)
}

// Group 6: the example's policy and bank, into each room.
pub(crate) fn stored_room(number: usize) -> Seen {
    let room = number % STORED_ROOMS;
    let input = example();
    let mut out = [MARK; STORED_ROOMS];
    judged(writes(&input, 94, &mut out, room))
}

// Group 7: the example's request, into each room.
pub(crate) fn request_room(number: usize) -> Seen {
    let room = number % REQUEST_ROOMS;
    let input = example();
    let mut out = [MARK; REQUEST_ROOMS];
    let told = write_request_into(&mut out, room);
    judged(settled(told, 0, &out, &input[AFTER_BANK..END], room))
}

// Group 10: the example's bank with a policy that rounds once, whose form has four bytes more, into each room.
pub(crate) fn once_room(number: usize) -> Seen {
    let room = number % ONCE_ROOMS;
    let mut input = [0u8; ONCE_END];
    put_once(&mut input);
    let mut out = [MARK; ONCE_ROOMS];
    let told = write_into(
        Rounding::Once,
        0,
        &input[MODELS..AFTER_BANK],
        &mut out,
        room,
    );
    judged(settled(told, 0, &out, &input[0..AFTER_ROUNDING], room))
}

// Group 11: the same with an allowance, whose form has seven bytes more, by either rounding.
pub(crate) fn free_room(number: usize) -> Seen {
    let room = number / 2 % FREE_ROOMS;
    let rounding = rounding_of(number);
    let end = field_place(rounding) + FIELD;
    let mut input = [0u8; FREE_END];
    put_free(&mut input, rounding);
    let mut out = [MARK; FREE_ROOMS];
    let told = write_into(
        rounding,
        ALLOWANCE,
        &input[MODELS..AFTER_BANK],
        &mut out,
        room,
    );
    judged(settled(told, 0, &out, &input[0..end], room))
}

// Where the example ends with an allowance, after tag 4.
const FREE_END: usize = 214;

// Each length of a bank that group 8 tries, with four rooms.
pub(crate) const SIZES: usize = 14;

pub(crate) const SIZE_ROOMS: usize = 4;

// That length in bytes: around none, one and two models, 900, and the most that a field may have.
fn size_of(which: usize) -> usize
    ensures { result ≤ 65612 }
{
    match which {
        0 => 0,
        1 => 1,
        2 => 46,
        3 => 47,
        4 => 48,
        5 => 93,
        6 => 95,
        7 => 42_300,
        8 => 65_471,
        9 => 65_518,
        10 => 65_519,
        11 => 65_565,
        12 => 65_566,
        _ => 65_612,
    }
}

// Just enough room, a byte less, none, and more.
fn room_of(which: usize, size: usize) -> usize
    requires { size ≤ 65612 }
    ensures { result ≤ 66000 }
{
    match which {
        0 => MODELS + size,
        1 => MODELS + size - 1,
        2 => 0,
        _ => SPACE,
    }
}

// 1 for a part of a record, then 2 for more than 65,535 records, then 18 for more than 1,394; 0 where the room decides.
fn size_answer(size: usize) -> u8 {
    if size % 47 != 0 {
        return 1;
    }
    if 65_535 < size / 47 {
        return 2;
    }
    if 1_394 < size / 47 {
        return 18;
    }
    0
}

// Group 8: banks of other lengths. The bytes are those of an input with as many models.
pub(crate) fn size(number: usize) -> Seen {
    let size = size_of(number / SIZE_ROOMS);
    let room = room_of(number % SIZE_ROOMS, size);
    let mut input = [0u8; SPACE];
    let mut out = [MARK; SPACE];
    put_input(&mut input, Models::Alike, size / 47);
    judged(writes(&input, size, &mut out, room))
}

// Each length of a bank that group 9 tries, in the rooms none and more than a form has.
pub(crate) const VAST: usize = 5;

pub(crate) const VAST_ROOMS: usize = 2;

// 65,537 records.
const VAST_SPACE: usize = 3_080_239;

// The last length that is 18, 65,536 records with a byte less, whole and with a byte more, and a record more.
fn vast_size(which: usize) -> usize
    ensures { result ≤ 3080239 }
{
    match which {
        0 => 3_080_145,
        1 => 3_080_191,
        2 => 3_080_192,
        3 => 3_080_193,
        _ => VAST_SPACE,
    }
}

// Nothing is read of such a bank, so its bytes are 0. It comes from a call, since the prover writes out an array that it sees made.
fn vast_bank() -> [u8; VAST_SPACE] {
    [0u8; VAST_SPACE]
}

// Group 9: banks around the most records that a bank may have.
pub(crate) fn vast(number: usize) -> Seen {
    let size = vast_size(number / VAST_ROOMS);
    let room = SPACE * (number % VAST_ROOMS);
    let bank = vast_bank();
    let mut out = [MARK; SPACE];
    let told = write_into(Rounding::Apart, 0, &bank[0..size], &mut out, room);
    judged(settled(told, size_answer(size), &out, b"", room))
}
