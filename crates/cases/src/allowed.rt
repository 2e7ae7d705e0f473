// What can be wrong with the field that says a policy's allowance, in the example with one, alone or after tag 4: the policy rounds apart or
// once.
ghost use Rattle.std.specs.Prelude.{◌+◌, ◌≤◌, length};

use crate::answers::{CALLS, UNIT};
use crate::banks::{SPACE as LONG_SPACE, put_long, put_part};
use crate::example::{AFTER_BANK, BANK, END};
use crate::free::{ALL_FREE, ALLOWANCE, FIELD, field_place, put_allowance, put_free, rounding_of};
use crate::once::put_rounding;
use crate::owing::{Owed, READERS, STORED, answered, refused, seen, unasked};
use crate::refused::refuses;
use crate::tally::{Seen, judged};
use endian::u32_at;
use endian_writing::{put16, put32};
use rules::Rounding;

// Room for every input that is made here, but for the longest.
const SPACE: usize = 600;

// The bytes of the request's field.
const REQUEST: usize = 73;

// Where a reader's whole form ends.
fn whole_for(reader: usize, rounding: Rounding) -> usize
    ensures { (137 ≤ result) × (result ≤ 214) }
{
    let request = field_place(rounding) + FIELD;
    if reader == STORED {
        return request;
    }
    request + REQUEST
}

// Cut after the models, or after tag 4: a stored form is whole then, and its policy has no allowance. The programs want a request.
fn cut_before(reader: usize, end: usize) -> Owed
    requires { end ≤ 214 }
    ensures { result.end ≤ 600 }
{
    if reader != STORED {
        return refused(end, 21);
    }
    let rounding = if end == AFTER_BANK {
        Rounding::Apart
    } else {
        Rounding::Once
    };
    answered(end, rounding, 0)
}

// Where a field is due there is no byte: 21; anywhere else a header or a body is cut: 20.
fn cut_within(rounding: Rounding, end: usize) -> Owed
    requires { end ≤ 214 }
    ensures { result.end ≤ 600 }
{
    if end == 0 || end == BANK || end == field_place(rounding) + FIELD {
        return refused(end, 21);
    }
    refused(end, 20)
}

// Kind 1: cut before each byte, and whole.
fn cut(reader: usize, rounding: Rounding, end: usize) -> Owed
    requires { end ≤ 214 }
    ensures { result.end ≤ 600 }
{
    let whole = whole_for(reader, rounding);
    if whole < end {
        return unasked(end);
    }
    if end == whole {
        return answered(end, rounding, ALLOWANCE);
    }
    if end == AFTER_BANK || end == field_place(rounding) {
        return cut_before(reader, end);
    }
    cut_within(rounding, end)
}

// Another tag in its place: 4 has a wrong length, or is there already; 3 is the request's of the programs, with a wrong length; any other is one
// too many.
fn tag_answer(reader: usize, rounding: Rounding, value: u8) -> u8 {
    if value == 4 && rounding == Rounding::Apart {
        return 22;
    }
    if value == 3 && reader != STORED {
        return 22;
    }
    21
}

// Another allowance: 0 is 25. The unit's margin tells how far the latency may go, and so does the desk as long as some of it is charged; they are
// asked about the example's allowance alone.
fn body_answer(out: &[u8], reader: usize, rounding: Rounding) -> Owed
    requires { 600 ≤ length out.now }
    ensures { result.end ≤ 600 }
{
    let whole = whole_for(reader, rounding);
    let allowance = u32_at(out, field_place(rounding) + 3);
    if allowance == 0 {
        return refused(whole, 25);
    }
    if reader == usize::from(UNIT) || (reader != STORED && allowance < ALL_FREE) {
        return unasked(whole);
    }
    answered(whole, rounding, allowance)
}

// Kind 2: each byte of the field, at every value.
fn byte(out: &mut [u8], reader: usize, rounding: Rounding, number: usize) -> Owed
    requires { 600 ≤ length out.old }
    ensures { result.end ≤ 600 }
{
    let which = number / 256 % FIELD;
    let value = (number % 256) as u8;
    let whole = whole_for(reader, rounding);
    let at = field_place(rounding) + which;
    let right = out[at];
    out[at] = value;
    if value == right {
        return answered(whole, rounding, ALLOWANCE);
    }
    match which {
        0 => refused(whole, tag_answer(reader, rounding, value)),
        1..=2 => refused(whole, 22),
        _ => body_answer(out, reader, rounding),
    }
}

// Kind 3: one byte after the end, of every value; another byte 5 too is one too many.
fn tail(out: &mut [u8], reader: usize, rounding: Rounding, number: usize) -> Owed
    requires { 600 ≤ length out.old }
    ensures { result.end ≤ 600 }
{
    let whole = whole_for(reader, rounding);
    out[whole] = (number % 256) as u8;
    refused(whole + 1, 21)
}

const OTHERS: usize = 12;

// The place of the hard risk limit.
const HARD_RISK: usize = 19;

// What is changed beside the field's body: 2 and 3, its length; 5, that of the models; 6, that of the policy; 7 and 10, the policy's hard risk limit;
// 8 and 9, tag 4's body and its length, where there is one; 11, the request's risk. For the others the policy's epoch is set to itself.
fn spoil(out: &mut [u8], rounding: Rounding, which: usize)
    requires { 600 ≤ length out.old }
{
    let place = field_place(rounding);
    match which {
        2 => put16(out, place + 1, 3),
        3 => put16(out, place + 1, 5),
        5 => put16(out, BANK + 1, 95),
        6 => put16(out, 1, 35),
        7 | 10 => put16(out, HARD_RISK, 10_001),
        8 => put16(out, place - 2, 512),
        9 => put16(out, place - 3, 2),
        11 => put16(out, place + 46, 10_001),
        _ => put16(out, 3, 7),
    }
}

// The field's body: 0 up to 9.
fn put_body(out: &mut [u8], rounding: Rounding, which: usize)
    requires { 600 ≤ length out.old }
{
    let allowance = if which <= 9 { 0 } else { ALLOWANCE };
    put32(out, field_place(rounding) + 3, allowance);
}

// 8 and 9 where there is a tag 4 alone, 10 and 11 of the programs alone: the stored form isn't read so far.
fn late_answer(reader: usize, rounding: Rounding, which: usize) -> Owed
    ensures { result.end ≤ 600 }
{
    let whole = whole_for(reader, rounding);
    if which <= 9 {
        return match rounding {
            Rounding::Apart => unasked(whole),
            Rounding::Once if which == 8 => refused(whole, 23),
            Rounding::Once => refused(whole, 22),
        };
    }
    if reader == STORED {
        return unasked(whole);
    }
    refused(whole, if which == 10 { 10 } else { 3 })
}

// 0 and 1: nothing after the field, and a byte too many after the end. 3: no body there. 4: a body that is cut.
fn other_answer(reader: usize, rounding: Rounding, which: usize) -> Owed
    ensures { result.end ≤ 600 }
{
    let place = field_place(rounding);
    let whole = whole_for(reader, rounding);
    match which {
        0 => refused(place + FIELD, 25),
        1 => refused(whole + 1, 25),
        3 => refused(place + 3, 22),
        4 => refused(place + 6, 20),
        2 | 5 | 6 => refused(whole, 22),
        7 => refused(whole, 25),
        _ => late_answer(reader, rounding, which),
    }
}

// Kind 4: two faults, of which the first one counts; and an allowance with a limit passed.
fn other(out: &mut [u8], reader: usize, rounding: Rounding, which: usize) -> Owed
    requires { 600 ≤ length out.old }
    ensures { result.end ≤ 600 }
{
    spoil(out, rounding, which);
    put_body(out, rounding, which);
    other_answer(reader, rounding, which)
}

// How many inputs each kind has.
fn inputs_of(kind: u64) -> usize
    ensures { result ≤ 1792 }
{
    match kind {
        1 => 215,
        2 => FIELD * 256,
        3 => 256,
        _ => OTHERS,
    }
}

// How many numbers: one for each reader and each rounding.
pub(crate) fn allowed_numbers(kind: u64) -> usize {
    inputs_of(kind) * READERS * 2
}

// Puts the input of a number of a kind, and says what a reader owes.
fn put_damaged(out: &mut [u8], reader: usize, rounding: Rounding, kind: u64, number: usize) -> Owed
    requires { 600 ≤ length out.old }
    ensures { result.end ≤ 600 }
{
    put_free(out, rounding);
    match kind {
        1 => cut(reader, rounding, number % 215),
        2 => byte(out, reader, rounding, number),
        3 => tail(out, reader, rounding, number),
        _ => other(out, reader, rounding, number),
    }
}

// A number of a kind, through one reader.
pub(crate) fn allowed(kind: u64, number: usize) -> Seen {
    let reader = number % READERS;
    let which = number / READERS;
    let rounding = rounding_of(which);
    let mut input = [0u8; SPACE];
    let owed = put_damaged(&mut input, reader, rounding, kind, which / 2);
    seen(reader, &input, owed)
}

// The longest input whose form passes, and the same with a byte more, through each call.
pub(crate) const LONGEST: usize = 6;

// 1,394 models, tags 4 and 5, and the request: 65,638 bytes, one less than a program reads. They are too many models, told last.
pub(crate) fn longest(number: usize) -> Seen {
    let call = (number % CALLS) as u8;
    let more = number / CALLS % 2;
    let mut input = [0u8; LONG_SPACE];
    put_long(&mut input, 65_518);
    put_rounding(&mut input, 65_554);
    put_allowance(&mut input, 65_558);
    put_part(&mut input, 65_565, AFTER_BANK, END);
    let end = 65_638 + more;
    let owed = if more == 0 { 19 } else { 21 };
    judged(refuses(call, &input[0..end], 1, owed, 0))
}
