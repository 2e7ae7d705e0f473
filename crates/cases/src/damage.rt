// The example's fields damaged: cut, a byte of a header changed, bytes after the end, fields in another order. A reader takes a part of the
// example: the first two fields, the third, or all, from `start` to `whole`.
ghost use Rattle.std.specs.Prelude.{◌+◌, ◌<◌, ◌≤◌, length};

use crate::banks::put_part;
use crate::example::{AFTER_BANK, BANK, END};

// Where a reader's bytes end, and the number that it owes: 0 for the example's own answer, none where there is nothing to ask.
// By number: as in the documents' tables.
#[derive(Clone, Copy)]
pub(crate) struct Case {
    pub end: usize,
    pub number: Option<u8>,
}

// A form that ends where a field is due has no byte there: 21. Anywhere else a header or a body is cut: 20.
fn cut_answer(end: usize, whole: usize) -> u8 {
    if end == whole {
        return 0;
    }
    match end {
        0 | 33 | 130 => 21,
        _ => 20,
    }
}

// The example cut before each of its bytes, and whole.
fn cut(start: usize, whole: usize, end: usize) -> Case
    requires { (start ≤ whole) × (whole ≤ 203) }
    ensures { (start ≤ result.end) × (result.end ≤ 66000) }
{
    if start <= end && end <= whole {
        return Case {
            end,
            number: Some(cut_answer(end, whole)),
        };
    }
    Case {
        end: start,
        number: None,
    }
}

// The place of each byte of the three headers.
fn header_place(which: usize) -> usize
    ensures { result < 203 }
{
    match which {
        0..=2 => which,
        3..=5 => BANK + (which - 3),
        6..=8 => AFTER_BANK + (which - 6),
        _ => 0,
    }
}

// The lower byte of the bank's length, whose upper one is 0. A multiple of 47 that is too low ends where another byte than the next tag
// stands, and one that is too high is cut; 141 ends inside the request, which the stored form doesn't have.
fn low_answer(whole: usize, value: u8) -> u8 {
    match value {
        0 | 47 => 21,
        141 => {
            if whole == AFTER_BANK {
                return 20;
            }
            21
        }
        188 | 235 => 20,
        _ => 22,
    }
}

// The upper byte, with 94 below it: 256 times it must be a multiple of 47. None of these is above 65,518, and all are cut.
fn high_answer(value: u8) -> u8 {
    match value {
        47 | 94 | 141 | 188 | 235 => 20,
        _ => 22,
    }
}

// In place of the request's tag: after the models a tag 4 or 5 may stand, and this one has a wrong length.
fn request_tag_answer(start: usize, value: u8) -> u8 {
    if start == 0 && (value == 4 || value == 5) {
        return 22;
    }
    21
}

// A wrong tag is 21, a wrong length 22.
fn header_answer(start: usize, whole: usize, which: usize, value: u8) -> u8 {
    match which {
        0 | 3 => 21,
        6 => request_tag_answer(start, value),
        4 => low_answer(whole, value),
        5 => high_answer(value),
        _ => 22,
    }
}

// Each byte of each header, at every value.
fn header(out: &mut [u8], start: usize, whole: usize, number: usize) -> Case
    requires { (203 ≤ length out.old) × (start ≤ whole) × (whole ≤ 203) }
    ensures { (start ≤ result.end) × (result.end ≤ 66000) }
{
    let which = number / 256;
    let value = (number % 256) as u8;
    let at = header_place(which);
    if at < start || whole <= at {
        return Case {
            end: start,
            number: None,
        };
    }
    let right = out[at];
    out[at] = value;
    if value == right {
        return Case {
            end: whole,
            number: Some(0),
        };
    }
    Case {
        end: whole,
        number: Some(header_answer(start, whole, which, value)),
    }
}

// How many bytes come after the whole input: few, whole fields, a second input, and up to beyond what is read.
fn tail_size(which: usize) -> usize
    ensures { result ≤ 65797 }
{
    match which {
        0 => 2,
        1 => 3,
        2 => 47,
        3 => 73,
        4 => 203,
        5 => 1_000,
        6 => 10_000,
        7 => 65_436,
        _ => 65_797,
    }
}

// In a stored form a byte 4 or 5 after the models begins a field, which is cut; any other byte is one too many.
fn tail_answer(whole: usize, value: u8) -> u8 {
    if whole == AFTER_BANK && (value == 4 || value == 5) {
        return 20;
    }
    21
}

// One byte after the end, of every value; then many, and with 65,436 the programs' input has 65,639.
fn tail(out: &mut [u8], whole: usize, number: usize) -> Case
    requires { (66000 ≤ length out.old) × (whole ≤ 203) }
    ensures { (whole ≤ result.end) × (result.end ≤ 66000) }
{
    if number < 256 {
        let value = (number % 256) as u8;
        out[whole] = value;
        return Case {
            end: whole + 1,
            number: Some(tail_answer(whole, value)),
        };
    }
    Case {
        end: whole + tail_size(number - 256),
        number: Some(21),
    }
}

// A whole field by its tag; nothing for 0.
fn put_field(out: &mut [u8], at: usize, tag: usize) -> usize
    requires { at + 97 ≤ length out.old }
    ensures { (at ≤ result) × (result ≤ at + 97) }
{
    match tag {
        0 => at,
        1 => put_part(out, at, 0, BANK),
        2 => put_part(out, at, BANK, AFTER_BANK),
        _ => put_part(out, at, AFTER_BANK, END),
    }
}

// Four fields at most, the first in the upper two bits of a code.
fn put_fields(out: &mut [u8], at: usize, code: usize) -> usize
    requires { at + 388 ≤ length out.old }
    ensures { (at ≤ result) × (result ≤ at + 388) }
{
    let second = put_field(out, at, code / 64 % 4);
    let third = put_field(out, second, code / 16 % 4);
    let fourth = put_field(out, third, code / 4 % 4);
    put_field(out, fourth, code % 4)
}

// A code with a field after an absent one says what another code says.
fn is_code(code: usize) -> bool {
    if code / 64 % 4 == 0 && code % 64 != 0 {
        return false;
    }
    if code / 16 % 4 == 0 && code % 16 != 0 {
        return false;
    }
    code / 4 % 4 != 0 || code % 4 == 0
}

// The order that a reader takes: tags 3 (192); 1, 2 (96); 1, 2, 3 (108).
fn right_code(start: usize, whole: usize) -> usize {
    if start == AFTER_BANK {
        return 192;
    }
    if whole == AFTER_BANK {
        return 96;
    }
    108
}

// Up to four whole fields in any order. One that is out of place, repeated or missing is 21.
fn order(out: &mut [u8], start: usize, whole: usize, code: usize) -> Case
    requires { (66000 ≤ length out.old) × (start ≤ 203) }
    ensures { (start ≤ result.end) × (result.end ≤ 66000) }
{
    let end = put_fields(out, start, code);
    if !is_code(code) {
        return Case { end, number: None };
    }
    if code == right_code(start, whole) {
        return Case {
            end,
            number: Some(0),
        };
    }
    Case {
        end,
        number: Some(21),
    }
}

// The kinds of damage are 1 to 4. How many numbers each has.
pub(crate) fn numbers_of(kind: u64) -> usize
    ensures { result ≤ 2304 }
{
    match kind {
        1 => END + 1,
        2 => 9 * 256,
        3 => 256 + 9,
        _ => 256,
    }
}

// Puts an input with one of them into a buffer: cut, a header, a tail, an order.
pub(crate) fn damaged(out: &mut [u8], start: usize, whole: usize, kind: u64, number: usize) -> Case
    requires { (66000 ≤ length out.old) × (start ≤ whole) × (whole ≤ 203) }
    ensures { (start ≤ result.end) × (result.end ≤ 66000) }
{
    put_part(out, 0, 0, END);
    match kind {
        1 => cut(start, whole, number),
        2 => header(out, start, whole, number),
        3 => tail(out, whole, number),
        _ => order(out, start, whole, number),
    }
}
