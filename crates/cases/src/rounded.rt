// What can be wrong with the field that says how a policy rounds, in the example that rounds once; and every order of fields.
ghost use Rattle.std.specs.Prelude.{◌+◌, ◌≤◌, length};

use crate::example::{AFTER_BANK, BANK};
use crate::once::{AFTER_ROUNDING, ONCE_END, put_once};
use crate::orders::{ORDERS, order};
use crate::owing::{Owed, READERS, STORED, answered, refused, seen, unasked};
use crate::tally::Seen;
use endian_writing::put16;
use rules::Rounding;

// Room for every input that is made here.
const SPACE: usize = 600;

// Where a reader's whole form ends.
fn whole_for(reader: usize) -> usize
    ensures { (134 ≤ result) × (result ≤ 207) }
{
    if reader == STORED {
        return AFTER_ROUNDING;
    }
    ONCE_END
}

// A stored form that is cut after its models is whole, and its policy rounds apart. The programs want a request then.
fn cut_after_models(reader: usize) -> Owed
    ensures { result.end ≤ 600 }
{
    if reader == STORED {
        return answered(AFTER_BANK, Rounding::Apart, 0);
    }
    refused(AFTER_BANK, 21)
}

// Kind 1: cut before each byte, and whole. Where a field is due there is no byte: 21; anywhere else a header or a body is cut: 20.
fn cut(reader: usize, end: usize) -> Owed
    requires { end ≤ 207 }
    ensures { result.end ≤ 600 }
{
    let whole = whole_for(reader);
    if whole < end {
        return unasked(end);
    }
    if end == whole {
        return answered(end, Rounding::Once, 0);
    }
    match end {
        130 => cut_after_models(reader),
        0 | 33 | 134 => refused(end, 21),
        _ => refused(end, 20),
    }
}

// Another tag in its place: 5 has a wrong length, and of the programs 3 too, which is the request's; any other is one too many.
fn tag_answer(reader: usize, value: u8) -> u8 {
    if value == 5 || (reader != STORED && value == 3) {
        return 22;
    }
    21
}

// The field's tag, the two bytes of its length, its body.
fn byte_answer(reader: usize, which: usize, value: u8) -> u8 {
    match which {
        0 => tag_answer(reader, value),
        3 => 23,
        _ => 22,
    }
}

// Kind 2: each byte of the field, at every value.
fn byte(out: &mut [u8], reader: usize, number: usize) -> Owed
    requires { 600 ≤ length out.old }
    ensures { result.end ≤ 600 }
{
    let which = number / 256 % 4;
    let value = (number % 256) as u8;
    let whole = whole_for(reader);
    let right = out[AFTER_BANK + which];
    out[AFTER_BANK + which] = value;
    if value == right {
        return answered(whole, Rounding::Once, 0);
    }
    refused(whole, byte_answer(reader, which, value))
}

// After a stored form a byte 5 begins a field, which is cut; any other byte is one too many, another 4 too.
fn tail_answer(reader: usize, value: u8) -> u8 {
    if reader == STORED && value == 5 {
        return 20;
    }
    21
}

// Kind 3: one byte after the end, of every value.
fn tail(out: &mut [u8], reader: usize, number: usize) -> Owed
    requires { 600 ≤ length out.old }
    ensures { result.end ≤ 600 }
{
    let whole = whole_for(reader);
    let value = (number % 256) as u8;
    out[whole] = value;
    refused(whole + 1, tail_answer(reader, value))
}

const OTHERS: usize = 9;

// The place of the hard risk limit, and of the request's risk behind tag 4.
const HARD_RISK: usize = 19;

const RISK: usize = 173;

// Where a reader's form ends with so many bytes more.
fn longer(reader: usize, more: usize) -> usize
    requires { more ≤ 300 }
    ensures { result ≤ 507 }
{
    whole_for(reader) + more
}

// A number that the programs alone tell: the stored form isn't read so far.
fn program_only(reader: usize, number: u8) -> Owed
    ensures { result.end ≤ 600 }
{
    if reader == STORED {
        return unasked(AFTER_ROUNDING);
    }
    refused(ONCE_END, number)
}

// What is changed beside the field's body: 2 and 3, its length; 4, that of the models; 5, that of the policy; 6 and 7, the policy's hard risk
// limit; 8, the request's risk. For 0 and 1 the policy's epoch is set to itself.
fn spoil(out: &mut [u8], which: usize)
    requires { 600 ≤ length out.old }
{
    match which {
        2 => put16(out, AFTER_BANK + 1, 2),
        3 => put16(out, AFTER_BANK + 1, 0),
        4 => put16(out, BANK + 1, 95),
        5 => put16(out, 1, 31),
        6 | 7 => put16(out, HARD_RISK, 10_001),
        8 => put16(out, RISK, 10_001),
        _ => put16(out, 3, 7),
    }
}

// The field's body: another than 1 up to 6.
fn put_body(out: &mut [u8], which: usize)
    requires { 600 ≤ length out.old }
{
    out[AFTER_BANK + 3] = if which <= 6 { 0 } else { 1 };
}

// 0 and 1: nothing after the field, and a byte too many after the end. 3: no body there.
fn other_answer(reader: usize, which: usize) -> Owed
    ensures { result.end ≤ 600 }
{
    match which {
        0 => refused(AFTER_ROUNDING, 23),
        1 => refused(longer(reader, 1), 23),
        3 => refused(AFTER_BANK + 3, 22),
        2 | 4 | 5 => refused(whole_for(reader), 22),
        6 => refused(whole_for(reader), 23),
        7 => program_only(reader, 10),
        _ => program_only(reader, 3),
    }
}

// Kind 5: two faults, of which the first one counts; and rounding once with a limit passed.
fn other(out: &mut [u8], reader: usize, which: usize) -> Owed
    requires { 600 ≤ length out.old }
    ensures { result.end ≤ 600 }
{
    spoil(out, which);
    put_body(out, which);
    other_answer(reader, which)
}

// How many inputs each kind has.
fn inputs_of(kind: u64) -> usize
    ensures { result ≤ 7776 }
{
    match kind {
        1 => ONCE_END + 1,
        2 => 4 * 256,
        3 => 256,
        4 => ORDERS,
        _ => OTHERS,
    }
}

// How many numbers: one for each reader.
pub(crate) fn rounded_numbers(kind: u64) -> usize {
    inputs_of(kind) * READERS
}

// Puts the input of a number of a kind, and says what a reader owes.
fn put_damaged(out: &mut [u8], reader: usize, kind: u64, number: usize) -> Owed
    requires { 600 ≤ length out.old }
    ensures { result.end ≤ 600 }
{
    put_once(out);
    match kind {
        1 => cut(reader, number % 208),
        2 => byte(out, reader, number),
        3 => tail(out, reader, number),
        4 => order(out, reader, number),
        _ => other(out, reader, number),
    }
}

// A number of a kind, through one reader.
pub(crate) fn rounded(kind: u64, number: usize) -> Seen {
    let reader = number % READERS;
    let mut input = [0u8; SPACE];
    let owed = put_damaged(&mut input, reader, kind, number / READERS);
    seen(reader, &input, owed)
}
