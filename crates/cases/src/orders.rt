// Up to five whole fields in any order, tag 4 or tag 5 among them, by a code of five digits below 6: the first by the highest digit, and 0 for none.
ghost use Rattle.std.specs.Prelude.{◌+◌, ◌≤◌, length};

use crate::banks::put_part;
use crate::example::{AFTER_BANK, BANK, END};
use crate::free::{ALLOWANCE, put_allowance};
use crate::once::put_rounding;
use crate::owing::{Owed, STORED, answered, refused, unasked};
use rules::Rounding;

pub(crate) const ORDERS: usize = 7_776;

// A whole field by its tag; nothing for 0.
fn put_field(out: &mut [u8], at: usize, tag: usize) -> usize
    requires { at + 97 ≤ length out.old }
    ensures { (at ≤ result) × (result ≤ at + 97) }
{
    match tag {
        0 => at,
        1 => put_part(out, at, 0, BANK),
        2 => put_part(out, at, BANK, AFTER_BANK),
        3 => put_part(out, at, AFTER_BANK, END),
        4 => put_rounding(out, at),
        _ => put_allowance(out, at),
    }
}

// Puts the fields of a code, and answers where they end.
fn put_fields(out: &mut [u8], code: usize) -> usize
    requires { 600 ≤ length out.old }
    ensures { result ≤ 485 }
{
    let second = put_field(out, 0, code / 1_296 % 6);
    let third = put_field(out, second, code / 216 % 6);
    let fourth = put_field(out, third, code / 36 % 6);
    let fifth = put_field(out, fourth, code / 6 % 6);
    put_field(out, fifth, code % 6)
}

// Whether some digit is 4 or 5: the others are orders of the example's own fields.
fn has_more(code: usize) -> bool {
    if 4 <= code / 1_296 % 6 || 4 <= code / 216 % 6 {
        return true;
    }
    4 <= code / 36 % 6 || 4 <= code / 6 % 6 || 4 <= code % 6
}

// A code with a field after an absent one says what another code says.
fn is_plain(code: usize) -> bool {
    if code / 1_296 % 6 == 0 && code % 1_296 != 0 {
        return false;
    }
    if code / 216 % 6 == 0 && code % 216 != 0 {
        return false;
    }
    if code / 36 % 6 == 0 && code % 36 != 0 {
        return false;
    }
    code / 6 % 6 != 0 || code % 6 == 0
}

// The orders that the programs take: tags 1, 2, 4, 3 (1,890), or 1, 2, 5, 3 (1,926), or 1, 2, 4, 5, 3 (1,905).
fn program_order(end: usize, code: usize) -> Owed
    requires { end ≤ 485 }
    ensures { result.end ≤ 600 }
{
    match code {
        1_890 => answered(end, Rounding::Once, 0),
        1_926 => answered(end, Rounding::Apart, ALLOWANCE),
        1_905 => answered(end, Rounding::Once, ALLOWANCE),
        _ => refused(end, 21),
    }
}

// Those of a stored form: 1, 2, 4 (1,872), or 1, 2, 5 (1,908), or 1, 2, 4, 5 (1,902).
fn stored_order(end: usize, code: usize) -> Owed
    requires { end ≤ 485 }
    ensures { result.end ≤ 600 }
{
    match code {
        1_872 => answered(end, Rounding::Once, 0),
        1_908 => answered(end, Rounding::Apart, ALLOWANCE),
        1_902 => answered(end, Rounding::Once, ALLOWANCE),
        _ => refused(end, 21),
    }
}

// Puts the fields of a code. One that is out of place, repeated or missing is 21.
pub(crate) fn order(out: &mut [u8], reader: usize, code: usize) -> Owed
    requires { 600 ≤ length out.old }
    ensures { result.end ≤ 600 }
{
    let end = put_fields(out, code);
    if !is_plain(code) || !has_more(code) {
        return unasked(end);
    }
    if reader == STORED {
        return stored_order(end, code);
    }
    program_order(end, code)
}
