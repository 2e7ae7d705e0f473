// Group 5: each fault alone and each two together. What is tested first is what is told.
ghost use Rattle.std.specs.Prelude.{◌+◌, ◌≤◌, length};

use crate::answers::CALLS;
use crate::banks::{Models, put_input};
use crate::example::MODELS;
use crate::faults::{
    ALL_OFF, BANK_CUT, EMPTY, FAULTS, TOO_MANY, UNLISTED, changed_at, changed_to, end_for,
    number_for, variant_of,
};
use crate::tally::{Seen, judged};
use crate::texts::prints;
use endian_writing::put16;

// 901 models, the request, and one byte more.
const SPACE: usize = 42_457;

// No bank is both empty and too long, and the body of an empty one can't be cut.
fn is_pair(a: usize, b: usize) -> bool {
    if b < a {
        return false;
    }
    if b == EMPTY {
        return a != TOO_MANY && a != BANK_CUT;
    }
    true
}

// How many models an input with two faults has.
fn count_for(a: usize, b: usize) -> usize
    ensures { result ≤ 901 }
{
    if a == TOO_MANY || b == TOO_MANY {
        return 901;
    }
    if a == EMPTY || b == EMPTY {
        return 0;
    }
    2
}

// Which models those are.
fn models_for(a: usize, b: usize) -> Models {
    if a == ALL_OFF || b == ALL_OFF {
        Models::Off
    } else {
        Models::First
    }
}

// Changes what a fault changes in an input whose request's field begins at a place; nothing of a model where there is none.
fn spoil(out: &mut [u8], fault: usize, request: usize)
    requires { (36 ≤ request) × (request ≤ 42383) × (request + 73 ≤ length out.old) }
{
    let size = (request - MODELS) as u16;
    if request == MODELS && 21 <= fault && fault <= 27 {
        return;
    }
    put16(out, changed_at(fault, request), changed_to(fault, size));
}

// Where an input with two faults ends: the earlier cut is the shorter one, and takes a byte too many away.
fn end_of_pair(a: usize, b: usize, request: usize) -> usize
    requires { (36 ≤ request) × (request ≤ 42383) }
    ensures { result ≤ 42457 }
{
    let whole = request + 73;
    let first = end_for(a, request);
    let second = end_for(b, request);
    if first < whole {
        return first;
    }
    if second == whole {
        return first;
    }
    second
}

// Puts an input with two faults into a buffer, and answers where it ends.
fn put_pair(out: &mut [u8], a: usize, b: usize) -> usize
    requires { 42457 ≤ length out.old }
    ensures { result ≤ 42457 }
{
    let request = put_input(out, models_for(a, b), count_for(a, b));
    spoil(out, a, request);
    spoil(out, b, request);
    end_of_pair(a, b, request)
}

// Two faults through one call; two of the same are one alone.
pub(crate) fn pair(number: usize) -> Seen {
    let call = (number % CALLS) as u8;
    let rest = number / CALLS;
    let a = rest / FAULTS;
    let b = rest % FAULTS;
    if !is_pair(a, b) {
        return Seen::NoCase;
    }
    let id = if b == UNLISTED { 77_777 } else { 1 };
    let mut input = [0u8; SPACE];
    let end = put_pair(&mut input, a, b);
    let owed = number_for(call, a);
    judged(prints(call, &input, end, id, owed, variant_of(a)))
}
