// The worked example with a policy that has an allowance of 200 ms: the field of tag 5, which stands after the models, or after tag 4 where the policy
// also rounds once; and what is printed.
ghost use Rattle.std.specs.Prelude.{◌≡◌, ◌+◌, ◌≤◌, length};

use crate::answers::EACH_ROOM;
use crate::banks::put_part;
use crate::example::{AFTER_BANK, END};
use crate::once::{AFTER_ROUNDING, put_rounding};
use crate::texts::told;
use rules::Rounding;
use splice::put_bytes;

// The allowance, and the bytes of its field.
pub(crate) const ALLOWANCE: u32 = 200;

pub(crate) const FIELD: usize = 7;

// From so many milliseconds on both models' latencies are free, so that the answers about model 1 are the same.
pub(crate) const ALL_FREE: u32 = 100;

// Puts a field of tag 5 at a place, and answers the place after it.
pub(crate) fn put_allowance(out: &mut [u8], at: usize) -> usize
    requires { at + 7 ≤ length out.old }
    ensures { result ≡ at + 7 }
{
    put_bytes(out, at, b"\x05\x04\0\xc8\0\0\0");
    at + FIELD
}

// How a policy rounds, by whether a number is even.
pub(crate) fn rounding_of(number: usize) -> Rounding {
    if number % 2 == 0 {
        Rounding::Apart
    } else {
        Rounding::Once
    }
}

// Where the field begins: after tag 4 for a policy that rounds once, else after the models.
pub(crate) fn field_place(rounding: Rounding) -> usize
    ensures { (130 ≤ result) × (result ≤ 134) }
{
    match rounding {
        Rounding::Apart => AFTER_BANK,
        Rounding::Once => AFTER_ROUNDING,
    }
}

// Puts the example's input with a policy that rounds so and has an allowance. Tag 4 is put first, and written over where there is none.
pub(crate) fn put_free(out: &mut [u8], rounding: Rounding)
    requires { 214 ≤ length out.old }
{
    put_part(out, 0, 0, AFTER_BANK);
    put_rounding(out, AFTER_BANK);
    let request = put_allowance(out, field_place(rounding));
    put_part(out, request, AFTER_BANK, END);
}

// Rounding apart: nothing is charged, so that model 1 wins up to a cost of 1,299, and model 2 is chosen up to one of 800, or 50 ms above the allowance.
fn is_free_apart(call: u8, input: &[u8]) -> bool {
    told(
        call,
        input,
        1,
        b"decision 42 2 2 2 1 300 6700 1 6200 2 2 7 3\n\
            rejected 0 0 0 0 0 0 0 0 0\n\
            lever 1 8000 7500 -\n\
            lever 2 50 250 -\n\
            lever 3 1000000 2665000 800\n\
            lever 4 8000 1000 -\n",
        b"decision 42 2 2 2 1 300 6700 1 6200 2 2 7 3\n\
            lever 1 9000 9501 -\n\
            lever 3 1000000 721333 1299\n\
            passes 36\n",
        b"Chosen: model 2, at a cost of 300 microunits, with a utility of 6700 microunits.\n\
            Model 1 is outranked by model 2: its utility of 6200 microunits is below 6700.\n\
            Price alone: it must fall by 27.9 percent or more; exactly, by 27.8667 percent, to 72.1333 percent of today's, where the request costs 1299 microunits.\n\
            Quality alone: 9000 basis points today; it must rise to at least 9501.\n",
        EACH_ROOM,
    )
}

// Rounding once: the same costs, at higher prices.
fn is_free_once(call: u8, input: &[u8]) -> bool {
    told(
        call,
        input,
        1,
        b"decision 42 2 2 2 1 300 6700 1 6200 2 2 7 3\n\
            rejected 0 0 0 0 0 0 0 0 0\n\
            lever 1 8000 7500 -\n\
            lever 2 50 250 -\n\
            lever 3 1000000 2666666 800\n\
            lever 4 8000 1000 -\n",
        b"decision 42 2 2 2 1 300 6700 1 6200 2 2 7 3\n\
            lever 1 9000 9501 -\n\
            lever 3 1000000 721666 1299\n\
            passes 36\n",
        b"Chosen: model 2, at a cost of 300 microunits, with a utility of 6700 microunits.\n\
            Model 1 is outranked by model 2: its utility of 6200 microunits is below 6700.\n\
            Price alone: it must fall by 27.9 percent or more; exactly, by 27.8334 percent, to 72.1666 percent of today's, where the request costs 1299 microunits.\n\
            Quality alone: 9000 basis points today; it must rise to at least 9501.\n",
        EACH_ROOM,
    )
}

// The texts of the example with such an allowance, rounding so.
pub(crate) fn is_free(call: u8, input: &[u8], rounding: Rounding) -> bool {
    match rounding {
        Rounding::Apart => is_free_apart(call, input),
        Rounding::Once => is_free_once(call, input),
    }
}
