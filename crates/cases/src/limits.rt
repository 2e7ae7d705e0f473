// Group 6: numbers just within their limits, or just beyond one that doesn't refuse: the place of each in the example, its new value, and
// the text that it makes.
ghost use Rattle.std.specs.Prelude.{◌≤◌};

use crate::answers::{CALLS, EACH_ROOM};
use crate::example::example;
use crate::tally::{Seen, judged};
use crate::texts::{is_example, told};
use endian_writing::put16;

pub(crate) const LIMITS: usize = 10;

// 0 to 5 change nothing that is printed: the policy's hard risk and confidence; both providers; the first model's ceiling, and its switch,
// which is 255 with its latency's byte after it. 6 to 8: the risk. 9: the multiplier.
fn place_of(which: usize) -> usize
    ensures { result ≤ 200 }
{
    match which {
        0 => 19,
        1 => 21,
        2 => 40,
        3 => 87,
        4 => 44,
        5 => 46,
        6..=8 => 169,
        _ => 23,
    }
}

// The new value.
fn value_of(which: usize) -> u16 {
    match which {
        2..=3 => 63,
        5 => 25_855,
        7 => 9_000,
        8 => 8_999,
        9 => 50_000,
        _ => 10_000,
    }
}

// Row (D): nothing is evaluated. The sentences name the risk.
fn risky(call: u8, input: &[u8], words: &[u8]) -> bool {
    told(
        call,
        input,
        1,
        b"decision 42 3 100 0 65535 0 0 0 0 0 0 7 3\n\
            rejected 0 0 0 0 0 0 0 0 0\n",
        b"decision 42 3 100 0 65535 0 0 0 0 0 0 7 3\n\
            passes 1\n",
        words,
        EACH_ROOM,
    )
}

// Above the hard limit, and at it.
fn is_stopped(which: usize, call: u8, input: &[u8]) -> bool {
    if which == 6 {
        return risky(
            call,
            input,
            b"Nothing is chosen: the request is stopped, since its risk of 10000 basis points is not below the policy's hard limit of 9000.\n\
                No change to a model would help.\n\
                Price alone: not searched, since the request is stopped.\n",
        );
    }
    risky(
        call,
        input,
        b"Nothing is chosen: the request is stopped, since its risk of 9000 basis points is not below the policy's hard limit of 9000.\n\
            No change to a model would help.\n\
            Price alone: not searched, since the request is stopped.\n",
    )
}

// Row (E): both ceilings are below 8,999. A risk term of 8,999 leaves no utility where one is raised, so each of four levers loses at once.
fn above_ceilings(call: u8, input: &[u8]) -> bool {
    told(
        call,
        input,
        1,
        b"decision 42 3 110 0 65535 0 0 0 0 2 0 7 3\n\
            rejected 0 0 2 0 0 0 0 0 0\n",
        b"decision 42 3 110 0 65535 0 0 0 0 2 0 7 3\n\
            passes 5\n",
        b"Nothing is chosen: no model is eligible, with reason 110.\n\
            Model 1 is rejected: the request's risk of 8999 basis points is above its ceiling of 8000.\n\
            Price alone: no price, not even 0, would make it the choice.\n\
            Nor would its quality, latency or risk ceiling alone.\n",
        EACH_ROOM,
    )
}

// The risk term is 5,000 and no longer 1,000, for both models, so that nothing else moves.
fn multiplied(call: u8, input: &[u8]) -> bool {
    told(
        call,
        input,
        1,
        b"decision 42 2 2 2 1 300 2200 1 1200 2 2 7 3\n\
            rejected 0 0 0 0 0 0 0 0 0\n\
            lever 1 8000 7000 -\n\
            lever 2 50 150 -\n\
            lever 3 1000000 4330000 1299\n\
            lever 4 8000 1000 -\n",
        b"decision 42 2 2 2 1 300 2200 1 1200 2 2 7 3\n\
            lever 3 1000000 443333 798\n\
            passes 26\n",
        b"Chosen: model 2, at a cost of 300 microunits, with a utility of 2200 microunits.\n\
            Model 1 is outranked by model 2: its utility of 1200 microunits is below 2200.\n\
            Price alone: it must fall by 55.7 percent or more; exactly, by 55.6667 percent, to 44.3333 percent of today's, where the request costs 798 microunits.\n",
        EACH_ROOM,
    )
}

// Whether a call says what is owed.
fn is_told(which: usize, call: u8, input: &[u8]) -> bool {
    match which {
        0..=5 => is_example(call, input, 1, EACH_ROOM),
        6..=7 => is_stopped(which, call, input),
        8 => above_ceilings(call, input),
        _ => multiplied(call, input),
    }
}

// The example with one number changed, through one call.
pub(crate) fn limit(number: usize) -> Seen {
    let call = (number % CALLS) as u8;
    let which = number / CALLS;
    let mut input = example();
    put16(&mut input, place_of(which), value_of(which));
    judged(is_told(which, call, &input))
}
