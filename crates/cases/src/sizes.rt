// Banks by their size: none, 900, 901 and 1,394 models, and lengths around the highest that a field may have.
ghost use Rattle.std.specs.Prelude.{◌≤◌};

use crate::answers::{CALLS, EACH_ROOM};
use crate::banks::{Models, SPACE, length_answer, length_of, put_input, put_long};
use crate::example::MODELS;
use crate::refused::refuses;
use crate::tally::{Seen, judged};
use crate::texts::{prints, told};

pub(crate) const BANKS: usize = 6;

// 898 models that are switched off change only how many are evaluated, and the count of the disabled.
fn with_many_after(call: u8, input: &[u8]) -> bool {
    told(
        call,
        input,
        1,
        b"decision 42 2 2 2 1 300 6200 1 5200 900 2 7 3\n\
            rejected 898 0 0 0 0 0 0 0 0\n\
            lever 1 8000 7000 -\n\
            lever 2 50 150 -\n\
            lever 3 1000000 4330000 1299\n\
            lever 4 8000 1000 -\n",
        b"decision 42 2 2 2 1 300 6200 1 5200 900 2 7 3\n\
            lever 3 1000000 443333 798\n\
            passes 26\n",
        b"Chosen: model 2, at a cost of 300 microunits, with a utility of 6200 microunits.\n\
            Model 1 is outranked by model 2: its utility of 5200 microunits is below 6200.\n\
            Price alone: it must fall by 55.7 percent or more; exactly, by 55.6667 percent, to 44.3333 percent of today's, where the request costs 798 microunits.\n",
        EACH_ROOM,
    )
}

// The same, but for the second model's place.
fn with_many_before(call: u8, input: &[u8]) -> bool {
    told(
        call,
        input,
        1,
        b"decision 42 2 2 2 899 300 6200 1 5200 900 2 7 3\n\
            rejected 898 0 0 0 0 0 0 0 0\n\
            lever 1 8000 7000 -\n\
            lever 2 50 150 -\n\
            lever 3 1000000 4330000 1299\n\
            lever 4 8000 1000 -\n",
        b"decision 42 2 2 2 899 300 6200 1 5200 900 2 7 3\n\
            lever 3 1000000 443333 798\n\
            passes 26\n",
        b"Chosen: model 2, at a cost of 300 microunits, with a utility of 6200 microunits.\n\
            Model 1 is outranked by model 2: its utility of 5200 microunits is below 6200.\n\
            Price alone: it must fall by 55.7 percent or more; exactly, by 55.6667 percent, to 44.3333 percent of today's, where the request costs 798 microunits.\n",
        EACH_ROOM,
    )
}

// 900 like the second model, worth 6,200 each: the lowest id wins, which is the requested one, and the next is the second best. The first
// loses to it with any worse quality, latency or price, and may lower its ceiling to the risk.
fn with_many_alike(call: u8, input: &[u8]) -> bool {
    told(
        call,
        input,
        1,
        b"decision 42 1 1 1 0 300 6200 2 6200 900 900 7 3\n\
            rejected 0 0 0 0 0 0 0 0 0\n\
            lever 1 8000 8000 -\n\
            lever 2 50 50 -\n\
            lever 3 1000000 1000000 300\n\
            lever 4 8000 1000 -\n",
        b"decision 42 1 1 1 0 300 6200 2 6200 900 900 7 3\n\
            passes 1\n",
        b"Chosen: model 1, at a cost of 300 microunits, with a utility of 6200 microunits.\n\
            Model 1 is chosen already.\n\
            Price alone: not searched, since the model is chosen already.\n",
        EACH_ROOM,
    )
}

// Which models a bank of group 7 has.
fn models_of(which: usize) -> Models {
    match which {
        1 => Models::Last,
        2 => Models::Alike,
        _ => Models::First,
    }
}

// How many.
fn count_of(which: usize) -> usize
    ensures { result ≤ 1394 }
{
    match which {
        0..=2 => 900,
        3 => 901,
        4 => 1_394,
        _ => 0,
    }
}

// Whether a call says what is owed.
fn is_told(which: usize, call: u8, input: &[u8]) -> bool {
    match which {
        0 => with_many_after(call, input),
        1 => with_many_before(call, input),
        2 => with_many_alike(call, input),
        3..=4 => refuses(call, input, 1, 19, 0),
        _ => refuses(call, input, 1, 11, 0),
    }
}

// Group 7: whole banks.
pub(crate) fn bank(number: usize) -> Seen {
    let call = (number % CALLS) as u8;
    let which = number / CALLS;
    let mut input = [0u8; SPACE];
    let request = put_input(&mut input, models_of(which), count_of(which));
    let end = request + 73;
    judged(is_told(which, call, &input[0..end]))
}

// Group 8: the highest length is too many models, and no other is a bank's.
pub(crate) fn length(number: usize) -> Seen {
    let call = (number % CALLS) as u8;
    let size = length_of(number / CALLS);
    let mut input = [0u8; SPACE];
    put_long(&mut input, size);
    let owed = length_answer(size, 19);
    judged(prints(call, &input, MODELS + size + 73, 1, owed, 0))
}
