// Texts that are owed in full. The example's are document 01's rows (A), (B) and (C).
ghost use Rattle.std.specs.Prelude.{◌≤◌, length};

use crate::answers::{ASK, EACH_ROOM, UNIT, answers};
use crate::refused::refuses;

// The text of each call for an input and an id, into so much room.
pub(crate) fn told(
    call: u8,
    input: &[u8],
    id: u32,
    unit: &[u8],
    ask: &[u8],
    words: &[u8],
    room: usize,
) -> bool {
    if call == UNIT {
        return answers(call, input, id, unit, room);
    }
    if call == ASK {
        return answers(call, input, id, ask, room);
    }
    answers(call, input, id, words, room)
}

// The example's, into so much room.
pub(crate) fn is_example(call: u8, input: &[u8], id: u32, room: usize) -> bool {
    told(
        call,
        input,
        id,
        b"decision 42 2 2 2 1 300 6200 1 5200 2 2 7 3\n\
            rejected 0 0 0 0 0 0 0 0 0\n\
            lever 1 8000 7000 -\n\
            lever 2 50 150 -\n\
            lever 3 1000000 4330000 1299\n\
            lever 4 8000 1000 -\n",
        b"decision 42 2 2 2 1 300 6200 1 5200 2 2 7 3\n\
            lever 3 1000000 443333 798\n\
            passes 26\n",
        b"Chosen: model 2, at a cost of 300 microunits, with a utility of 6200 microunits.\n\
            Model 1 is outranked by model 2: its utility of 5200 microunits is below 6200.\n\
            Price alone: it must fall by 55.7 percent or more; exactly, by 55.6667 percent, to 44.3333 percent of today's, where the request costs 798 microunits.\n",
        room,
    )
}

// What is owed for a refusal, or the example's text where the number is 0, for the first bytes of an input.
pub(crate) fn prints(call: u8, input: &[u8], end: usize, id: u32, number: u8, variant: u8) -> bool
    requires { end ≤ length input.now }
{
    if number == 0 {
        return is_example(call, &input[0..end], id, EACH_ROOM);
    }
    refuses(call, &input[0..end], id, number, variant)
}
