// What a reader of the example's input owes, where its policy may say how it rounds and what is free: a number, or the example's answer by such a
// policy. It is read by the calls that print, and by the reader of stored forms, which takes what stands before the request.
ghost use Rattle.std.specs.Prelude.{◌≡◌, ◌≤◌, length};

use crate::answers::{CALLS, EACH_ROOM};
use crate::free::is_free;
use crate::once::is_once;
use crate::reading::reads_stored;
use crate::refused::refuses;
use crate::tally::{Seen, judged};
use crate::texts::is_example;
use rules::Rounding;

// The readers by their numbers: the calls that print, then the stored form's.
pub(crate) const READERS: usize = 4;

pub(crate) const STORED: usize = 3;

// Where a reader's bytes end, the number that it owes, and where that is 0 how the policy rounds, and its allowance.
// By number: as in the documents' tables, 0 stands for an answer; none where there is nothing to ask.
#[derive(Clone, Copy)]
pub(crate) struct Owed {
    pub end: usize,
    pub number: Option<u8>,
    pub rounding: Rounding,
    pub allowance: u32,
}

// Nothing to ask.
pub(crate) fn unasked(end: usize) -> Owed
    ensures { result.end ≡ end }
{
    Owed {
        end,
        number: None,
        rounding: Rounding::Apart,
        allowance: 0,
    }
}

// A refusal.
pub(crate) fn refused(end: usize, number: u8) -> Owed
    ensures { result.end ≡ end }
{
    Owed {
        end,
        number: Some(number),
        rounding: Rounding::Apart,
        allowance: 0,
    }
}

// The example's answer by a policy that says so.
pub(crate) fn answered(end: usize, rounding: Rounding, allowance: u32) -> Owed
    ensures { result.end ≡ end }
{
    Owed {
        end,
        number: Some(0),
        rounding,
        allowance,
    }
}

// Whether a call prints what is owed for an input: the refusal with this number, or where it is 0 the example's answer.
fn is_printed(call: u8, input: &[u8], number: u8, owed: Owed) -> bool {
    if number != 0 {
        return refuses(call, input, 1, number, 0);
    }
    if owed.allowance != 0 {
        return is_free(call, input, owed.rounding);
    }
    match owed.rounding {
        Rounding::Apart => is_example(call, input, 1, EACH_ROOM),
        Rounding::Once => is_once(call, input),
    }
}

// What one reader comes to on the first bytes of an input.
pub(crate) fn seen(reader: usize, input: &[u8], owed: Owed) -> Seen
    requires { owed.end ≤ length input.now }
{
    let end = owed.end;
    let Some(number) = owed.number else {
        return Seen::NoCase;
    };
    if reader < CALLS {
        return judged(is_printed(reader as u8, &input[0..end], number, owed));
    }
    judged(reads_stored(&input[0..end], number, owed.rounding, owed.allowance))
}
