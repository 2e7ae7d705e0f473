// Whether a call prints what it must.
ghost use Rattle.std.specs.Prelude.{◌≤◌};

use crate::marks::{MARK, settled};
use endian::u64_at;
use program_ask::ask_text;
use program_report::unit_text;
use program_words::ask_words;
use volankizo::{volankizo_ask_text, volankizo_ask_words, volankizo_unit_text};

// The printing calls, by their numbers; the third is `ask_words`. By number: a case's number says which.
pub(crate) const CALLS: usize = 3;

pub(crate) const UNIT: u8 = 0;

pub(crate) const ASK: u8 = 1;

pub(crate) const WORDS: u8 = 2;

// More than any text has.
pub(crate) const ROOM: usize = 1_300;

// The library's buffer: a text's length in so many bytes, then the room.
const LENGTH_BYTES: usize = 8;

const LIBRARY_ROOM: usize = 1_308;

// Stands for three rooms: more than enough, one byte less than enough, none.
pub(crate) const EACH_ROOM: usize = 1_301;

// What a call prints of an input, asked about an id where it asks about one.
fn print(call: u8, input: &[u8], id: u32, out: &mut [u8]) -> Result<usize, u8> {
    let printed = match call {
        UNIT => unit_text(input, out),
        ASK => ask_text(input, id, out),
        _ => ask_words(input, id, out),
    };
    printed.map_err(|refusal| refusal.number())
}

// Whether a call prints a text into so much room; where that is too little, that it refuses and writes nothing.
fn answers_in(call: u8, input: &[u8], id: u32, text: &[u8], room: usize) -> bool
    requires { room ≤ 1300 }
{
    let mut out = [MARK; ROOM];
    // The call has the first bytes of the buffer alone.
    let told = print(call, input, id, &mut out[..room]);
    settled(told, 0, &out, text, room)
}

// The word of the library's function for a call.
fn library_word(call: u8, input: &[u8], id: u32, out: &mut [u8]) -> u64 {
    match call {
        UNIT => volankizo_unit_text(input, out),
        ASK => volankizo_ask_text(input, id, out),
        _ => volankizo_ask_words(input, id, out),
    }
}

// Whether the library hands the same text over, with its length before it.
fn library_answers(call: u8, input: &[u8], id: u32, text: &[u8]) -> bool {
    let mut out = [MARK; LIBRARY_ROOM];
    if library_word(call, input, id, &mut out) != 0 {
        return false;
    }
    let size = u64_at(&out, 0) as usize;
    settled(Ok(size), 0, &out[LENGTH_BYTES..], text, ROOM)
}

// Whether a call prints a text, byte for byte, into each of three rooms, and the library hands it over.
pub(crate) fn answers_each(call: u8, input: &[u8], id: u32, text: &[u8]) -> bool {
    let size = text.len();
    0 < size
        && size <= ROOM
        && answers_in(call, input, id, text, ROOM)
        && answers_in(call, input, id, text, size - 1)
        && answers_in(call, input, id, text, 0)
        && library_answers(call, input, id, text)
}

// The same, or into so much room alone.
pub(crate) fn answers(call: u8, input: &[u8], id: u32, text: &[u8], room: usize) -> bool {
    if room <= ROOM {
        return answers_in(call, input, id, text, room);
    }
    answers_each(call, input, id, text)
}

// Whether the desk says a text.
pub(crate) fn says(input: &[u8], id: u32, text: &[u8]) -> bool {
    answers_each(WORDS, input, id, text)
}
