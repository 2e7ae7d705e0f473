// Printed texts, each with its length before it. The three calls differ in the text alone: a closure that makes it could not promise which text it is.
ghost use Rattle.std.specs.Prelude.{◌≡◌, ◌≤◌, length};
ghost use Rattle.rules.specs.Numbers.{told_written};
ghost use Rattle.rules.specs.Printed.{unit_text, ask_text};
ghost use Rattle.rules.specs.Words.{ask_words};
ghost use Rattle.export_checks.specs.Checks.{word_size};
ghost use Rattle.export_texts.specs.Texts.{text_call, headed};

use export_checks::{hand_u64, refusal_word};
use program_ask::ask_text;
use program_report::unit_text;
use program_words::ask_words;
use rules::Refusal;

// A text's length in bytes stands before it.
const LENGTH_BYTES: usize = 8;

// Puts a text's length before it, and answers the word: 4 where the text had no room.
fn put_length(written: Result<usize, Refusal>, out: &mut [u8]) -> u64
    requires { word_size ≤ length out.old }
    ensures { (result, out.new) ≡ headed (told_written written) out.old }
{
    match written {
        Ok(size) => hand_u64(out, size as u64),
        Err(_) => refusal_word(Refusal::NoRoom, 0),
    }
}

// What the unit's program prints. Refused: 4.
pub fn unit_text_delivered(input: &[u8], out: &mut [u8]) -> u64
    ensures { (result, out.new) ≡ text_call (unit_text input.now) out.old }
{
    if out.len() < LENGTH_BYTES {
        return refusal_word(Refusal::NoRoom, 0);
    }
    let written = unit_text(input, &mut out[LENGTH_BYTES..]);
    put_length(written, out)
}

// What the desk's question prints, in lines. Refused: 4.
pub fn ask_text_delivered(input: &[u8], id: u32, out: &mut [u8]) -> u64
    ensures { (result, out.new) ≡ text_call (ask_text id input.now) out.old }
{
    if out.len() < LENGTH_BYTES {
        return refusal_word(Refusal::NoRoom, 0);
    }
    let written = ask_text(input, id, &mut out[LENGTH_BYTES..]);
    put_length(written, out)
}

// The same in words. Refused: 4.
pub fn ask_words_delivered(input: &[u8], id: u32, out: &mut [u8]) -> u64
    ensures { (result, out.new) ≡ text_call (ask_words id input.now) out.old }
{
    if out.len() < LENGTH_BYTES {
        return refusal_word(Refusal::NoRoom, 0);
    }
    let written = ask_words(input, id, &mut out[LENGTH_BYTES..]);
    put_length(written, out)
}
