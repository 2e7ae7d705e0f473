// The question from the desk. `ask ID` reads what the unit's program reads and prints the decision, the levers that would make the model
// with that id win, and the passes; `ask ID words` says the same in plain English.
#![tactic(auto)]

ghost use Rattle.std.specs.Prelude.{◌≡◌, ◌<◌, ◌≤◌, length, take, IfOk};
ghost use Rattle.std.specs.Io.{ReadsAtMost};
ghost use Rattle.std.specs.Io.KnownBytes.{Consumes, IsAtEnd};
ghost use Rattle.program_streams.specs.Prefix.{IsPrefixLen};
ghost use Rattle.program_deliver.specs.Sizes.{read_bytes, words_bytes};
ghost use Rattle.ask.specs.Answer.{answer_text};

use program_deliver::end_of;
use program_deliver::sizes::{INPUT_BYTES, WORDS_BYTES};
use program_question::{DeskQuestion, question_of};
use program_streams::{argument, argument_count, read_full};
use std::env::Env;
use std::io;
use std::io::Read;

// The input, as far as an answer depends on it. The prover refuses a buffer that holds less.
fn read_input<R: Read>(reader: &mut R, buffer: &mut [u8]) -> io::Result<usize>
    requires { read_bytes ≤ length buffer.old }
    ensures read { ReadsAtMost result buffer.new }
    ensures kept { length buffer.new ≡ length buffer.old }
    ensures taken { IfOk result (λ n. Consumes (R.remaining reader.old) (R.remaining reader.new) (take n buffer.new)) }
    ensures ended { IfOk result (λ n. n < length buffer.new → IsAtEnd (R.remaining reader.new)) }
{
    read_full(reader, buffer)
}

// What the program's arguments ask; none where that is unclear.
fn asked<E: Env>(environment: &E) -> Option<DeskQuestion> {
    let mut id = [0u8; 4096];
    let mut form = [0u8; 4096];
    let n = argument(environment, 1, &mut id);
    let m = argument(environment, 2, &mut form);
    question_of(argument_count(environment), &id[..n], &form[..m])
}

// The answer to a question: the first bytes of a buffer into which every text fits.
fn answer(question: DeskQuestion, input: &[u8], out: &mut [u8]) -> usize
    requires { words_bytes ≤ length out.old }
    ensures prefix_len { IsPrefixLen result out.new }
    ensures out_after { take result out.new ≡ answer_text question input.now }
{
    match question {
        DeskQuestion::Lines(id) => end_of(program_ask::ask_text(input, id, out)),
        DeskQuestion::Words(id) => end_of(program_words::ask_words(input, id, out)),
    }
}

fn main(rt: HostRuntime) -> io::Result<()> {
    let Some(question) = asked(&rt) else {
        return rt.stderr().write_all(
            b"ask 0.5.0, usage: ask ID, or ask ID words, with an ID from 0 to 4294967295\n",
        );
    };
    let mut input = [0u8; INPUT_BYTES];
    let n = read_input(&mut rt.stdin(), &mut input)?;
    let mut out = [0u8; WORDS_BYTES];
    let end = answer(question, &input[..n], &mut out);
    rt.write_all(&out[..end])
}
