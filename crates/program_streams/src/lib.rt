// For the programs: what a reader gives, until a buffer is full or the input ends; and what the arguments are.
#![tactic(auto)]

ghost use Rattle.std.specs.Prelude.{◌≡◌, ◌<◌, ◌≤◌, length, take, IfOk};
ghost use Rattle.std.specs.Io.{ReadsAtMost};
ghost use Rattle.std.specs.Io.KnownBytes.{Consumes, IsAtEnd};
ghost use Rattle.program_streams.specs.Prefix.{IsPrefixLen};

use std::env::{Env, FillError};
use std::io;
use std::io::Read;

// Reads until the buffer is full or the input ends: how many bytes stand at its start. Of a reader that says what it has left, these are the next it had, and
// fewer than fill the buffer only where nothing is left. On an empty buffer it reads nothing. After an error some may stand there.
pub fn read_full<R: Read>(reader: &mut R, buffer: &mut [u8]) -> io::Result<usize>
    ensures read { ReadsAtMost result buffer.new }
    ensures kept { length buffer.new ≡ length buffer.old }
    ensures taken { IfOk result (λ n. Consumes (R.remaining reader.old) (R.remaining reader.new) (take n buffer.new)) }
    ensures ended { IfOk result (λ n. n < length buffer.new → IsAtEnd (R.remaining reader.new)) }
{
    let mut done = 0;
    // By hand: `read_exact` fails where the input ends early, and does not tell how many bytes came.
    while done < buffer.len() {
        let n = reader.read(&mut buffer[done..])?;
        if n == 0 {
            return Ok(done);
        }
        done += n;
    }
    Ok(done)
}

// An argument at the start of a buffer: how many bytes it has; 0 where it is missing, or longer than the buffer.
pub fn argument<E: Env>(environment: &E, i: usize, buffer: &mut [u8]) -> usize
    ensures { IsPrefixLen result buffer.new }
{
    environment.arg(i, buffer).unwrap_or(0)
}

// Whether there is such an argument.
fn is_there<E: Env>(environment: &E, i: usize) -> bool {
    let mut first = [0u8; 1];
    !matches!(environment.arg(i, &mut first), Err(FillError::NotPresent))
}

// How many arguments there are, the program's name among them; four stand for more.
pub fn argument_count<E: Env>(environment: &E) -> usize
    ensures { result ≤ 4 }
{
    (0..4).take_while(|&i| is_there(environment, i)).count()
}
