// The unit's program: standard input has the policy, the bank and the request as fields; standard output gets the answer. What it answers
// depends on no byte after the first 65,639, so it reads no more.
#![tactic(auto)]

ghost use Rattle.std.specs.Prelude.{◌≡◌, ◌<◌, ◌≤◌, length, take, IfOk};
ghost use Rattle.std.specs.Io.{ReadsAtMost};
ghost use Rattle.std.specs.Io.KnownBytes.{Consumes, IsAtEnd};
ghost use Rattle.rules.specs.Printed.{unit_text};
ghost use Rattle.program_streams.specs.Prefix.{IsPrefixLen};
ghost use Rattle.program_deliver.specs.Sizes.{read_bytes, unit_bytes};

use program_deliver::end_of;
use program_deliver::sizes::{INPUT_BYTES, UNIT_BYTES};
use program_streams::read_full;
use std::io;
use std::io::Read;

// The input, as far as an answer depends on it. The prover refuses a buffer that holds less.
fn read_input<R: Read>(reader: &mut R, buffer: &mut [u8]) -> io::Result<usize>
    requires { read_bytes ≤ length buffer.old }
    ensures read { ReadsAtMost result buffer.new }
    ensures kept { length buffer.new ≡ length buffer.old }
    ensures taken { IfOk result (λ n. Consumes (R.remaining reader.old) (R.remaining reader.new) (take n buffer.new)) }
    ensures ended { IfOk result (λ n. n < length buffer.new → IsAtEnd (R.remaining reader.new)) }
{
    read_full(reader, buffer)
}

// What is printed for an input: the first bytes of a buffer into which every text fits.
fn answer(input: &[u8], out: &mut [u8]) -> usize
    requires { unit_bytes ≤ length out.old }
    ensures prefix_len { IsPrefixLen result out.new }
    ensures out_after { take result out.new ≡ unit_text input.now }
{
    end_of(program_report::unit_text(input, out))
}

fn main(rt: HostRuntime) -> io::Result<()> {
    let mut input = [0u8; INPUT_BYTES];
    let n = read_input(&mut rt.stdin(), &mut input)?;
    let mut out = [0u8; UNIT_BYTES];
    let end = answer(&input[..n], &mut out);
    rt.write_all(&out[..end])
}
