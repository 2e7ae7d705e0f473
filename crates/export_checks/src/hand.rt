// An answer handed over: its bytes at the start of the buffer, and 0 as the word.
ghost use Rattle.std.specs.Prelude.{◌≡◌, ◌≤◌, length};
ghost use Rattle.rules.specs.Bytes.{bytes_of};
ghost use Rattle.export_checks.specs.Checks.{delivered, word_size};

use endian_writing::put64;
use splice::put_bytes;

pub fn hand_bytes(out: &mut [u8], bytes: &[u8]) -> u64
    requires { length bytes.now ≤ length out.old }
    ensures { (result, out.new) ≡ delivered bytes.now out.old }
{
    put_bytes(out, 0, bytes);
    0
}

pub fn hand_u64(out: &mut [u8], number: u64) -> u64
    requires { word_size ≤ length out.old }
    ensures { (result, out.new) ≡ delivered (bytes_of word_size number) out.old }
{
    put64(out, 0, number);
    0
}
