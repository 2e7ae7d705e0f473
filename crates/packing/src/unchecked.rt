// For other crates: numbers packed one after the other by one loop. It asks that the widths leave room.
ghost use Rattle.std.specs.Prelude.{◌≡◌, length};
ghost use Rattle.rules.specs.Bytes.{packed};
ghost use Rattle.packing.specs.Tight.{Tight};

use endian_writing::put64;

// Writes fields one after the other, each a number in its width's bytes. Eight go in each time, and the next number covers those
// beyond the width.
pub fn put_packed(out: &mut [u8], fields: &[(usize, u64)])
    requires { Tight 0 fields.now (length out.old) }
    ensures { out.new ≡ packed fields.now }
{
    let mut at = 0;
    for &(width, number) in fields {
        put64(out, at, number);
        at += width;
    }
}
