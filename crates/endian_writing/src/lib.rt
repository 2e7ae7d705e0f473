// For other crates: numbers written into bytes, the lowest byte first, at a position of a slice, which must leave room.
// Three functions, one a width, as in `endian`.
#![tactic(auto)]

ghost use Rattle.std.specs.Prelude.{◌≡◌, ◌+◌, ◌≤◌, length};
ghost use Rattle.rules.specs.Bytes.{bytes_of};
ghost use Rattle.rules.specs.Wide.{val};
ghost use Rattle.endian_writing.specs.Put.{patched};

use rules::Wide;

// Writes a number into two bytes at a position.
pub fn put16(d: &mut [u8], at: usize, x: u16)
    requires { at + 2 ≤ length d.old }
    ensures { d.new ≡ patched d.old at (bytes_of 2 x) }
{
    d[at..at + 2].copy_from_slice(&x.to_le_bytes());
}

// Writes a number into four bytes at a position.
pub fn put32(d: &mut [u8], at: usize, x: u32)
    requires { at + 4 ≤ length d.old }
    ensures { d.new ≡ patched d.old at (bytes_of 4 x) }
{
    d[at..at + 4].copy_from_slice(&x.to_le_bytes());
}

// Writes a number into eight bytes at a position.
pub fn put64(d: &mut [u8], at: usize, x: u64)
    requires { at + 8 ≤ length d.old }
    ensures { d.new ≡ patched d.old at (bytes_of 8 x) }
{
    d[at..at + 8].copy_from_slice(&x.to_le_bytes());
}

// Writes a number of two limbs into sixteen bytes at a position, the low limb first.
pub fn put_wide(d: &mut [u8], at: usize, w: Wide)
    requires { at + 16 ≤ length d.old }
    ensures { d.new ≡ patched d.old at (bytes_of 16 (val w)) }
{
    put64(d, at, w.lo);
    put64(d, at + 8, w.hi);
}
