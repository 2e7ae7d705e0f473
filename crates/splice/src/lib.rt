// For other crates: bytes written into a lent buffer at a position, which must leave room for them.
#![tactic(auto)]

ghost use Rattle.std.specs.Prelude.{◌≡◌, ◌+◌, ◌≤◌, length};
ghost use Rattle.endian_writing.specs.Put.{patched};

// Copies bytes into a buffer from a position on. What stands before and after them stays.
pub fn put_bytes(out: &mut [u8], at: usize, bytes: &[u8])
    requires { at + length bytes.now ≤ length out.old }
    ensures { out.new ≡ patched out.old at bytes.now }
{
    out[at..at + bytes.len()].copy_from_slice(bytes);
}
