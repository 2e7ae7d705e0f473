// For other crates: numbers that bytes say, the lowest byte first, read at a position of a slice, which must leave room.
// Three functions, one a width: what reads the bytes is each type's own, and a trait over the three would have these same lines in its impls.
#![tactic(auto)]

ghost use Rattle.std.specs.Prelude.{◌≡◌, ◌+◌, ◌≤◌, length};
ghost use Rattle.rules.specs.Bytes.{number_at};

// The number of two bytes at a position.
pub fn u16_at(s: &[u8], at: usize) -> u16
    requires { at + 2 ≤ length s.now }
    ensures { result ≡ number_at s.now at 2 }
{
    u16::from_le_bytes(s[at..at + 2].try_into().unwrap())
}

// The number of four bytes at a position.
pub fn u32_at(s: &[u8], at: usize) -> u32
    requires { at + 4 ≤ length s.now }
    ensures { result ≡ number_at s.now at 4 }
{
    u32::from_le_bytes(s[at..at + 4].try_into().unwrap())
}

// The number of eight bytes at a position.
pub fn u64_at(s: &[u8], at: usize) -> u64
    requires { at + 8 ≤ length s.now }
    ensures { result ≡ number_at s.now at 8 }
{
    u64::from_le_bytes(s[at..at + 8].try_into().unwrap())
}
