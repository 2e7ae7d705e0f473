// For other crates: numbers and lines put into a lent buffer one after the other. Each function takes a position, which must leave room,
// and answers the next one. The text of an i64 has at most 20 bytes, as that of a u64, so that a caller can tell from the count of its
// numbers that a buffer suffices.
// Buffer and position are two parameters: a text goes to a part of whatever a caller lends, and a promise speaks of both, so a struct of the two
// would be taken apart in each.
#![tactic(auto)]

ghost use Rattle.std.specs.Prelude.{◌≡◌, [], ◌∷◌, map, ◌+◌, ◌*◌, ◌≤◌, ◌<◌, length};
ghost use Rattle.rules.specs.Text.{decimal, signed_decimal, spaced, line};
ghost use Rattle.std.proofs.Math.Option.{some};
ghost use Rattle.splice.specs.Placed.{placed};

use splice::put_bytes;

// Puts some bytes.
pub fn put_text(out: &mut [u8], at: usize, bytes: &[u8]) -> usize
    requires { at + length bytes.now ≤ length out.old }
    ensures out_after { some (result, out.new) ≡ placed out.old at bytes.now }
    ensures value { result ≡ at + length bytes.now }
{
    put_bytes(out, at, bytes);
    at + bytes.len()
}

// Puts one byte.
pub fn put_byte(out: &mut [u8], at: usize, byte: u8) -> usize
    requires { at < length out.old }
    ensures out_after { some (result, out.new) ≡ placed out.old at (byte ∷ []) }
    ensures value { result ≡ at + 1 }
{
    out[at] = byte;
    at + 1
}

// The byte of a digit.
fn digit(n: u64) -> u8
    requires { n ≤ 9 }
    ensures { result ≡ 48 + n }
{
    b'0' + n as u8
}

// Puts a number in decimal digits: those of its tenth, then its last one.
pub fn put_decimal(out: &mut [u8], at: usize, n: u64) -> usize
    requires { at + length (decimal n) ≤ length out.old }
    ensures { some (result, out.new) ≡ placed out.old at (decimal n) }
{
    let last = digit(n % 10);
    if n < 10 {
        return put_byte(out, at, last);
    }
    let next = put_decimal(out, at, n / 10);
    put_byte(out, next, last)
}

// Puts a signed number, a minus in front where it is negative.
pub fn put_signed(out: &mut [u8], at: usize, n: i64) -> usize
    requires { at + 20 ≤ length out.old }
    ensures out_after { some (result, out.new) ≡ placed out.old at (signed_decimal n) }
    ensures upper_bound { result ≤ at + 20 }
{
    if n < 0 {
        let next = put_text(out, at, b"-");
        return put_decimal(out, next, n.unsigned_abs());
    }
    put_decimal(out, at, n.unsigned_abs())
}

// Puts a space and a number.
pub fn put_word(out: &mut [u8], at: usize, n: u64) -> usize
    requires { at + 21 ≤ length out.old }
    ensures out_after { some (result, out.new) ≡ placed out.old at (spaced (decimal n ∷ [])) }
    ensures upper_bound { result ≤ at + 21 }
{
    let next = put_text(out, at, b" ");
    put_decimal(out, next, n)
}

// Puts a space and a signed number.
pub fn put_signed_word(out: &mut [u8], at: usize, n: i64) -> usize
    requires { at + 21 ≤ length out.old }
    ensures out_after { some (result, out.new) ≡ placed out.old at (spaced (signed_decimal n ∷ [])) }
    ensures upper_bound { result ≤ at + 21 }
{
    let next = put_text(out, at, b" ");
    put_signed(out, next, n)
}

// Puts a space before each number.
pub fn put_words(out: &mut [u8], at: usize, ns: &[u64]) -> usize
    requires { at + 21 * length ns.now ≤ length out.old }
    ensures out_after { some (result, out.new) ≡ placed out.old at (spaced (map decimal ns.now)) }
    ensures upper_bound { result ≤ at + 21 * length ns.now }
{
    let mut next = at;
    for &n in ns {
        next = put_word(out, next, n);
    }
    next
}

// Puts a line: its name, its numbers, the line end.
pub fn put_line(out: &mut [u8], at: usize, name: &[u8], ns: &[u64]) -> usize
    requires { at + (length name.now + 21 * length ns.now + 1) ≤ length out.old }
    ensures out_after { some (result, out.new) ≡ placed out.old at (line name.now (map decimal ns.now)) }
    ensures upper_bound { result ≤ at + (length name.now + 21 * length ns.now + 1) }
{
    let named = put_text(out, at, name);
    let end = put_words(out, named, ns);
    put_byte(out, end, b'\n')
}
