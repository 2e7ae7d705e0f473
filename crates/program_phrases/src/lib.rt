// For other crates: what sentences are made of, words about numbers and shares in percent, each put into a buffer from a position on, which must
// leave room.
#![tactic(auto)]

ghost use Rattle.std.specs.Prelude.{◌≡◌, ◌+◌, ◌%◌, ◌≤◌, length};
ghost use Rattle.rules.specs.Limits.{ppm};
ghost use Rattle.rules.specs.Text.{decimal};
ghost use Rattle.rules.specs.Phrases.{sentence, about, comparing, percent, tenths_up, percent_up};
ghost use Rattle.std.proofs.Math.Option.{some};
ghost use Rattle.splice.specs.Placed.{placed};

use text::{put_byte, put_decimal, put_text};

// A number.
pub fn put_number(out: &mut [u8], at: usize, n: u64) -> usize
    requires { at + 20 ≤ length out.old }
    ensures out_after { some (result, out.new) ≡ placed out.old at (decimal n) }
    ensures upper_bound { result ≤ at + 20 }
{
    put_decimal(out, at, n)
}

// A sentence.
pub fn put_sentence(out: &mut [u8], at: usize, words: &[u8]) -> usize
    requires { at + (length words.now + 1) ≤ length out.old }
    ensures out_after { some (result, out.new) ≡ placed out.old at (sentence words.now) }
    ensures value { result ≡ at + (length words.now + 1) }
{
    let end = put_text(out, at, words);
    put_byte(out, end, b'\n')
}

// Some words, a number, and more words.
pub fn put_about(out: &mut [u8], at: usize, before: &[u8], n: u64, after: &[u8]) -> usize
    requires { at + (length before.now + 20 + length after.now) ≤ length out.old }
    ensures out_after { some (result, out.new) ≡ placed out.old at (about before.now n after.now) }
    ensures upper_bound { result ≤ at + (length before.now + 20 + length after.now) }
{
    let number = put_text(out, at, before);
    let next = put_number(out, number, n);
    put_text(out, next, after)
}

// A sentence of them.
pub fn put_remark(out: &mut [u8], at: usize, before: &[u8], n: u64, after: &[u8]) -> usize
    requires { at + (length before.now + 21 + length after.now) ≤ length out.old }
    ensures out_after { some (result, out.new) ≡ placed out.old at (sentence (about before.now n after.now)) }
    ensures upper_bound { result ≤ at + (length before.now + 21 + length after.now) }
{
    let end = put_about(out, at, before, n, after);
    put_byte(out, end, b'\n')
}

// Some words about two numbers.
pub fn put_comparing(
    out: &mut [u8],
    at: usize,
    before: &[u8],
    m: u64,
    middle: &[u8],
    n: u64,
    after: &[u8],
) -> usize
    requires { at + (length before.now + 20 + length middle.now + 20 + length after.now) ≤ length out.old }
    ensures out_after { some (result, out.new) ≡ placed out.old at (comparing before.now m middle.now n after.now) }
    ensures upper_bound { result ≤ at + (length before.now + 20 + length middle.now + 20 + length after.now) }
{
    let next = put_about(out, at, before, m, middle);
    let end = put_number(out, next, n);
    put_text(out, end, after)
}

// The byte of a number's last digit.
fn last_digit(n: u64) -> u8
    ensures { result ≡ 48 + n % 10 }
{
    b'0' + (n % 10) as u8
}

// Millionths as percent.
pub fn put_percent(out: &mut [u8], at: usize, n: u64) -> usize
    requires { at + 33 ≤ length out.old }
    ensures out_after { some (result, out.new) ≡ placed out.old at (percent n) }
    ensures upper_bound { result ≤ at + 33 }
{
    let digits = [
        b'.',
        last_digit(n / 1_000),
        last_digit(n / 100),
        last_digit(n / 10),
        last_digit(n),
    ];
    let point = put_number(out, at, n / 10_000);
    let next = put_text(out, point, &digits);
    put_text(out, next, b" percent")
}

// Millionths as tenths of a percent, rounded up.
#[tactic(auto, unfolding(rules::specs::Phrases::tenths_up))]
fn tenths_up(n: u64) -> u64
    requires { n ≤ ppm }
    ensures { result ≡ tenths_up n }
{
    n.div_ceil(1_000)
}

// Millionths as percent with one digit after the point, rounded up.
pub fn put_percent_up(out: &mut [u8], at: usize, n: u64) -> usize
    requires n_le_ppm { n ≤ ppm }
    requires at_in_bounds { at + 30 ≤ length out.old }
    ensures out_after { some (result, out.new) ≡ placed out.old at (percent_up n) }
    ensures upper_bound { result ≤ at + 30 }
{
    let tenths = tenths_up(n);
    let digit = [b'.', last_digit(tenths)];
    let point = put_number(out, at, tenths / 10);
    let next = put_text(out, point, &digit);
    put_text(out, next, b" percent")
}
