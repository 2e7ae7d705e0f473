// Inputs with a bank of any size: the example's policy and request, and models made of its two.
ghost use Rattle.std.specs.Prelude.{◌≡◌, ◌+◌, ◌-◌, ◌*◌, ◌<◌, ◌≤◌, length};

use crate::example::{AFTER_BANK, BANK, END, MODELS, example};
use endian_writing::put16;
use splice::put_bytes;

// Room for every input that is made here.
pub(crate) const SPACE: usize = 66_000;

const RECORD: usize = 47;

// The place of the example's second model.
const SECOND: usize = MODELS + RECORD;

// Puts a part of the example, as it is or changed, at a place, and answers the place after it.
fn put_changed(out: &mut [u8], at: usize, input: [u8; 203], start: usize, end: usize) -> usize
    requires { (start ≤ end) × (end ≤ 203) × (at + (end - start) ≤ length out.old) }
    ensures { result ≡ at + (end - start) }
{
    put_bytes(out, at, &input[start..end]);
    at + (end - start)
}

// The same of the example as it is.
pub(crate) fn put_part(out: &mut [u8], at: usize, start: usize, end: usize) -> usize
    requires { (start ≤ end) × (end ≤ 203) × (at + (end - start) ≤ length out.old) }
    ensures { result ≡ at + (end - start) }
{
    let input = example();
    put_changed(out, at, input, start, end)
}

// What stands in a bank.
#[derive(Clone, Copy)]
pub(crate) enum Models {
    // The example's two, then others that are switched off.
    First,
    // The same, with the example's two last.
    Last,
    // The second model everywhere, with the id one more than the place.
    Alike,
    // The same, switched off.
    Off,
}

// The second model with another id.
fn put_another(out: &mut [u8], at: usize, id: usize, enabled: u8)
    requires { at + 47 ≤ length out.old }
{
    let mut input = example();
    put16(&mut input, SECOND, (id % 65_536) as u16);
    input[SECOND + 10] = enabled;
    put_changed(out, at, input, SECOND, AFTER_BANK);
}

// The example's first model, its second, or another one that is off.
fn put_mixed(out: &mut [u8], at: usize, which: usize, other: usize)
    requires { at + 47 ≤ length out.old }
{
    if which == 0 {
        put_part(out, at, MODELS, SECOND);
        return;
    }
    let is_second = which == 1;
    let id = if is_second { 2 } else { other };
    put_another(out, at, id, u8::from(is_second));
}

// The model at a place of a bank of so many.
fn put_one(out: &mut [u8], models: Models, n: usize, place: usize)
    requires { (place < n) × (n ≤ 1400) × (36 + 47 * n ≤ length out.old) }
{
    let at = MODELS + RECORD * place;
    match models {
        Models::First => put_mixed(out, at, place, place + 1),
        Models::Last => put_mixed(out, at, (place + 2) % n, place + 3),
        Models::Alike => put_another(out, at, place + 1, 1),
        Models::Off => put_another(out, at, place + 1, 0),
    }
}

// All of them, one after the other.
fn put_models(out: &mut [u8], models: Models, n: usize)
    requires { (n ≤ 1400) × (36 + 47 * n ≤ length out.old) }
{
    for place in 0..n {
        put_one(out, models, n, place);
    }
}

// The policy, and the bank's header with a length that need not be right.
fn put_head(out: &mut [u8], size: usize)
    requires { 36 ≤ length out.old }
{
    let mut input = example();
    put16(&mut input, BANK + 1, (size % 65_536) as u16);
    put_changed(out, 0, input, 0, MODELS);
}

// Puts an input with so many models at the start of a buffer, and answers where the request begins.
pub(crate) fn put_input(out: &mut [u8], models: Models, n: usize) -> usize
    requires { (n ≤ 1400) × (109 + 47 * n ≤ length out.old) }
    ensures { result ≡ 36 + 47 * n }
{
    let size = RECORD * n;
    let end = MODELS + size;
    put_head(out, size);
    put_models(out, models, n);
    put_part(out, end, AFTER_BANK, END);
    end
}

// Puts an input with a bank's field of so many bytes, all there, and the request after it.
pub(crate) fn put_long(out: &mut [u8], size: usize)
    requires { (66000 ≤ length out.old) × (size ≤ 65535) }
{
    put_head(out, size);
    put_models(out, Models::Alike, 1_395);
    put_part(out, MODELS + size, AFTER_BANK, END);
}

// The lengths that are tried with it: 36 of them, up to the highest that two bytes say.
pub(crate) const LENGTHS: usize = 36;

const FIRST_LENGTH: usize = 65_500;

// One of those, by its number.
pub(crate) fn length_of(number: usize) -> usize
    ensures { result ≤ 65535 }
{
    FIRST_LENGTH + number % LENGTHS
}

// A field of 1,394 models is whole; the next multiple of 47 takes more than two bytes.
const HIGHEST: usize = 65_518;

// The number that is owed for such a length, with the one for the highest.
pub(crate) fn length_answer(size: usize, highest: u8) -> u8 {
    if size == HIGHEST { highest } else { 22 }
}
