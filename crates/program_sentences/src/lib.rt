// For other crates: the sentences of levers, each put into a buffer from a position on, which must leave room. None has more than 230 bytes, and none
// but the price's more than 120.
#![tactic(auto)]

ghost use Rattle.std.specs.Prelude.{◌≡◌, [], map, ◌+◌, ◌-◌, ◌≤◌, length, take};
ghost use Rattle.rules.specs.Limits.{ppm};
ghost use Rattle.rules.specs.Numbers.{told_cost, told_entry, told_boundaries};
ghost use Rattle.rules.specs.Words.{cost_words, fall_words, price_words, unsearched_words, rise_words, latency_words, lever_words, levers_words};
ghost use Rattle.rules.specs.Words.{off_words, on_words, searched_words};
ghost use Rattle.std.proofs.Math.Option.{some};
ghost use Rattle.splice.specs.Placed.{placed};
ghost use Rattle.program_sentences.specs.Parts.{fall_up, fall_start};

use program_phrases::{put_about, put_comparing, put_percent, put_percent_up, put_sentence};
use rules::limits::PPM;
use rules::{Boundaries, Levers, Requirement};
use text::{put_byte, put_text};

// Quality and ceiling must rise.
fn put_rise(out: &mut [u8], at: usize, name: &[u8], lever: Requirement) -> usize
    requires { at + (length name.now + 90) ≤ length out.old }
    ensures out_after { some (result, out.new) ≡ placed out.old at (rise_words name.now (told_entry lever)) }
    ensures upper_bound { result ≤ at + (length name.now + 90) }
{
    let middle = b" basis points today; it must rise to at least ";
    let end = put_comparing(out, at, name, lever.current, middle, lever.boundary, b".");
    put_byte(out, end, b'\n')
}

// The latency must fall.
fn put_latency(out: &mut [u8], at: usize, lever: Requirement) -> usize
    requires { at + 120 ≤ length out.old }
    ensures out_after { some (result, out.new) ≡ placed out.old at (latency_words (told_entry lever)) }
    ensures upper_bound { result ≤ at + 120 }
{
    let name = b"Latency alone: ";
    let middle = b" ms today; it must fall to at most ";
    let end = put_comparing(
        out,
        at,
        name,
        lever.current,
        middle,
        lever.boundary,
        b" ms.",
    );
    put_byte(out, end, b'\n')
}

// By how much the price must fall, rounded up.
fn put_fall_up(out: &mut [u8], at: usize, boundary: u64) -> usize
    requires { at + 81 ≤ length out.old }
    ensures out_after { some (result, out.new) ≡ placed out.old at (fall_up boundary) }
    ensures upper_bound { result ≤ at + 81 }
{
    let named = put_text(out, at, b"Price alone: it must fall by ");
    let told = put_percent_up(out, named, PPM.saturating_sub(boundary));
    put_text(out, told, b" or more; exactly, by ")
}

// The same, then exactly, and to what.
fn put_fall_start(out: &mut [u8], at: usize, boundary: u64) -> usize
    requires { at + 165 ≤ length out.old }
    ensures out_after { some (result, out.new) ≡ placed out.old at (fall_start boundary) }
    ensures upper_bound { result ≤ at + 165 }
{
    let next = put_fall_up(out, at, boundary);
    let exact = put_percent(out, next, PPM.saturating_sub(boundary));
    let share = put_text(out, exact, b", to ");
    let end = put_percent(out, share, boundary);
    put_text(out, end, b" of today's")
}

// What the request then costs.
fn put_then(out: &mut [u8], at: usize, cost: Option<u64>) -> usize
    requires { at + 60 ≤ length out.old }
    ensures out_after { some (result, out.new) ≡ placed out.old at (cost_words (told_cost cost)) }
    ensures upper_bound { result ≤ at + 60 }
{
    match cost {
        None => put_text(out, at, b"."),
        Some(c) => put_about(out, at, b", where the request costs ", c, b" microunits."),
    }
}

// The price must fall, and what the request then costs.
fn put_fall(out: &mut [u8], at: usize, lever: Requirement) -> usize
    requires { at + 230 ≤ length out.old }
    ensures out_after { some (result, out.new) ≡ placed out.old at (fall_words (told_entry lever)) }
    ensures upper_bound { result ≤ at + 230 }
{
    let next = put_fall_start(out, at, lever.boundary);
    let told = put_then(out, next, lever.cost_at_boundary_microunits);
    put_byte(out, told, b'\n')
}

// No price would do.
fn put_no_price(out: &mut [u8], at: usize) -> usize
    requires { at + 230 ≤ length out.old }
    ensures out_after { some (result, out.new) ≡ placed out.old at (price_words []) }
    ensures upper_bound { result ≤ at + 230 }
{
    put_sentence(
        out,
        at,
        b"Price alone: no price, not even 0, would make it the choice.",
    )
}

// The sentence of the price among an answer's first levers, or that no price would do.
fn put_price(out: &mut [u8], at: usize, levers: Levers) -> usize
    requires { at + 230 ≤ length out.old }
    ensures out_after { some (result, out.new) ≡ placed out.old at (price_words (take levers.count (map told_entry levers.levers))) }
    ensures upper_bound { result ≤ at + 230 }
{
    for &lever in levers.levers.iter().take(levers.count) {
        if lever.lever == 3 {
            return put_fall(out, at, lever);
        }
    }
    put_no_price(out, at)
}

// Why the price was not searched.
pub fn put_unsearched(out: &mut [u8], at: usize, why: &[u8]) -> usize
    requires { at + (length why.now + 50) ≤ length out.old }
    ensures out_after { some (result, out.new) ≡ placed out.old at (unsearched_words why.now) }
    ensures upper_bound { result ≤ at + (length why.now + 50) }
{
    let next = put_text(out, at, b"Price alone: not searched, since ");
    let end = put_text(out, next, why);
    put_sentence(out, end, b".")
}

// The sentence of a lever other than the price.
#[tactic(auto, unfolding(rules::specs::Words::lever_words, rules::specs::Choice::equal, rules::specs::Text::text))]
fn put_lever_words(out: &mut [u8], at: usize, lever: Requirement) -> usize
    requires { at + 120 ≤ length out.old }
    ensures out_after { some (result, out.new) ≡ placed out.old at (lever_words (told_entry lever)) }
    ensures upper_bound { result ≤ at + 120 }
{
    match lever.lever {
        1 => put_rise(out, at, b"Quality alone: ", lever),
        2 => put_latency(out, at, lever),
        3 => at,
        4 => put_rise(out, at, b"Risk ceiling alone: ", lever),
        _ => put_sentence(out, at, b"Switched on, it would be chosen."),
    }
}

// The sentences of an answer's first levers but for the price.
fn put_levers_words(out: &mut [u8], at: usize, levers: Levers) -> usize
    requires { at + 480 ≤ length out.old }
    ensures out_after { some (result, out.new) ≡ placed out.old at (levers_words (take levers.count (map told_entry levers.levers))) }
    ensures upper_bound { result ≤ at + 480 }
{
    let mut next = at;
    for &lever in levers.levers.iter().take(levers.count) {
        next = put_lever_words(out, next, lever);
    }
    next
}

// Of a model that is off: whether it would be chosen switched on.
fn put_off(out: &mut [u8], at: usize, asked: Boundaries) -> usize
    requires { at + 710 ≤ length out.old }
    ensures out_after { some (result, out.new) ≡ placed out.old at (off_words (told_boundaries asked)) }
    ensures upper_bound { result ≤ at + 710 }
{
    let next = put_unsearched(out, at, b"the model is switched off");
    if asked.levers.count == 0 {
        return put_sentence(out, next, b"Switched on, it would still not be chosen.");
    }
    put_levers_words(out, next, asked.levers)
}

// Of one that is on: its price, then each other lever that wins.
fn put_on(out: &mut [u8], at: usize, asked: Boundaries) -> usize
    requires { at + 710 ≤ length out.old }
    ensures out_after { some (result, out.new) ≡ placed out.old at (on_words (told_boundaries asked)) }
    ensures upper_bound { result ≤ at + 710 }
{
    let next = put_price(out, at, asked.levers);
    if asked.levers.count == 0 {
        let nothing = b"Nor would its quality, latency or risk ceiling alone.";
        return put_sentence(out, next, nothing);
    }
    put_levers_words(out, next, asked.levers)
}

// What would make a model the choice that is switched off or not.
pub fn put_searched(out: &mut [u8], at: usize, asked: Boundaries, off: bool) -> usize
    requires { at + 710 ≤ length out.old }
    ensures out_after { some (result, out.new) ≡ placed out.old at (searched_words off (told_boundaries asked)) }
    ensures upper_bound { result ≤ at + 710 }
{
    if off {
        return put_off(out, at, asked);
    }
    put_on(out, at, asked)
}
