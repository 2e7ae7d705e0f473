// For other crates: the lines of a report that tell levers, put into a buffer from a position on, which must leave room.
#![tactic(auto)]

ghost use Rattle.std.specs.Prelude.{◌≡◌, map, ◌+◌, ◌≤◌, length, take};
ghost use Rattle.rules.specs.Numbers.{told_cost, told_entry};
ghost use Rattle.rules.specs.Printed.{lever_line, lever_lines};
ghost use Rattle.std.proofs.Math.Option.{some};
ghost use Rattle.splice.specs.Placed.{placed};
ghost use Rattle.program_lever_lines.specs.Pieces.{cost_word};

use rules::{Levers, Requirement};
use text::{put_byte, put_text, put_word, put_words};

// A space, and the cost at a boundary or a dash.
#[tactic(auto, unfolding(rules::specs::Printed::cost_text, rules::specs::Text::text, rules::specs::Text::spaced))]
fn put_cost(out: &mut [u8], at: usize, cost: Option<u64>) -> usize
    requires { at + 21 ≤ length out.old }
    ensures out_after { some (result, out.new) ≡ placed out.old at (cost_word (told_cost cost)) }
    ensures upper_bound { result ≤ at + 21 }
{
    match cost {
        None => put_text(out, at, b" -"),
        Some(microunits) => put_word(out, at, microunits),
    }
}

// The line of a lever.
pub fn put_lever_line(out: &mut [u8], at: usize, lever: Requirement) -> usize
    requires { at + 90 ≤ length out.old }
    ensures out_after { some (result, out.new) ≡ placed out.old at (lever_line (told_entry lever)) }
    ensures upper_bound { result ≤ at + 90 }
{
    let numbers = [lever.lever as u64, lever.current, lever.boundary];
    let named = put_text(out, at, b"lever");
    let next = put_words(out, named, &numbers);
    let end = put_cost(out, next, lever.cost_at_boundary_microunits);
    put_byte(out, end, b'\n')
}

// The lines of an answer's first levers.
pub fn put_lever_lines(out: &mut [u8], at: usize, levers: Levers) -> usize
    requires { at + 360 ≤ length out.old }
    ensures out_after { some (result, out.new) ≡ placed out.old at (lever_lines (take levers.count (map told_entry levers.levers))) }
    ensures upper_bound { result ≤ at + 360 }
{
    let count = levers.count.min(levers.levers.len());
    let mut next = at;
    for &lever in &levers.levers[..count] {
        next = put_lever_line(out, next, lever);
    }
    next
}
