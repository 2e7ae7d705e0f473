// The question from the desk: what would make a model win, in the unit program's lines, as a call on slices, `ask_text`, which asks nothing of
// its caller. `asked` is for other crates.
#![tactic(auto)]

ghost use Rattle.std.specs.Prelude.{◌≡◌, ◌≤◌, length};
ghost use Rattle.rules.specs.Refused.{answered, first_fault, refused, told_answer, told_outcome, unless};
ghost use Rattle.rules.specs.Numbers.{told_written, told_boundaries};
ghost use Rattle.rules.specs.Printed.{ask_faults, asked_of, ask_report, ask_text, print_of, print_buffer};
ghost use Rattle.program_deliver.specs.Sizes.{ask_bytes};
ghost use Rattle.std.proofs.Math.Option.{some};
ghost use Rattle.splice.specs.Placed.{placed};

use call_checks::listing::first_listed;
use counterfactual_win::what_would_win;
use program_deliver::deliver;
use program_deliver::sizes::ASK_BYTES;
use program_input::{bank_in, policy_in, program_outcome, request_in};
use program_lever_lines::put_lever_lines;
use program_lines::{put_decision, put_refused};
use rules::{Boundaries, Refusal};
use text::put_line;

// Whether the question is answered, and if not, why: 20 to 23 and 25, 19, validation, 3, and 5 last.
fn ask_outcome(input: &[u8], id: u32) -> Result<(), Refusal>
    ensures { told_outcome result ≡ first_fault (ask_faults id input.now) }
{
    program_outcome(input)?;
    match first_listed(bank_in(input), id) {
        Some(_) => Ok(()),
        None => Err(Refusal::UnknownModel),
    }
}

// What would make the model win.
pub fn asked(input: &[u8], id: u32) -> Result<Boundaries, Refusal>
    ensures { told_answer told_boundaries result ≡ unless (ask_faults id input.now) refused (answered (asked_of id input.now)) }
{
    ask_outcome(input, id)?;
    what_would_win(policy_in(input), bank_in(input), request_in(input), id)
}

// The decision, the levers that win, the passes.
fn put_asked(out: &mut [u8], asked: Boundaries) -> usize
    requires { ask_bytes ≤ length out.old }
    ensures { some (result, out.new) ≡ placed out.old 0 (ask_report (told_boundaries asked).decision (told_boundaries asked)) }
{
    let next = put_decision(out, 0, asked.decision);
    let end = put_lever_lines(out, next, asked.levers);
    put_line(out, end, b"passes", &[asked.levers.passes])
}

// The whole answer.
fn put_ask(out: &mut [u8], input: &[u8], id: u32) -> usize
    requires { ask_bytes ≤ length out.old }
    ensures { some (result, out.new) ≡ placed out.old 0 (ask_text id input.now) }
{
    match asked(input, id) {
        Ok(asked) => put_asked(out, asked),
        Err(refusal) => put_refused(out, 0, refusal),
    }
}

// What `ask ID` prints for an input, at the start of a buffer, whose other bytes stay. Bad input, or an id that isn't listed, gets the line
// of its refusal. Refused, with nothing written: 4.
pub fn ask_text(input: &[u8], id: u32, out: &mut [u8]) -> Result<usize, Refusal>
    ensures { (told_written result ≡ print_of (ask_text id input.now) (length out.old)) × (out.new ≡ print_buffer (ask_text id input.now) out.old) × (length (ask_text id input.now) ≤ ask_bytes) }
{
    let mut space = [0u8; ASK_BYTES];
    let end = put_ask(&mut space, input, id);
    deliver(&space[..end], out)
}
