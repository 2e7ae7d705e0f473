// What the unit's program prints, decision, counts and margin, as a call on slices: from the bytes of the input to the bytes of the answer. It
// asks nothing of its caller.
#![tactic(auto)]

ghost use Rattle.std.specs.Prelude.{◌≡◌, [], ◌≤◌, length};
ghost use Rattle.rules.specs.Records.{listed_of};
ghost use Rattle.rules.specs.Refused.{bank_faults};
ghost use Rattle.rules.specs.Numbers.{told_written};
ghost use Rattle.rules.specs.Printed.{unit_report, unit_text, print_of, print_buffer};
ghost use Rattle.program_deliver.specs.Sizes.{unit_bytes};
ghost use Rattle.std.proofs.Math.Option.{some};
ghost use Rattle.splice.specs.Placed.{placed};

use counterfactual_margin::decision_margin;
use kernel::prescribe_with_trace;
use program_deliver::deliver;
use program_deliver::sizes::UNIT_BYTES;
use program_input::{bank_in, policy_in, program_outcome, request_in};
use program_lever_lines::put_lever_lines;
use program_lines::{put_counts, put_decision, put_refused};
use rules::{KernelInput, PolicySnapshot, Refusal};

// The report over a bank of whole records.
fn put_report(out: &mut [u8], policy: PolicySnapshot, bank: &[u8], request: KernelInput) -> usize
    requires { (unit_bytes ≤ length out.old) × (bank_faults bank.now ≡ []) }
    ensures { some (result, out.new) ≡ placed out.old 0 (unit_report policy request (listed_of bank.now)) }
{
    let (decision, trace) = prescribe_with_trace(policy, bank, request).unwrap();
    let counts = put_decision(out, 0, decision);
    let next = put_counts(out, counts, trace.rejections);
    match decision_margin(policy, bank, request) {
        Ok(margin) => put_lever_lines(out, next, margin.levers),
        // A rejection has no margin.
        Err(_) => next,
    }
}

// The whole answer.
fn put_unit(out: &mut [u8], input: &[u8]) -> usize
    requires { unit_bytes ≤ length out.old }
    ensures { some (result, out.new) ≡ placed out.old 0 (unit_text input.now) }
{
    if let Err(refusal) = program_outcome(input) {
        return put_refused(out, 0, refusal);
    }
    put_report(out, policy_in(input), bank_in(input), request_in(input))
}

// What the unit's program prints for an input, at the start of a buffer, whose other bytes stay. Bad input gets the line of its refusal.
// Refused, with nothing written: 4, where the buffer has fewer than 840 bytes and the text more than the buffer.
pub fn unit_text(input: &[u8], out: &mut [u8]) -> Result<usize, Refusal>
    ensures { (told_written result ≡ print_of (unit_text input.now) (length out.old)) × (out.new ≡ print_buffer (unit_text input.now) out.old) × (length (unit_text input.now) ≤ unit_bytes) }
{
    let mut space = [0u8; UNIT_BYTES];
    let end = put_unit(&mut space, input);
    deliver(&space[..end], out)
}
