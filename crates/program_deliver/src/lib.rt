// For other crates: a text that is made, handed over; where it ends. `sizes` has the rooms that suffice.
#![tactic(auto)]

pub mod sizes;

ghost use Rattle.std.specs.Prelude.{◌≡◌, length};
ghost use Rattle.rules.specs.Numbers.{told_written};
ghost use Rattle.rules.specs.Printed.{print_of, print_buffer};
ghost use Rattle.program_deliver.specs.Ends.{end_of};

use rules::Refusal;
use splice::put_bytes;

// Copies a text to the start of a buffer, whose other bytes stay. Refused: 4.
pub fn deliver(text: &[u8], out: &mut [u8]) -> Result<usize, Refusal>
    ensures { (told_written result ≡ print_of text.now (length out.old)) × (out.new ≡ print_buffer text.now out.old) }
{
    if out.len() < text.len() {
        return Err(Refusal::NoRoom);
    }
    put_bytes(out, 0, text);
    Ok(text.len())
}

// Where a text that was printed ends. A text that fits is never refused.
#[tactic(auto, unfolding(crate::specs::Ends::end_of))]
pub fn end_of(written: Result<usize, Refusal>) -> usize
    ensures { result ≡ end_of (told_written written) }
{
    written.unwrap_or(0)
}
