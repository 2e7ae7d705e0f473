// Where a record of a bank begins.
ghost use Rattle.std.specs.Prelude.{◌≡◌};
ghost use Rattle.export_forms.specs.Forms.{record_at_call};

use export_checks::{hand_u64, lent_outcome, refusal_word};
use rules::Refusal;
use rules::limits::RECORD_BYTES;

// An offset's bytes.
const OFFSET_BYTES: usize = 8;

// The offset of the record at a place, as a u64 at the start of `out`. Refused: 1, 2, 4, 8.
pub fn offset_delivered(bank: &[u8], place: u64, out: &mut [u8]) -> u64
    ensures { (result, out.new) ≡ record_at_call bank.now place out.old }
{
    if let Err(refusal) = lent_outcome(bank, OFFSET_BYTES, out.len()) {
        return refusal_word(refusal, 0);
    }
    let records = (bank.len() / RECORD_BYTES) as u64;
    if records <= place {
        return refusal_word(Refusal::BeyondBank, 0);
    }
    hand_u64(out, RECORD_BYTES as u64 * place)
}
