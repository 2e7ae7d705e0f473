// For the library: what stands behind the exported functions that take a form apart, with policy and request as bytes. Each function takes
// the very slices of an exported one and answers its word: 0, or the refusal's.
#![tactic(auto)]

ghost use Rattle.std.specs.Prelude.{◌≡◌};
ghost use Rattle.rules.specs.Refused.{first_fault};
ghost use Rattle.export_checks.specs.Checks.{word_of};
ghost use Rattle.export_form_parts.specs.Parts.{read_stored_call, roomless_faults, read_request_call};

use endian_writing::put64;
use export_checks::{hand_bytes, refusal_word};
use packing::{input_bytes, policy_bytes};
use rules::Refusal;
use rules::limits::{LONGEST_POLICY_BYTES, REQUEST_BYTES};
use splice::put_bytes;
use stored::{read_request, read_stored};
use stored_fields::{ALLOWANCE_TAG, BANK_TAG, POLICY_TAG, ROUNDING_TAG};
use stored_layout::lay_out;

// The bytes of a policy, and of the length of its bank.
const STORED_BYTES: usize = 43;

// The word where a stored form's policy has no room: of the form's own fault, else of 4.
fn roomless(form: &[u8]) -> u64
    ensures { result ≡ word_of (first_fault (roomless_faults form.now)) }
{
    let tags = [POLICY_TAG, BANK_TAG, ROUNDING_TAG, ALLOWANCE_TAG];
    match lay_out(form, &tags) {
        Err(refusal) => refusal_word(refusal, 0),
        Ok(()) => refusal_word(Refusal::NoRoom, 0),
    }
}

// A stored form taken apart: the models' bytes in `bank`, the policy and the length of the bank in `out`. Where either is too short neither
// is written. Refused: 20 to 23 and 25 at each field in its turn, then 4.
pub fn stored_delivered(form: &[u8], bank: &mut [u8], out: &mut [u8]) -> u64
    ensures { ((result, out.new), bank.new) ≡ read_stored_call form.now bank.old out.old }
{
    if out.len() < STORED_BYTES {
        return roomless(form);
    }
    match read_stored(form, bank) {
        Err(refusal) => refusal_word(refusal, 0),
        Ok((policy, size)) => {
            put_bytes(out, 0, &policy_bytes(policy));
            put64(out, LONGEST_POLICY_BYTES, size as u64);
            0
        }
    }
}

// The request that a request form holds. Refused: 20 to 22, then 4.
pub fn request_delivered(form: &[u8], out: &mut [u8]) -> u64
    ensures { (result, out.new) ≡ read_request_call form.now out.old }
{
    match read_request(form) {
        Err(refusal) => refusal_word(refusal, 0),
        Ok(_) if out.len() < REQUEST_BYTES => refusal_word(Refusal::NoRoom, 0),
        Ok(input) => hand_bytes(out, &input_bytes(input)),
    }
}
