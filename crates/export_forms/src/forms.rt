// The stored form of a policy with its bank, and the request form, with policy and request as bytes.
ghost use Rattle.std.specs.Prelude.{◌≡◌};
ghost use Rattle.rules.specs.Numbers.{told_written};
ghost use Rattle.export_forms.specs.Forms.{write_stored_call, write_request_call, written_word};

use bank::unchecked::{input_of, policy_of};
use export_checks::refusal_word;
use rules::Refusal;
use rules::limits::REQUEST_BYTES;
use stored::{write_request, write_stored};
use unpacking_policy::policy_lent_outcome;

// The word of a form that was written: the refusal's, or 0.
fn written_word(written: Result<usize, Refusal>) -> u64
    ensures { result ≡ written_word (told_written written) }
{
    match written {
        Ok(_) => 0,
        Err(refusal) => refusal_word(refusal, 0),
    }
}

// The stored form of a policy with its bank. Refused: 22, 23, 1, 2, 18, 4.
pub fn stored_form_delivered(policy: &[u8], bank: &[u8], out: &mut [u8]) -> u64
    ensures { (result, out.new) ≡ write_stored_call policy.now bank.now out.old }
{
    if let Err(refusal) = policy_lent_outcome(policy) {
        return refusal_word(refusal, 0);
    }
    written_word(write_stored(policy_of(policy), bank, out))
}

// The request form. Refused: 22, 4.
pub fn request_form_delivered(request: &[u8], out: &mut [u8]) -> u64
    ensures { (result, out.new) ≡ write_request_call request.now out.old }
{
    if request.len() != REQUEST_BYTES {
        return refusal_word(Refusal::WrongLength, 0);
    }
    written_word(write_request(input_of(request), out))
}
