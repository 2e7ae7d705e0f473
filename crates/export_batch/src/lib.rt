// For the library: what stands behind the exported batches. A row of requests is bytes, 70 for each, and so is the row of decisions, 65 for each:
// both are walked in place, and nothing is copied but one request and one decision at a time.
#![tactic(auto)]

mod refuse;
mod row;

ghost use Rattle.std.specs.Prelude.{◌≡◌, [], length};
ghost use Rattle.rules.specs.Listing.{every_record};
ghost use Rattle.export_batch.specs.Batches.{lent_row, batch_call_faults, row_delivered, batch_call, batch_checked_call};

use crate::refuse::{bad_word, row_outcome};
use crate::row::put_decisions;
use bank::unchecked::policy_of;
use export_checks::refusal_word;
use rules::limits::RECORD_BYTES;

// Each request's decision at the start of `out`, and 0, where the tests passed.
fn row_delivered(policy: &[u8], requests: &[u8], count: u64, bank: &[u8], out: &mut [u8]) -> u64
    requires { batch_call_faults (lent_row policy.now requests.now count bank.now) (every_record bank.now) (length out.old) ≡ [] }
    ensures { (result, out.new) ≡ row_delivered (lent_row policy.now requests.now count bank.now)
        (every_record bank.now) out.old }
{
    let every = (bank.len() / RECORD_BYTES) as u16;
    put_decisions(
        policy_of(policy),
        requests,
        count as usize,
        bank,
        every,
        out,
    );
    0
}

// Each request's decision, in the order of the requests, at the start of `out`. Refused: 22, 23, 1, 2, 4.
pub fn batch_delivered(
    policy: &[u8],
    requests: &[u8],
    count: u64,
    bank: &[u8],
    out: &mut [u8],
) -> u64
    ensures { (result, out.new) ≡ batch_call (lent_row policy.now requests.now count bank.now)
        out.old }
{
    if let Err(refusal) = row_outcome(policy, requests, count, bank, out.len()) {
        return refusal_word(refusal, 0);
    }
    row_delivered(policy, requests, count, bank, out)
}

// The same, once all requests are tested. Refused: 22, 23, 1, 2, 4, 3.
pub fn batch_checked_delivered(
    policy: &[u8],
    requests: &[u8],
    count: u64,
    bank: &[u8],
    out: &mut [u8],
) -> u64
    ensures { (result, out.new) ≡ batch_checked_call (lent_row policy.now requests.now count bank.now)
        out.old }
{
    if let Err(refusal) = row_outcome(policy, requests, count, bank, out.len()) {
        return refusal_word(refusal, 0);
    }
    if let Some(word) = bad_word(requests, count as usize) {
        return word;
    }
    row_delivered(policy, requests, count, bank, out)
}
