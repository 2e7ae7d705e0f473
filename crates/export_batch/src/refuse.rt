// What refuses a batch: the lengths of what comes in, how the policy rounds, the bank, the room for the decisions; then the requests.
ghost use Rattle.std.specs.Prelude.{Some, None, ◌≡◌, ◌*◌, ◌≤◌, length};
ghost use Rattle.rules.specs.Limits.{request_bytes, max_u32};
ghost use Rattle.rules.specs.Refused.{first_fault, told_outcome, unless};
ghost use Rattle.rules.specs.Listing.{every_record};
ghost use Rattle.rules.specs.Batch.{requests_faults};
ghost use Rattle.export_checks.specs.Checks.{word_at};
ghost use Rattle.export_batch.specs.Batches.{lent_row, requests_from, row_size_faults, batch_call_faults};

use crate::row::input_at;
use call_checks::refuse::input_outcome;
use export_checks::{lent_outcome, refusal_word};
use export_decision_bytes::UNCOUNTED_BYTES;
use rules::Refusal;
use rules::limits::REQUEST_BYTES;
use unpacking_policy::policy_lent_outcome;

// The most requests of a batch: a refusal's word has 32 bits for the place of one.
const MAX_REQUESTS: u64 = 4_294_967_295;

// 22 unless so many bytes are those of so many requests. The count is tested first, so that the product stays within 64 bits.
#[tactic(auto, unfolding(crate::specs::Batches::row_size_faults, rules::specs::Refused::size_faults, rules::specs::Refused::first_fault, rules::specs::Refused::told_outcome))]
fn row_size_outcome(size: usize, count: u64) -> Result<(), Refusal>
    ensures { told_outcome result ≡ first_fault (row_size_faults size count) }
{
    if MAX_REQUESTS < count || size != REQUEST_BYTES * (count as usize) {
        return Err(Refusal::WrongLength);
    }
    Ok(())
}

// 22 for the requests or the policy, 23, then 1, 2, and 4 where fewer decisions than requests have room.
pub fn row_outcome(
    policy: &[u8],
    requests: &[u8],
    count: u64,
    bank: &[u8],
    room: usize,
) -> Result<(), Refusal>
    ensures { told_outcome result ≡ first_fault (batch_call_faults (lent_row policy.now requests.now count bank.now)
        (every_record bank.now) room) }
{
    row_size_outcome(requests.len(), count)?;
    policy_lent_outcome(policy)?;
    lent_outcome(bank, count as usize, room / UNCOUNTED_BYTES)
}

// The word of the first request with a field above 10,000, with its place.
pub fn bad_word(requests: &[u8], count: usize) -> Option<u64>
    requires { (request_bytes * count ≤ length requests.now) × (count ≤ max_u32) }
    ensures { result ≡ unless (requests_faults 0 (requests_from requests.now 0 count)) (λ f. Some (word_at f.place f)) None }
{
    for i in 0..count {
        if let Err(refusal) = input_outcome(input_at(requests, i), i) {
            return Some(refusal_word(refusal, i as u32));
        }
    }
    None
}
