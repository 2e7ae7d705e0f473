// The exported batches: a row of requests decided in one call. Both rows are bytes with no gap between one and the next, 70 for a request and 65 for
// a decision. The count is lent beside the requests, so that a row of none is told from a length that was forgotten.
ghost use Rattle.std.specs.Prelude.{◌≡◌};
ghost use Rattle.export_batch.specs.Batches.{lent_row, batch_call, batch_checked_call};

use export_batch::{batch_checked_delivered, batch_delivered};

// The decision on each request, without its counts. `policy` is 30, 31 or 35 bytes, `requests` 70 for each of `count`, `bank` whole records, `out` has
// room for 65 for each. Refused: 22 for the requests' length, a count above 2^32 - 1 or the policy's length, 23 for the policy's 31st byte, then 1,
// 2, 4. Written, at 65 times a request's place: its decision, the first 65 bytes of `volankizo_prescribe`'s answer.
pub fn volankizo_prescribe_batch(
    policy: &[u8],
    requests: &[u8],
    count: u64,
    bank: &[u8],
    out: &mut [u8],
) -> u64
    ensures { (result, out.new) ≡ batch_call (lent_row policy.now requests.now count bank.now)
        out.old }
{
    batch_delivered(policy, requests, count, bank, out)
}

// The same, once all requests are tested. Refused: 22, 23, 1, 2, 4, then 3 with the place of the first bad request. Written: the same bytes, and none
// where a single request is refused.
pub fn volankizo_prescribe_batch_checked(
    policy: &[u8],
    requests: &[u8],
    count: u64,
    bank: &[u8],
    out: &mut [u8],
) -> u64
    ensures { (result, out.new) ≡ batch_checked_call (lent_row policy.now requests.now count bank.now)
        out.old }
{
    batch_checked_delivered(policy, requests, count, bank, out)
}
