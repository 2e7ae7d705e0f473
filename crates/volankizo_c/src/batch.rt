// Rows of decisions.

ghost use Rattle.std.specs.Prelude.{◌≡◌};
ghost use Rattle.export_batch.specs.Batches.{lent_row, batch_call, batch_checked_call};

#[unsafe(no_mangle)]
pub extern "C" fn volankizo_prescribe_batch(
    policy: &[u8],
    requests: &[u8],
    count: u64,
    bank: &[u8],
    out: &mut [u8],
) -> u64
    ensures { (result, out.new) ≡ batch_call (lent_row policy.now requests.now count bank.now)
        out.old }
{
    volankizo::volankizo_prescribe_batch(policy, requests, count, bank, out)
}

#[unsafe(no_mangle)]
pub extern "C" fn volankizo_prescribe_batch_checked(
    policy: &[u8],
    requests: &[u8],
    count: u64,
    bank: &[u8],
    out: &mut [u8],
) -> u64
    ensures { (result, out.new) ≡ batch_checked_call (lent_row policy.now requests.now count bank.now)
        out.old }
{
    volankizo::volankizo_prescribe_batch_checked(policy, requests, count, bank, out)
}
