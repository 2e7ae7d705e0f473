// The calls that are tried, each on the first bytes of a buffer alone. What a call answers is told as a number of bytes,
// or as a refusal's number. A reader's answer is none where the policy or the request isn't the example's.
ghost use Rattle.std.specs.Prelude.{◌≤◌, length};

use crate::example::{AFTER_BANK, BANK, END, example};
use crate::parts::{policy, request};
use endian::u32_at;
use packing::{input_bytes, policy_bytes};
use rules::Rounding;
use rules::limits::{POLICY_BYTES, ROUNDED_POLICY_BYTES};
use stored::{read_request, read_stored, write_request, write_stored};

// Whether the bytes are those of a part of the example.
fn is_part(bytes: &[u8], start: usize, end: usize) -> bool
    requires { (start ≤ end) × (end ≤ 203) }
{
    let input = example();
    check::same(bytes, &input[start..end])
}

// Told as the bank's size, where the policy is the example's, rounds so, and has this allowance.
pub(crate) fn read_into(
    form: &[u8],
    rounding: Rounding,
    allowance: u32,
    out: &mut [u8],
    room: usize,
) -> Option<Result<usize, u8>>
    requires { room ≤ length out.old }
{
    let (policy, size) = match read_stored(form, &mut out[..room]) {
        Ok(read) => read,
        Err(refusal) => return Some(Err(refusal.number())),
    };
    let body = policy_bytes(policy);
    if body[POLICY_BYTES] != rounding.number() || u32_at(&body, ROUNDED_POLICY_BYTES) != allowance {
        return None;
    }
    is_part(&body[0..POLICY_BYTES], 3, BANK).then_some(Ok(size))
}

// Told as 0.
pub(crate) fn request_read(form: &[u8]) -> Option<Result<usize, u8>> {
    match read_request(form) {
        Ok(request) => is_part(&input_bytes(request), AFTER_BANK + 3, END).then_some(Ok(0)),
        Err(refusal) => Some(Err(refusal.number())),
    }
}

// The example's policy, rounding so and with an allowance, with a bank.
pub(crate) fn write_into(
    rounding: Rounding,
    allowance: u32,
    bank: &[u8],
    out: &mut [u8],
    room: usize,
) -> Result<usize, u8>
    requires { room ≤ length out.old }
{
    let written = write_stored(policy(rounding, allowance), bank, &mut out[..room]);
    written.map_err(|refusal| refusal.number())
}

// The example's request.
pub(crate) fn write_request_into(out: &mut [u8], room: usize) -> Result<usize, u8>
    requires { room ≤ length out.old }
{
    write_request(request(), &mut out[..room]).map_err(|refusal| refusal.number())
}
