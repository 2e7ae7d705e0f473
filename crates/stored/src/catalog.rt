// The stored form of a policy with its bank: tag 1, tag 2, tag 4 where the policy rounds once, tag 5 where it has an allowance, the end.
ghost use Rattle.std.specs.Prelude.{◌≡◌, ◌+◌, ◌≤◌, length};
ghost use Rattle.std.proofs.Math.Option.{some};
ghost use Rattle.rules.specs.Refused.{first_fault, told_outcome};
ghost use Rattle.rules.specs.Numbers.{told_stored, told_written};
ghost use Rattle.rules.specs.Stored.{rounding_field, allowance_field, write_stored_of, write_stored_buffer, read_stored_of, read_stored_buffer};
ghost use Rattle.splice.specs.Placed.{placed};
ghost use Rattle.stored.specs.Writing.{rounding_size, allowance_size, writing_faults};

use call_checks::refuse::bank_outcome;
use packing::policy_number_bytes;
use rules::limits::{FIELD_HEADER_BYTES, MAX_STORED_MODELS, POLICY_BYTES, RECORD_BYTES};
use rules::{PolicySnapshot, Refusal, Rounding};
use splice::put_bytes;
use stored_fields::{
    ALLOWANCE_BYTES, ALLOWANCE_TAG, BANK_TAG, POLICY_TAG, ROUNDING_BYTES, ROUNDING_ONCE,
    ROUNDING_TAG,
};
use stored_layout::{after_front, front_body, lay_out, policy_in, put_field};

// How many bytes tell in a stored form that its policy rounds so.
fn rounding_size(rounding: Rounding) -> usize
    ensures { result ≡ rounding_size rounding }
{
    match rounding {
        Rounding::Apart => 0,
        Rounding::Once => FIELD_HEADER_BYTES + ROUNDING_BYTES,
    }
}

// How many bytes tell its allowance.
#[tactic(auto, unfolding(rules::specs::Choice::equal))]
fn allowance_size(allowance: u32) -> usize
    ensures { result ≡ allowance_size allowance }
{
    if allowance == 0 {
        return 0;
    }
    FIELD_HEADER_BYTES + ALLOWANCE_BYTES
}

// Whether a bank of so many bytes can be written into so much room, under a policy that rounds so and has this allowance, and if not, why.
fn writing(rounding: Rounding, allowance: u32, length: usize, room: usize) -> Result<(), Refusal>
    ensures { told_outcome result ≡ first_fault (writing_faults rounding allowance length room) }
{
    bank_outcome(length)?;
    let fields = FIELD_HEADER_BYTES + POLICY_BYTES + (FIELD_HEADER_BYTES + length);
    let needed = fields + rounding_size(rounding) + allowance_size(allowance);
    if MAX_STORED_MODELS < length / RECORD_BYTES {
        return Err(Refusal::TooManyToStore);
    }
    if room < needed {
        return Err(Refusal::NoRoom);
    }
    Ok(())
}

// Puts tag 4 for rounding once, and nothing for rounding apart; answers the position after it.
fn put_rounding(out: &mut [u8], at: usize, rounding: Rounding) -> usize
    requires { at + rounding_size rounding ≤ length out.old }
    ensures { some (result, out.new) ≡ placed out.old at (rounding_field rounding) }
{
    match rounding {
        Rounding::Apart => at,
        Rounding::Once => put_field(out, at, ROUNDING_TAG, &[ROUNDING_ONCE]),
    }
}

// Puts tag 5 for an allowance, and nothing where there is none; answers the position after it.
fn put_allowance(out: &mut [u8], at: usize, allowance: u32) -> usize
    requires { at + allowance_size allowance ≤ length out.old }
    ensures { some (result, out.new) ≡ placed out.old at (allowance_field allowance) }
{
    if allowance == 0 {
        return at;
    }
    put_field(out, at, ALLOWANCE_TAG, &allowance.to_le_bytes())
}

// Writes a policy with its bank to the start of a buffer, whose other bytes stay. Refused: 1, 2, 18, 4.
pub fn write_stored(policy: PolicySnapshot, bank: &[u8], out: &mut [u8]) -> Result<usize, Refusal>
    ensures { (told_written result ≡ write_stored_of policy bank.now (length out.old)) × (out.new ≡ write_stored_buffer policy bank.now out.old) }
{
    let rounding = policy.rounding;
    let allowance = policy.latency_allowance_ms;
    writing(rounding, allowance, bank.len(), out.len())?;
    let next = put_field(out, 0, POLICY_TAG, &policy_number_bytes(policy));
    let after = put_field(out, next, BANK_TAG, bank);
    let rounded = put_rounding(out, after, rounding);
    Ok(put_allowance(out, rounded, allowance))
}

// Reads a policy with its bank. The models' bytes go to the start of a buffer, whose other bytes stay; none is copied before the form's end
// was seen. Refused: 20 to 23 and 25 at each field in its turn, then 4.
pub fn read_stored(form: &[u8], buffer: &mut [u8]) -> Result<(PolicySnapshot, usize), Refusal>
    ensures { (told_stored result ≡ read_stored_of form.now (length buffer.old)) × (buffer.new ≡ read_stored_buffer form.now buffer.old) }
{
    let tags = [POLICY_TAG, BANK_TAG, ROUNDING_TAG, ALLOWANCE_TAG];
    lay_out(form, &tags)?;
    let bank = front_body(after_front(form));
    if buffer.len() < bank.len() {
        return Err(Refusal::NoRoom);
    }
    put_bytes(buffer, 0, bank);
    Ok((policy_in(form), bank.len()))
}
