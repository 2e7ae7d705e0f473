// The edits: each finds its slot first, and then writes 47 bytes there. A refused one changes no byte.
ghost use Rattle.std.specs.Prelude.{◌≡◌, length};
ghost use Rattle.rules.specs.Limits.{record_bytes};
ghost use Rattle.rules.specs.Numbers.{told_edited};
ghost use Rattle.rules.specs.Refused.{answered};
ghost use Rattle.rules.specs.Edits.{raised_of, written_at, add_of, add_bank, replace_of, replace_bank, remove_of, remove_bank};
ghost use Rattle.live_edits.specs.Placing.{Writable};

use crate::epoch::raised;
use crate::placing::{slot_of_id, slot_to_add};
use endian::u32_at;
use rules::limits::RECORD_BYTES;
use rules::{PolicySnapshot, Refusal};
use splice::put_bytes;

// The bytes written at a slot, and the epoch raised.
fn written(
    slot: u16,
    policy: PolicySnapshot,
    bank: &mut [u8],
    bytes: &[u8],
) -> (PolicySnapshot, u16)
    requires writable { Writable (answered slot) policy bank.old }
    requires bytes_len { length bytes.now ≡ record_bytes }
    ensures answer { result ≡ (raised_of policy, slot) }
    ensures exit { bank.new ≡ written_at (answered slot) bytes.now bank.old }
{
    let at = RECORD_BYTES * usize::from(slot);
    put_bytes(bank, at, bytes);
    (raised(policy), slot)
}

// `add`: the record in the lowest free slot. Refused: 22, 1, 2, 34, 16, 27, 12, 28.
pub fn add(
    policy: PolicySnapshot,
    bank: &mut [u8],
    bytes: &[u8],
) -> Result<(PolicySnapshot, u16), Refusal>
    ensures answer { told_edited result ≡ add_of policy bank.old bytes.now }
    ensures exit { bank.new ≡ add_bank policy bank.old bytes.now }
{
    if bytes.len() != RECORD_BYTES {
        return Err(Refusal::WrongLength);
    }
    let slot = slot_to_add(policy, bank, u32_at(bytes, 0))?;
    Ok(written(slot, policy, bank, bytes))
}

// `replace`: the record in the stead of the first live one with its id. Refused: 22, 1, 2, 34, 16, 27, 5.
pub fn replace(
    policy: PolicySnapshot,
    bank: &mut [u8],
    bytes: &[u8],
) -> Result<(PolicySnapshot, u16), Refusal>
    ensures answer { told_edited result ≡ replace_of policy bank.old bytes.now }
    ensures exit { bank.new ≡ replace_bank policy bank.old bytes.now }
{
    if bytes.len() != RECORD_BYTES {
        return Err(Refusal::WrongLength);
    }
    let slot = slot_of_id(policy, bank, u32_at(bytes, 0))?;
    Ok(written(slot, policy, bank, bytes))
}

// `remove`: the slot of the first live record with an id is free. Refused: 1, 2, 34, 16, 27, 5.
pub fn remove(
    policy: PolicySnapshot,
    bank: &mut [u8],
    id: u32,
) -> Result<(PolicySnapshot, u16), Refusal>
    ensures answer { told_edited result ≡ remove_of policy bank.old id }
    ensures exit { bank.new ≡ remove_bank policy bank.old id }
{
    let slot = slot_of_id(policy, bank, id)?;
    Ok(written(slot, policy, bank, &[0u8; RECORD_BYTES]))
}
