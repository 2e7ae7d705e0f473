// The slot that an edit writes, and what refuses the edit before it is written.
ghost use Rattle.std.specs.Prelude.{◌≡◌, ◌≤◌, length};
ghost use Rattle.rules.specs.Limits.{max_catalog_models};
ghost use Rattle.rules.specs.Records.{records_in};
ghost use Rattle.rules.specs.Refused.{told_outcome, first_fault};
ghost use Rattle.rules.specs.Slots.{slot_with};
ghost use Rattle.rules.specs.Edits.{offered_faults, there_faults, edit_faults, add_faults, slot_to_remove};
ghost use Rattle.live_edits.specs.Placing.{told_slot, slot_to_take};

use crate::epoch::spent_outcome;
use call_checks::listing::first_listed;
use live_slots::slots::{first_live, read_slots};
use rules::{PolicySnapshot, Refusal};

// 16 where the id is 0.
#[tactic(auto, unfolding(rules::specs::Edits::offered_faults, rules::specs::Refused::first_fault, rules::specs::Refused::told_outcome))]
fn offered_outcome(id: u32) -> Result<(), Refusal>
    ensures { told_outcome result ≡ first_fault (offered_faults id) }
{
    if id == 0 {
        return Err(Refusal::ReservedModelId);
    }
    Ok(())
}

// 12 where a live record has the id.
fn there_outcome(bank: &[u8], id: u32) -> Result<(), Refusal>
    requires { records_in (length bank.now) ≤ max_catalog_models }
    ensures { told_outcome result ≡ first_fault (there_faults id (slot_with id bank.now)) }
{
    match first_live(bank, id) {
        Some(_) => Err(Refusal::DuplicateModelId { model_id: id }),
        None => Ok(()),
    }
}

// What refuses an edit with an id: 1, 2, 34, 16, 27.
fn edit_outcome(policy: PolicySnapshot, bank: &[u8], id: u32) -> Result<(), Refusal>
    ensures { told_outcome result ≡ first_fault (edit_faults policy bank.now id) }
{
    read_slots(bank)?;
    offered_outcome(id)?;
    spent_outcome(policy)
}

// What refuses one that adds: then 12.
fn add_outcome(policy: PolicySnapshot, bank: &[u8], id: u32) -> Result<(), Refusal>
    ensures { told_outcome result ≡ first_fault (add_faults policy bank.now id) }
{
    edit_outcome(policy, bank, id)?;
    there_outcome(bank, id)
}

// Where a record with an id is added: the lowest free slot. Refused: 1, 2, 34, 16, 27, 12, 28.
pub fn slot_to_add(policy: PolicySnapshot, bank: &[u8], id: u32) -> Result<u16, Refusal>
    ensures { told_slot result ≡ slot_to_take policy bank.now id }
{
    add_outcome(policy, bank, id)?;
    first_listed(bank, 0).ok_or(Refusal::NoFreeSlot)
}

// Where the first live record with an id stands. Refused: 1, 2, 34, 16, 27, 5.
pub fn slot_of_id(policy: PolicySnapshot, bank: &[u8], id: u32) -> Result<u16, Refusal>
    ensures { told_slot result ≡ slot_to_remove policy bank.now id }
{
    edit_outcome(policy, bank, id)?;
    first_live(bank, id).ok_or(Refusal::UnknownModel)
}
