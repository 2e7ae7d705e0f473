// For the library: what stands behind the exported functions that edit a bank. Each function takes the very slices of an exported one and answers
// its word: 0, or the refusal's. What is lent is tested before the edit, which tests the bank again: an edit is rare.
#![tactic(auto)]

ghost use Rattle.std.specs.Prelude.{◌≡◌, ◌≤◌, [], length};
ghost use Rattle.rules.specs.Limits.{policy_bytes};
ghost use Rattle.rules.specs.Refused.{first_fault, told_outcome};
ghost use Rattle.rules.specs.Numbers.{told_edited};
ghost use Rattle.rules.specs.Edits.{offered};
ghost use Rattle.export_checks.specs.Checks.{handed};
ghost use Rattle.export_edits.specs.Edits.{stock, stock_faults, slot_size, slot_bytes, policy_after, add_call, replace_call, remove_call, compact_call};

use bank::unchecked::policy_of;
use endian_writing::{put16, put64};
use export_checks::refusal_word;
use export_live_checks::live_policy_outcome;
use live_compact::compact;
use live_edits::{add, remove, replace};
use rules::limits::RECORD_BYTES;
use rules::{PolicySnapshot, Refusal};

// The bytes of a slot's number, or of how many records are live.
const SLOT_BYTES: usize = 2;

// Where a policy's catalogue epoch begins.
const EPOCH_START: usize = 8;

// 22 or 23 for the policy, then 1, 2, 34 and 4.
fn stock_outcome(policy: &[u8], bank: &[u8], room: usize) -> Result<(), Refusal>
    ensures { told_outcome result ≡ first_fault (stock_faults (stock policy.now bank.now) room) }
{
    live_policy_outcome(policy, bank, SLOT_BYTES, room)?;
    Ok(())
}

// 22 for a record that is offered, then the same.
fn offered_outcome(policy: &[u8], bank: &[u8], bytes: &[u8], room: usize) -> Result<(), Refusal>
    ensures { told_outcome result ≡ first_fault (offered bytes.now (stock_faults (stock policy.now bank.now) room)) }
{
    if bytes.len() != RECORD_BYTES {
        return Err(Refusal::WrongLength);
    }
    stock_outcome(policy, bank, room)
}

// What an edit answers, where it has room: the raised epoch goes into the policy, and the slot, or how many records are live, to `out`.
fn edited_handed(
    edited: Result<(PolicySnapshot, u16), Refusal>,
    policy: &mut [u8],
    out: &mut [u8],
) -> u64
    requires { (policy_bytes ≤ length policy.old) × (slot_size ≤ length out.old) }
    ensures answer { (result, out.new) ≡ handed slot_bytes [] (told_edited edited) out.old }
    ensures epoch { policy.new ≡ policy_after (told_edited edited) policy.old }
{
    match edited {
        Err(refusal) => refusal_word(refusal, 0),
        Ok((raised, number)) => {
            put64(policy, EPOCH_START, raised.catalog_epoch);
            put16(out, 0, number);
            0
        }
    }
}

// A record added to the lowest free slot. Refused: 22 for the record, 22, 23, 1, 2, 34, 4, 16, 27, 12, 28.
pub fn add_delivered(policy: &mut [u8], bank: &mut [u8], bytes: &[u8], out: &mut [u8]) -> u64
    ensures { ((result, out.new), stock policy.new bank.new) ≡ add_call (stock policy.old bank.old)
        bytes.now out.old }
{
    if let Err(refusal) = offered_outcome(policy, bank, bytes, out.len()) {
        return refusal_word(refusal, 0);
    }
    let edited = add(policy_of(policy), bank, bytes);
    edited_handed(edited, policy, out)
}

// The first live record with a record's id replaced by it. Refused: 22 for the record, 22, 23, 1, 2, 34, 4, 16, 27, 5.
pub fn replace_delivered(policy: &mut [u8], bank: &mut [u8], bytes: &[u8], out: &mut [u8]) -> u64
    ensures { ((result, out.new), stock policy.new bank.new) ≡ replace_call (stock policy.old bank.old)
        bytes.now out.old }
{
    if let Err(refusal) = offered_outcome(policy, bank, bytes, out.len()) {
        return refusal_word(refusal, 0);
    }
    let edited = replace(policy_of(policy), bank, bytes);
    edited_handed(edited, policy, out)
}

// The slot of the first live record with an id set free. Refused: 22, 23, 1, 2, 34, 4, 16, 27, 5.
pub fn remove_delivered(policy: &mut [u8], bank: &mut [u8], id: u32, out: &mut [u8]) -> u64
    ensures { ((result, out.new), stock policy.new bank.new) ≡ remove_call (stock policy.old bank.old) id
        out.old }
{
    if let Err(refusal) = stock_outcome(policy, bank, out.len()) {
        return refusal_word(refusal, 0);
    }
    let edited = remove(policy_of(policy), bank, id);
    edited_handed(edited, policy, out)
}

// The gaps closed. Refused: 22, 23, 1, 2, 34, 4, 27.
pub fn compact_delivered(policy: &mut [u8], bank: &mut [u8], out: &mut [u8]) -> u64
    ensures { ((result, out.new), stock policy.new bank.new) ≡ compact_call (stock policy.old bank.old)
        out.old }
{
    if let Err(refusal) = stock_outcome(policy, bank, out.len()) {
        return refusal_word(refusal, 0);
    }
    let edited = compact(policy_of(policy), bank);
    edited_handed(edited, policy, out)
}
