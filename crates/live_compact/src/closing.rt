// Live records move down, one after the other, and what is left behind them is cleared. No byte is lost: a record's new slot is at or below its old one.
ghost use Rattle.std.specs.Prelude.{◌≡◌, ◌+◌, ◌*◌, ◌%◌, ◌≤◌, length};
ghost use Rattle.rules.specs.Limits.{record_bytes};
ghost use Rattle.rules.specs.Bytes.{filled};
ghost use Rattle.rules.specs.Records.{record_part};
ghost use Rattle.rules.specs.Numbers.{told_edited};
ghost use Rattle.rules.specs.Trust.{records_of, joined};
ghost use Rattle.rules.specs.Slots.{live_slots};
ghost use Rattle.rules.specs.Edits.{compacted, compact_of, compact_bank};
ghost use Rattle.endian_writing.specs.Put.{patched};

use live_edits::epoch::{raised, spent_outcome};
use live_slots::slots::read_slots;
use rules::limits::RECORD_BYTES;
use rules::{PolicySnapshot, Refusal};
use sorting::insertion::id_at;

// The id of a free slot.
const FREE: u32 = 0;

// The record at one place written over the one at another.
fn moved(bank: &mut [u8], from: usize, to: usize)
    requires { (record_bytes * from + record_bytes ≤ length bank.old) × (to ≤ from) }
    ensures { bank.new ≡ patched bank.old (record_bytes * to) (record_part bank.old from) }
{
    // Held in between, so that the copies have a length known early; `copy_within` takes some three times the instructions.
    if to < from {
        let at = RECORD_BYTES * from;
        let bytes: [u8; RECORD_BYTES] = bank[at..at + RECORD_BYTES].try_into().unwrap();
        let start = RECORD_BYTES * to;
        bank[start..start + RECORD_BYTES].copy_from_slice(&bytes);
    }
}

// The live records at the front, in their order; what stands behind them is as it was. How many there are.
fn closed(bank: &mut [u8]) -> usize
    requires { length bank.old % record_bytes ≡ 0 }
    ensures live { result ≡ length (live_slots (records_of bank.old)) }
    ensures exit { bank.new ≡ filled (joined (live_slots (records_of bank.old))) bank.old }
{
    let mut live = 0;
    for i in 0..bank.len() / RECORD_BYTES {
        if id_at(bank, i) != FREE {
            moved(bank, i, live);
            live += 1;
        }
    }
    live
}

// The gaps closed: the live records in their order, then free slots.
fn close(bank: &mut [u8])
    requires { length bank.old % record_bytes ≡ 0 }
    ensures { bank.new ≡ compacted bank.old }
{
    let live = closed(bank);
    bank[RECORD_BYTES * live..].fill(0);
}

// `compact`: the gaps closed, the order kept, and how many records are live. Refused: 1, 2, 34, 27.
pub fn compact(policy: PolicySnapshot, bank: &mut [u8]) -> Result<(PolicySnapshot, u16), Refusal>
    ensures answer { told_edited result ≡ compact_of policy bank.old }
    ensures exit { bank.new ≡ compact_bank policy bank.old }
{
    let live = read_slots(bank)?;
    spent_outcome(policy)?;
    close(bank);
    Ok((raised(policy), live))
}
