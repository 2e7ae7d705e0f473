// The exported functions for a bank whose models are swapped. Each of its slots holds a live record, or is free: 47 bytes of 0. A slot with id 0 and
// another byte set is refused, 34. The calls that decide, explain and look up run over the live records alone, as if the bank listed nothing
// else, with the slot as place; `volankizo_next_eligible` walks their lists too. The edits go by a record's id: each that succeeds, and each
// compaction, raises the policy's catalogue epoch by one, and writes no other byte of the policy. A refused edit writes nothing.
ghost use Rattle.std.specs.Prelude.{◌≡◌};
ghost use Rattle.export_checks.specs.Checks.{lent};
ghost use Rattle.export_live_calls.specs.LiveCalls.{live_prescribe_call, live_prescribe_checked_call, live_explain_call};
ghost use Rattle.export_live_lookups.specs.LiveLookups.{live_find_call, live_utility_call};
ghost use Rattle.export_live_bounds.specs.LiveBounds.{live_win_call, live_margin_call};
ghost use Rattle.export_edits.specs.Edits.{stock, add_call, replace_call, remove_call, compact_call};

use export_edits::{add_delivered, compact_delivered, remove_delivered, replace_delivered};
use export_live_bounds::{live_margin_delivered, live_win_delivered};
use export_live_calls::{
    live_explain_delivered, live_prescribe_checked_delivered, live_prescribe_delivered,
};
use export_live_lookups::{live_find_delivered, live_utility_delivered};

// The decision over the live records with its nine counts. `policy` is 30, 31 or 35 bytes, `request` 70, `bank` whole slots, `out` has room for 83.
// Refused: 22 for the policy's or the request's length, 23 for the policy's 31st byte, then 1, 2, 34, 4. Written: 83 bytes as by
// `volankizo_prescribe`; the place is the slot, and evaluated counts the live records.
pub fn volankizo_live_prescribe(policy: &[u8], request: &[u8], bank: &[u8], out: &mut [u8]) -> u64
    ensures { (result, out.new) ≡ live_prescribe_call (lent policy.now request.now bank.now) out.old }
{
    live_prescribe_delivered(policy, request, bank, out)
}

// The same, after the request check. `policy` is 30, 31 or 35 bytes, `request` 70, `bank` whole slots, `out` has room for 83.
// Refused: 22, 23, 1, 2, 34, 4, then 3. Written: the same 83 bytes.
pub fn volankizo_live_prescribe_checked(
    policy: &[u8],
    request: &[u8],
    bank: &[u8],
    out: &mut [u8],
) -> u64
    ensures { (result, out.new) ≡ live_prescribe_checked_call (lent policy.now request.now bank.now)
        out.old }
{
    live_prescribe_checked_delivered(policy, request, bank, out)
}

// The decision, and what every live record is told. `policy` is 30, 31 or 35 bytes, `request` 70, `bank` whole slots, `list` has room for 72 bytes
// for each live record, or none where the request is stopped, `out` for 65. Refused: 22, 23, 1, 2, 34, then 4 for `out` or `list`.
// Written: `out` and `list` as by `volankizo_explain`, an entry for each live record with no gap between them, its slot as place.
pub fn volankizo_live_explain(
    policy: &[u8],
    request: &[u8],
    bank: &[u8],
    list: &mut [u8],
    out: &mut [u8],
) -> u64
    ensures { ((result, out.new), list.new) ≡ live_explain_call (lent policy.now request.now bank.now)
        list.old out.old }
{
    live_explain_delivered(policy, request, bank, list, out)
}

// The slot of the first live record with an id. `bank` is whole slots, `out` has room for 2. Refused: 1, 2, 34, 4.
// Written: 2 bytes, the slot as a u16, or 65,535 where no live record has the id, as none has id 0.
pub fn volankizo_live_find(bank: &[u8], id: u32, out: &mut [u8]) -> u64
    ensures { (result, out.new) ≡ live_find_call bank.now id out.old }
{
    live_find_delivered(bank, id, out)
}

// The utility of the first live model with an id. `policy` is 30, 31 or 35 bytes, `request` 70, `bank` whole slots, `out` has room for 8.
// Refused: 22, 23, 1, 2, 34, 4, then 7 where the request is stopped, no live record has the id, or that model isn't eligible.
// Written: 8 bytes, the utility as an i64.
pub fn volankizo_live_utility_for_model(
    policy: &[u8],
    request: &[u8],
    bank: &[u8],
    id: u32,
    out: &mut [u8],
) -> u64
    ensures { (result, out.new) ≡ live_utility_call (lent policy.now request.now bank.now) id out.old }
{
    live_utility_delivered(policy, request, bank, id, out)
}

// For a live model that wasn't selected, the smallest change of one lever after which it is. `policy` is 30, 31 or 35 bytes, `request` 70, `bank`
// whole slots, `out` has room for 183. Refused: 22, 23, 1, 2, 34, 4, then 5 where no live record has the id, as none has id 0.
// Written: 183 bytes as by `volankizo_what_would_win`.
pub fn volankizo_live_what_would_win(
    policy: &[u8],
    request: &[u8],
    bank: &[u8],
    id: u32,
    out: &mut [u8],
) -> u64
    ensures { (result, out.new) ≡ live_win_call (lent policy.now request.now bank.now) id out.old }
{
    live_win_delivered(policy, request, bank, id, out)
}

// For the live model that was selected, how far each of its levers can move before it isn't. `policy` is 30, 31 or 35 bytes, `request` 70, `bank`
// whole slots, `out` has room for 183. Refused: 22, 23, 1, 2, 34, 4, then 6 where the decision is a rejection. Written: the same 183 bytes.
pub fn volankizo_live_decision_margin(
    policy: &[u8],
    request: &[u8],
    bank: &[u8],
    out: &mut [u8],
) -> u64
    ensures { (result, out.new) ≡ live_margin_call (lent policy.now request.now bank.now) out.old }
{
    live_margin_delivered(policy, request, bank, out)
}

// Adds a record in the lowest free slot. `policy` is 30, 31 or 35 bytes, `bank` whole slots, `bytes` the record, 47, `out` has room for 2. Refused: 22
// for the record's length, 22 for the policy's, 23, 1, 2, 34, 4, then 16 for id 0, 27 where the catalogue epoch is 2^64 - 1, 12 with the id where a
// live record has it, 28 where no slot is free. Written: the record in its slot; the policy's catalogue epoch, 8 bytes from offset 8 on; `out`, 2
// bytes, the slot as a u16. The record's fields aren't checked.
pub fn volankizo_live_add(policy: &mut [u8], bank: &mut [u8], bytes: &[u8], out: &mut [u8]) -> u64
    ensures { ((result, out.new), stock policy.new bank.new) ≡ add_call (stock policy.old bank.old)
        bytes.now out.old }
{
    add_delivered(policy, bank, bytes, out)
}

// Replaces the first live record with a record's id by it. `policy` is 30, 31 or 35 bytes, `bank` whole slots, `bytes` the record, 47, `out` has room
// for 2. Refused: 22 for the record's length, 22 for the policy's, 23, 1, 2, 34, 4, then 16 for id 0, 27, 5 where no live record has the id.
// Written: as by `volankizo_live_add`.
pub fn volankizo_live_replace(
    policy: &mut [u8],
    bank: &mut [u8],
    bytes: &[u8],
    out: &mut [u8],
) -> u64
    ensures { ((result, out.new), stock policy.new bank.new) ≡ replace_call (stock policy.old bank.old)
        bytes.now out.old }
{
    replace_delivered(policy, bank, bytes, out)
}

// Removes the first live record with an id: its slot is free then. `policy` is 30, 31 or 35 bytes, `bank` whole slots, `out` has room for 2.
// Refused: 22, 23, 1, 2, 34, 4, then 16 for id 0, 27, 5 where no live record has the id. Written: 47 bytes of 0 in its slot; the policy's catalogue
// epoch; `out`, 2 bytes, the slot as a u16.
pub fn volankizo_live_remove(policy: &mut [u8], bank: &mut [u8], id: u32, out: &mut [u8]) -> u64
    ensures { ((result, out.new), stock policy.new bank.new) ≡ remove_call (stock policy.old bank.old) id
        out.old }
{
    remove_delivered(policy, bank, id, out)
}

// Closes the gaps: the live records in their order, then free slots, as many slots as before. `policy` is 30, 31 or 35 bytes, `bank` whole slots,
// `out` has room for 2. Refused: 22, 23, 1, 2, 34, 4, then 27. Written: the bank; the policy's catalogue epoch, also where there was no gap; `out`,
// 2 bytes, how many records are live as a u16.
pub fn volankizo_live_compact(policy: &mut [u8], bank: &mut [u8], out: &mut [u8]) -> u64
    ensures { ((result, out.new), stock policy.new bank.new) ≡ compact_call (stock policy.old bank.old)
        out.old }
{
    compact_delivered(policy, bank, out)
}
