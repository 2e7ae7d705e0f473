// The library's thirty-three functions, which `volankizo_c` exports to C: here the version, decisions and what explains, checks and bounds them; in `batch` rows of
// decisions; in `forms` a record's offset, stored and request forms, printed texts; in `live` a bank whose models are swapped, decided over and
// edited. They speak bytes and numbers: a policy is 30 bytes, or 31 of which the last says how it rounds (0 apart, 1 once), or 35 with its latency
// allowance in ms after that (u32, 0 none), a request 70, a bank 47 for each record.
// A refusal comes back as one word, number + 2^8 field + 2^16 value + 2^32 (id or place), and 0 where the call answered. A refused
// call writes nothing, but for a trusted bank that was ordered before it was refused. An answer goes to the start of `out`, which
// overlaps nothing else that is lent, and the bytes after it stay as they were.
// The promise of each is one equation for the word and every byte of each writable buffer, so any two permitted answers are equal.
// Each hands on to one function of the crates `export_..` with the same promise.
#![tactic(auto)]

pub mod batch;
pub mod forms;
pub mod live;

ghost use Rattle.std.specs.Prelude.{◌≡◌};
ghost use Rattle.rules.specs.Refused.{first_fault};
ghost use Rattle.version.specs.Version.{this_version};
ghost use Rattle.export_checks.specs.Checks.{lent, word_of, check_faults};
ghost use Rattle.export_calls.specs.Calls.{prescribe_call, prescribe_checked_call, explain_call};
ghost use Rattle.export_lookups.specs.Lookups.{utility_call, find_call, next_call};
ghost use Rattle.export_catalogue.specs.Catalogue.{validate_faults, trust_call};
ghost use Rattle.export_bounds.specs.Bounds.{win_call, margin_call};

pub use batch::{volankizo_prescribe_batch, volankizo_prescribe_batch_checked};
use export_bounds::{margin_delivered, win_delivered};
use export_calls::{explain_delivered, prescribe_checked_delivered, prescribe_delivered};
use export_catalogue::{trust_delivered, validate_delivered};
use export_checks::request_word;
use export_lookups::{find_delivered, next_delivered, utility_delivered};
pub use forms::{
    volankizo_ask_text, volankizo_ask_words, volankizo_read_request, volankizo_read_stored,
    volankizo_record_at, volankizo_unit_text, volankizo_write_request, volankizo_write_stored,
};
pub use live::{
    volankizo_live_add, volankizo_live_compact, volankizo_live_decision_margin,
    volankizo_live_explain, volankizo_live_find, volankizo_live_prescribe,
    volankizo_live_prescribe_checked, volankizo_live_remove, volankizo_live_replace,
    volankizo_live_utility_for_model, volankizo_live_what_would_win,
};
use version::version_number;

// Which version of the library this is: 1,000,000 times the major number, 1,000 times the minor one, and the patch's. Takes nothing, writes nothing.
pub fn volankizo_version() -> u64
    ensures { result ≡ this_version }
{
    version_number()
}

// The decision over a bank with its nine counts. `policy` is 30, 31 or 35 bytes, `request` 70, `bank` whole records, `out` has room for 83.
// Refused: 22 for the policy's or the request's length, 23 for the policy's 31st byte, then 1, 2, 4. Written, by offset: 0 sequence u64;
// 8 action u8; 9 reason u16; 11 model u32; 15 place u16; 17 cost u64; 25 utility i64; 33 counterfactual model u32; 37 its utility i64;
// 45 evaluated u16; 47 eligible u16; 49 policy epoch u64; 57 catalogue epoch u64; from 65 on the counts, u16 each: disabled, quality,
// ceiling, latency, capability, provider, region, budget, utility.
pub fn volankizo_prescribe(policy: &[u8], request: &[u8], bank: &[u8], out: &mut [u8]) -> u64
    ensures { (result, out.new) ≡ prescribe_call (lent policy.now request.now bank.now) out.old }
{
    prescribe_delivered(policy, request, bank, out)
}

// The same, after the request check. `policy` is 30, 31 or 35 bytes, `request` 70, `bank` whole records, `out` has room for 83.
// Refused: 22, 23, 1, 2, 4, then 3. Written: the same 83 bytes.
pub fn volankizo_prescribe_checked(
    policy: &[u8],
    request: &[u8],
    bank: &[u8],
    out: &mut [u8],
) -> u64
    ensures { (result, out.new) ≡ prescribe_checked_call (lent policy.now request.now bank.now) out.old }
{
    prescribe_checked_delivered(policy, request, bank, out)
}

// The utility of the first listed model with an id. `policy` is 30, 31 or 35 bytes, `request` 70, `bank` whole records, `out` has room for 8.
// Refused: 22, 23, 1, 2, 4, then 7 where the request is stopped, the id isn't listed, or that model isn't eligible.
// Written: 8 bytes, the utility as an i64.
pub fn volankizo_utility_for_model(
    policy: &[u8],
    request: &[u8],
    bank: &[u8],
    id: u32,
    out: &mut [u8],
) -> u64
    ensures { (result, out.new) ≡ utility_call (lent policy.now request.now bank.now) id out.old }
{
    utility_delivered(policy, request, bank, id, out)
}

// The place of the first listed record with an id. `bank` is whole records, `out` has room for 2.
// Refused: 1, 2, 4. Written: 2 bytes, the place as a u16, or 65,535 where the id is nowhere.
pub fn volankizo_find(bank: &[u8], id: u32, out: &mut [u8]) -> u64
    ensures { (result, out.new) ≡ find_call bank.now id out.old }
{
    find_delivered(bank, id, out)
}

// The request check alone. `request` is 70 bytes. Refused: 22, 3. Nothing is written.
pub fn volankizo_check_request(request: &[u8]) -> u64
    ensures { result ≡ word_of (first_fault (check_faults request.now)) }
{
    request_word(request)
}

// The decision, and what every record is told. `policy` is 30, 31 or 35 bytes, `request` 70, `bank` whole records, `list` has room for 72 bytes
// for each record, or none where the request is stopped, `out` for 65. Refused: 22, 23, 1, 2, then 4 for `out` or `list`.
// Written: `out`, the first 65 bytes of `volankizo_prescribe`'s answer; `list`, by offset in each entry: 0 model u32; 4 place u16;
// 6 verdict u8; 7 gate u8; 8, 16 bytes: measured, cost or quality term; 24, 16 bytes: limit, budget or risk term; 40 cost u64;
// 48, 16 bytes: latency term; 64 utility i64.
pub fn volankizo_explain(
    policy: &[u8],
    request: &[u8],
    bank: &[u8],
    list: &mut [u8],
    out: &mut [u8],
) -> u64
    ensures { ((result, out.new), list.new) ≡ explain_call (lent policy.now request.now bank.now)
        list.old out.old }
{
    explain_delivered(policy, request, bank, list, out)
}

// The next eligible entry of such a list, at or after a place. `list` is any bytes, `out` has room for 8. Refused: 4.
// Written: 8 bytes, the place as a u64, or 2^64 - 1 where no eligible entry is left.
pub fn volankizo_next_eligible(list: &[u8], from: u64, out: &mut [u8]) -> u64
    ensures { (result, out.new) ≡ next_call list.now from out.old }
{
    next_delivered(list, from, out)
}

// Whether a policy with its bank may serve. `policy` is 30, 31 or 35 bytes, `bank` whole records.
// Refused: 22, 23, 1, 2, 10, 11, then record by record 12, 13, 14, then 15. Nothing is written.
pub fn volankizo_validate(policy: &[u8], bank: &[u8]) -> u64
    ensures { result ≡ word_of (first_fault (validate_faults policy.now bank.now)) }
{
    validate_delivered(policy, bank)
}

// Puts a bank in ascending id order, equal ids in their old order, and validates it. `policy` is 30, 31 or 35 bytes, `bank` whole records.
// Refused with the bank as it was: 22, 23, 1, 2, 16, 17; with the bank in order: 10, 11, then record by record 12, 13, 14, then 15.
pub fn volankizo_trust(policy: &[u8], bank: &mut [u8]) -> u64
    ensures { (result, bank.new) ≡ trust_call policy.now bank.old }
{
    trust_delivered(policy, bank)
}

// For a model that wasn't selected, the smallest change of one lever after which it is. `policy` is 30, 31 or 35 bytes, `request` 70, `bank`
// whole records, `out` has room for 183. Refused: 22, 23, 1, 2, 4, then 5 where the id isn't listed.
// Written, by offset: 0 the decision, 65 bytes; 65 model u32; 69 blocked by the request u8; 70 count of levers u8; 71 passes u64; from 79
// on four rooms of 26 bytes, in each: 0 lever u8 (0 where unused); 1 current u64; 9 boundary u64; 17 priced u8; 18 cost u64.
pub fn volankizo_what_would_win(
    policy: &[u8],
    request: &[u8],
    bank: &[u8],
    id: u32,
    out: &mut [u8],
) -> u64
    ensures { (result, out.new) ≡ win_call (lent policy.now request.now bank.now) id out.old }
{
    win_delivered(policy, request, bank, id, out)
}

// For the model that was selected, how far each of its levers can move before it isn't. `policy` is 30, 31 or 35 bytes, `request` 70, `bank`
// whole records, `out` has room for 183. Refused: 22, 23, 1, 2, 4, then 6 where the decision is a rejection. Written: the same 183 bytes.
pub fn volankizo_decision_margin(policy: &[u8], request: &[u8], bank: &[u8], out: &mut [u8]) -> u64
    ensures { (result, out.new) ≡ margin_call (lent policy.now request.now bank.now) out.old }
{
    margin_delivered(policy, request, bank, out)
}
