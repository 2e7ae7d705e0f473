// The entries of an explanation one after the other, and the bytes that they need.
ghost use Rattle.std.specs.Prelude.{◌≡◌, ◌*◌, ◌≤◌, length};
ghost use Rattle.rules.specs.Limits.{explanation_bytes};
ghost use Rattle.rules.specs.Bytes.{filled};
ghost use Rattle.rules.specs.Verdict.{judged};
ghost use Rattle.rules.specs.Explain.{explained, explanation_of};
ghost use Rattle.live_slots.specs.Among.{among_of, Among};
ghost use Rattle.explain.specs.Entries.{is_skipped, bytes_for};

use bank::unchecked::model_at;
use explain_entries::entry::{entry_bytes, verdict_numbers};
use explain_entries::verdict::candidate_verdict;
use kernel_scan::pricing_for;
use kernel_stop::stopped_by;
use rules::limits::{EXPLANATION_BYTES, RECORD_BYTES};
use rules::{KernelInput, PolicySnapshot};
use splice::put_bytes;

// Whether a slot with this id has no entry, of so many records that are read.
#[tactic(auto, unfolding(crate::specs::Entries::is_skipped))]
fn is_skipped(many: u16, slots: usize, id: u32) -> bool
    ensures { result ≡ is_skipped many slots id }
{
    usize::from(many) < slots && id == 0
}

// The entry of each record that is read, in the order of the bank and without a gap, from the start of a list on. The place is the slot.
fn put_entries(policy: PolicySnapshot, bank: &[u8], input: KernelInput, many: u16, list: &mut [u8])
    requires { Among many bank.now × (explanation_bytes * many ≤ length list.old) }
    ensures { list.new ≡ filled (explained (judged policy input (among_of many bank.now))) list.old }
{
    let pricing = pricing_for(policy, input);
    let slots = bank.len() / RECORD_BYTES;
    let mut entries = 0;
    for i in 0..slots {
        let place = i as u16;
        let model = model_at(bank, i);
        if is_skipped(many, slots, model.model_id) {
            continue;
        }
        let told = verdict_numbers(candidate_verdict(pricing, input, model));
        let entry = entry_bytes(place, model, told);
        put_bytes(list, EXPLANATION_BYTES * entries, &entry);
        entries += 1;
    }
}

// The explanation at the start of a list: no entry where the request is stopped.
pub fn put_explanation(
    policy: PolicySnapshot,
    bank: &[u8],
    input: KernelInput,
    many: u16,
    list: &mut [u8],
)
    requires { Among many bank.now × (length (explanation_of policy input (among_of many bank.now)) ≤ length list.old) }
    ensures { list.new ≡ filled (explanation_of policy input (among_of many bank.now)) list.old }
{
    if stopped_by(policy, input).is_some() {
        return;
    }
    put_entries(policy, bank, input, many, list);
}

// How many bytes the explanation of so many records has.
pub fn needed(policy: PolicySnapshot, input: KernelInput, many: u16) -> usize
    ensures { result ≡ bytes_for policy input many }
{
    if stopped_by(policy, input).is_some() {
        return 0;
    }
    EXPLANATION_BYTES * usize::from(many)
}
