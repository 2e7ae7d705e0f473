// For the library: what stands behind the exported functions that look up a live record, its slot or its utility. Each function takes the very
// slices of an exported one and answers its word: 0, or the refusal's.
#![tactic(auto)]

ghost use Rattle.std.specs.Prelude.{◌≡◌};
ghost use Rattle.export_checks.specs.Checks.{lent};
ghost use Rattle.export_live_lookups.specs.LiveLookups.{live_find_call, live_utility_call};

use bank::unchecked::{input_of, policy_of};
use export_checks::refusal_word;
use export_live_checks::{live_call_outcome, live_lent_outcome};
use export_lookups::{PLACE_BYTES, WORD_BYTES, found_handed, utility_handed};
use live_kernel::utility_for_model;
use live_slots::slots::first_live;

// The slot of the first live record with an id. Refused: 1, 2, 34, 4.
pub fn live_find_delivered(bank: &[u8], id: u32, out: &mut [u8]) -> u64
    ensures { (result, out.new) ≡ live_find_call bank.now id out.old }
{
    if let Err(refusal) = live_lent_outcome(bank, PLACE_BYTES, out.len()) {
        return refusal_word(refusal, 0);
    }
    found_handed(Ok(first_live(bank, id)), out)
}

// The utility of one live model. Refused: 22, 23, 1, 2, 34, 4, 7.
pub fn live_utility_delivered(
    policy: &[u8],
    request: &[u8],
    bank: &[u8],
    id: u32,
    out: &mut [u8],
) -> u64
    ensures { (result, out.new) ≡ live_utility_call (lent policy.now request.now bank.now) id out.old }
{
    if let Err(refusal) = live_call_outcome(policy, request, bank, WORD_BYTES, out.len()) {
        return refusal_word(refusal, 0);
    }
    utility_handed(
        utility_for_model(policy_of(policy), bank, input_of(request), id),
        out,
    )
}
