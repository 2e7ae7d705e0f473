// For the library: what stands behind the exported functions that bound a decision over live records. Each function takes the very slices of an
// exported one and answers its word: 0, or the refusal's. The slots are read once.
#![tactic(auto)]

ghost use Rattle.std.specs.Prelude.{◌≡◌};
ghost use Rattle.export_checks.specs.Checks.{lent};
ghost use Rattle.export_live_bounds.specs.LiveBounds.{live_win_call, live_margin_call};

use bank::unchecked::{input_of, policy_of};
use counterfactual_margin::margin_among;
use counterfactual_win::win_among;
use export_boundary_bytes::BOUNDARY_BYTES;
use export_bounds::bounds_handed;
use export_checks::refusal_word;
use export_live_checks::live_call_outcome;
use live_slots::slots::first_live;

// The levers that would make a live model selected. Refused: 22, 23, 1, 2, 34, 4, 5.
pub fn live_win_delivered(
    policy: &[u8],
    request: &[u8],
    bank: &[u8],
    id: u32,
    out: &mut [u8],
) -> u64
    ensures { (result, out.new) ≡ live_win_call (lent policy.now request.now bank.now) id out.old }
{
    match live_call_outcome(policy, request, bank, BOUNDARY_BYTES, out.len()) {
        Ok(live) => {
            let found = first_live(bank, id);
            let answer = win_among(policy_of(policy), bank, input_of(request), id, found, live);
            bounds_handed(answer, out)
        }
        Err(refusal) => refusal_word(refusal, 0),
    }
}

// How far the levers of the selected model can move. Refused: 22, 23, 1, 2, 34, 4, 6.
pub fn live_margin_delivered(policy: &[u8], request: &[u8], bank: &[u8], out: &mut [u8]) -> u64
    ensures { (result, out.new) ≡ live_margin_call (lent policy.now request.now bank.now) out.old }
{
    match live_call_outcome(policy, request, bank, BOUNDARY_BYTES, out.len()) {
        Ok(live) => {
            let answer = margin_among(policy_of(policy), bank, input_of(request), live);
            bounds_handed(answer, out)
        }
        Err(refusal) => refusal_word(refusal, 0),
    }
}
