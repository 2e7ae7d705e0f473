// For the library: what stands behind the exported functions that bound a decision. Each function but the one that hands over takes the very
// slices of an exported one and answers its word: 0, or the refusal's. That one serves the calls over live records as well.
#![tactic(auto)]

ghost use Rattle.std.specs.Prelude.{◌≡◌, ◌≤◌, [], length};
ghost use Rattle.rules.specs.Levers.{told_bounds};
ghost use Rattle.export_boundary_bytes.specs.Layout.{boundary_size, boundary_bytes};
ghost use Rattle.export_checks.specs.Checks.{lent, handed};
ghost use Rattle.export_bounds.specs.Bounds.{bounds_in, win_call, margin_call};

use bank::unchecked::{input_of, policy_of};
use counterfactual_margin::decision_margin;
use counterfactual_win::what_would_win;
use export_boundary_bytes::{BOUNDARY_BYTES, boundary_bytes};
use export_checks::{call_outcome, hand_bytes, refusal_word};
use rules::{Boundaries, Refusal};

// What a boundary call answers, where it has room.
pub fn bounds_handed(answer: Result<Boundaries, Refusal>, out: &mut [u8]) -> u64
    requires { boundary_size ≤ length out.old }
    ensures { (result, out.new) ≡ handed boundary_bytes [] (bounds_in (told_bounds answer)) out.old }
{
    match answer {
        Ok(boundaries) => hand_bytes(out, &boundary_bytes(boundaries)),
        Err(refusal) => refusal_word(refusal, 0),
    }
}

// The levers that would make a model selected. Refused: 22, 23, 1, 2, 4, 5.
pub fn win_delivered(policy: &[u8], request: &[u8], bank: &[u8], id: u32, out: &mut [u8]) -> u64
    ensures { (result, out.new) ≡ win_call (lent policy.now request.now bank.now) id out.old }
{
    if let Err(refusal) = call_outcome(policy, request, bank, BOUNDARY_BYTES, out.len()) {
        return refusal_word(refusal, 0);
    }
    bounds_handed(
        what_would_win(policy_of(policy), bank, input_of(request), id),
        out,
    )
}

// How far the levers of the selected model can move. Refused: 22, 23, 1, 2, 4, 6.
pub fn margin_delivered(policy: &[u8], request: &[u8], bank: &[u8], out: &mut [u8]) -> u64
    ensures { (result, out.new) ≡ margin_call (lent policy.now request.now bank.now) out.old }
{
    if let Err(refusal) = call_outcome(policy, request, bank, BOUNDARY_BYTES, out.len()) {
        return refusal_word(refusal, 0);
    }
    bounds_handed(
        decision_margin(policy_of(policy), bank, input_of(request)),
        out,
    )
}
