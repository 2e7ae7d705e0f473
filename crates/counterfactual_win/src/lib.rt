// What would win, of the Rust's counterfactual.rs: for a model that wasn't selected, the smallest change of one lever after which it is. For
// other crates: users have the call from `counterfactual`, which passes it on.
#![tactic(auto)]

ghost use Rattle.std.specs.Prelude.{◌≡◌, []};
ghost use Rattle.rules.specs.Refused.{bank_faults};
ghost use Rattle.rules.specs.Listing.{first_listed, place_of};
ghost use Rattle.rules.specs.Numbers.{told_option};
ghost use Rattle.rules.specs.Levers.{told_bounds};
ghost use Rattle.rules.specs.Win.{win_search, win_in, what_would_win_of};
ghost use Rattle.live_slots.specs.Among.{among_of, Among};
ghost use Rattle.counterfactual_pass.specs.Asked.{question_in, Stands};
ghost use Rattle.counterfactual_answer.specs.Levers.{told_levers, room_of};

use call_checks::listing::first_listed;
use call_checks::refuse::bank_outcome;
use counterfactual_answer::answer::answered;
use counterfactual_answer::levers::{no_levers, plain, push};
use counterfactual_four_levers::win::win_levers;
use counterfactual_lever::ENABLED;
use counterfactual_pass::held::Held;
use counterfactual_pass::pass::{Asked, asked_at, selected};
use kernel_among::among::decide_among;
use kernel_stop::stopped_by;
use rules::limits::RECORD_BYTES;
use rules::{Boundaries, KernelInput, Levers, PolicySnapshot, Refusal};

// A model that is off is only switched on, at the second pass: no other lever makes it win.
fn win_search(asked: Asked, bank: &[u8]) -> Levers
    requires { Stands asked bank.now }
    ensures { told_levers result ≡ room_of (win_search (question_in asked bank.now)) }
{
    if asked.model.enabled != 0 {
        return win_levers(asked, bank);
    }
    if Held::new(asked).wins(ENABLED, 1) {
        return push(no_levers(2), plain(ENABLED, 0, 1));
    }
    no_levers(2)
}

// The answer for an id that was sought among so many records. Nothing is searched where the request is stopped or the id is selected already; 5
// where it was nowhere.
pub fn win_among(
    policy: PolicySnapshot,
    bank: &[u8],
    input: KernelInput,
    id: u32,
    found: Option<u16>,
    many: u16,
) -> Result<Boundaries, Refusal>
    requires { (told_option found ≡ place_of (first_listed id (among_of many bank.now))) × Among many bank.now × (bank_faults bank.now ≡ []) }
    ensures { told_bounds result ≡ win_in policy input (among_of many bank.now) id }
{
    let Some(place) = found else {
        return Err(Refusal::UnknownModel);
    };
    let opening = decide_among(policy, bank, input, many);
    let decision = opening.decision;
    if stopped_by(policy, input).is_some() {
        return Ok(answered(id, decision, true, no_levers(1)));
    }
    if selected(decision, id) {
        return Ok(answered(id, decision, false, no_levers(1)));
    }
    let asked = asked_at(policy, bank, input, id, place, opening.top);
    Ok(answered(id, decision, false, win_search(asked, bank)))
}

// `what_would_win`: the levers that would make a model selected, each alone. Refused: 1, 2, then 5 where the id isn't listed.
pub fn what_would_win(
    policy: PolicySnapshot,
    bank: &[u8],
    input: KernelInput,
    id: u32,
) -> Result<Boundaries, Refusal>
    ensures { told_bounds result ≡ what_would_win_of policy input bank.now id }
{
    bank_outcome(bank.len())?;
    let many = (bank.len() / RECORD_BYTES) as u16;
    win_among(policy, bank, input, id, first_listed(bank, id), many)
}
