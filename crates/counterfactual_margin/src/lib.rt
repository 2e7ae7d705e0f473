// The margin, of the Rust's counterfactual.rs: for the model that was selected, how far each of its levers can move before it isn't. For other
// crates: users have the call from `counterfactual`, which passes it on.
#![tactic(auto)]

ghost use Rattle.std.specs.Prelude.{◌≡◌, []};
ghost use Rattle.rules.specs.Refused.{bank_faults};
ghost use Rattle.rules.specs.Levers.{told_bounds};
ghost use Rattle.rules.specs.Margin.{margin_in, decision_margin_of};
ghost use Rattle.live_slots.specs.Among.{among_of, Among};

use call_checks::listing::first_listed;
use call_checks::refuse::bank_outcome;
use counterfactual_answer::answer::answered;
use counterfactual_four_levers::margin::margin_levers;
use counterfactual_pass::pass::asked_at;
use kernel_among::among::decide_among;
use rules::limits::RECORD_BYTES;
use rules::{Boundaries, KernelInput, PolicySnapshot, Refusal};

// The margin of what is selected among so many records: the first listed record with its id is varied. 6 where the decision is a rejection.
pub fn margin_among(
    policy: PolicySnapshot,
    bank: &[u8],
    input: KernelInput,
    many: u16,
) -> Result<Boundaries, Refusal>
    requires { Among many bank.now × (bank_faults bank.now ≡ []) }
    ensures { told_bounds result ≡ margin_in policy input (among_of many bank.now) }
{
    let opening = decide_among(policy, bank, input, many);
    let decision = opening.decision;
    if decision.is_rejected() {
        return Err(Refusal::NothingSelected);
    }
    let id = decision.selected_model_id;
    let place = first_listed(bank, id).ok_or(Refusal::NothingSelected)?;
    let asked = asked_at(policy, bank, input, id, place, opening.top);
    Ok(answered(id, decision, false, margin_levers(asked, bank)))
}

// `decision_margin`: how far the levers of the selected model can move. With a repeated id its first listed record is varied. Refused: 1, 2,
// then 6 where the decision is a rejection.
pub fn decision_margin(
    policy: PolicySnapshot,
    bank: &[u8],
    input: KernelInput,
) -> Result<Boundaries, Refusal>
    ensures { told_bounds result ≡ decision_margin_of policy input bank.now }
{
    bank_outcome(bank.len())?;
    let many = (bank.len() / RECORD_BYTES) as u16;
    margin_among(policy, bank, input, many)
}
