// What a search asks about, and the decision of a setting over the whole bank, which is made only where its cost is told.
ghost use Rattle.std.specs.Prelude.{◌≡◌, ◌<◌, length};
ghost use Rattle.rules.specs.Records.{records_in};
ghost use Rattle.rules.specs.Numbers.{told_decision};
ghost use Rattle.rules.specs.Levers.{selects, decision_at};
ghost use Rattle.counterfactual_pass.specs.Asked.{asked_from, question_in, Asks};

use bank::unchecked::model_at;
use counterfactual_lever::lever_at;
use counterfactual_others::rival::others_best;
use kernel_ranking::state::Top;
use kernel_verdict::Candidate;
use rules::{KernelDecision, KernelInput, KernelModel, PolicySnapshot};
use view::decide_with_model;

// Policy and request, the model that is varied with its id and its place in the bank, and the best of the other records.
#[derive(Clone, Copy)]
pub struct Asked {
    pub policy: PolicySnapshot,
    pub input: KernelInput,
    pub id: u32,
    pub place: u16,
    pub model: KernelModel,
    pub rival: Candidate,
}

// The model at a place, asked about under an id, where the opening decision was made from these best two.
pub fn asked_at(
    policy: PolicySnapshot,
    bank: &[u8],
    input: KernelInput,
    id: u32,
    place: u16,
    top: Top,
) -> Asked
    requires { place < records_in (length bank.now) }
    ensures { result ≡ asked_from policy input bank.now id place top }
{
    Asked {
        policy,
        input,
        id,
        place,
        model: model_at(bank, place as usize),
        rival: others_best(top, place),
    }
}

// `selected`: the decision chose a model, and its id is this one.
pub fn selected(decision: KernelDecision, id: u32) -> bool
    ensures { result ≡ selects id (told_decision decision) }
{
    decision.is_executable() && decision.selected_model_id == id
}

// The decision with a lever at a value, over the bank: through a view, with a stand-in of 47 bytes.
pub fn decision_at(asked: Asked, bank: &[u8], lever: u8, value: u64) -> KernelDecision
    requires { Asks asked bank.now lever value }
    ensures { told_decision result ≡ decision_at (question_in asked bank.now) lever value }
{
    let model = lever_at(asked.model, lever, value);
    // Such a bank is never refused.
    decide_with_model(asked.policy, bank, asked.input, asked.place as usize, model).unwrap()
}
