// The decision that a scan's state comes to, and the decision over a bank.
ghost use Rattle.std.specs.Prelude.{◌≡◌, ◌≤◌, length};
ghost use Rattle.rules.specs.Limits.{max_catalog_models};
ghost use Rattle.rules.specs.Records.{records_in, listed_of};
ghost use Rattle.rules.specs.Numbers.{action_no, reason_no, told_decision};
ghost use Rattle.rules.specs.Decide.{rejection, executed_as, decision_of};
ghost use Rattle.kernel_decide.specs.Decide.{chosen_from, decision_of_scan};

use kernel_ranking::reason::dominant_rejection_reason;
use kernel_ranking::state::{State, start};
use kernel_scan::{pricing_for, scan_on};
use kernel_stop::stopped_by;
use pricing_terms::utility_of_score;
use rules::limits::{NO_PLACE, RECORD_BYTES};
use rules::{KernelAction, KernelDecision, KernelInput, KernelReason, PolicySnapshot};

// `reject`: a decision that chose nothing, for a reason.
#[tactic(auto, unfolding(rules::specs::Decide::rejection))]
pub fn rejection_for(
    policy: PolicySnapshot,
    input: KernelInput,
    reason: KernelReason,
    evaluated: u16,
) -> KernelDecision
    ensures { told_decision result ≡ rejection policy input (reason_no reason) evaluated }
{
    KernelDecision {
        request_sequence: input.request_sequence,
        action: KernelAction::Reject,
        reason,
        selected_model_id: 0,
        selected_model_index: NO_PLACE,
        estimated_cost_microunits: 0,
        expected_utility_microunits: 0,
        counterfactual_model_id: 0,
        counterfactual_utility_microunits: 0,
        evaluated_models: evaluated,
        eligible_models: 0,
        policy_epoch: policy.policy_epoch,
        catalog_epoch: policy.catalog_epoch,
    }
}

// The requested model was chosen, or another one.
#[tactic(auto, unfolding(rules::specs::Decide::executed_as, rules::specs::Choice::equal))]
fn action_of(id: u32, requested: u32) -> KernelAction
    ensures { action_no result ≡ executed_as id requested }
{
    if id == requested {
        KernelAction::ExecuteRequested
    } else {
        KernelAction::Substitute
    }
}

// The reason beside it.
#[tactic(auto, unfolding(rules::specs::Decide::executed_as, rules::specs::Choice::equal))]
fn reason_of(id: u32, requested: u32) -> KernelReason
    ensures { reason_no result ≡ executed_as id requested }
{
    if id == requested {
        KernelReason::RequestedModelMaximizesUtility
    } else {
        KernelReason::AlternativeMaximizesUtility
    }
}

// The best of the ranking is chosen, and the second is the counterfactual.
fn chosen(
    policy: PolicySnapshot,
    input: KernelInput,
    state: State,
    evaluated: u16,
) -> KernelDecision
    ensures { told_decision result ≡ chosen_from policy input state evaluated }
{
    let best = state.top.best;
    let second = state.top.second;
    KernelDecision {
        request_sequence: input.request_sequence,
        action: action_of(best.model_id, input.requested_model_id),
        reason: reason_of(best.model_id, input.requested_model_id),
        selected_model_id: best.model_id,
        selected_model_index: best.model_index,
        estimated_cost_microunits: best.cost,
        expected_utility_microunits: utility_of_score(best.score),
        counterfactual_model_id: second.model_id,
        counterfactual_utility_microunits: utility_of_score(second.score),
        evaluated_models: evaluated,
        eligible_models: state.eligible,
        policy_epoch: policy.policy_epoch,
        catalog_epoch: policy.catalog_epoch,
    }
}

// The decision of a scan that has seen so many records. Where none is eligible, the reason of the largest count.
#[tactic(auto, unfolding(crate::specs::Decide::decision_of_scan, rules::specs::Choice::equal))]
pub fn decision_of_scan(
    policy: PolicySnapshot,
    input: KernelInput,
    state: State,
    evaluated: u16,
) -> KernelDecision
    ensures { told_decision result ≡ decision_of_scan policy input state evaluated }
{
    if state.eligible == 0 {
        return rejection_for(
            policy,
            input,
            dominant_rejection_reason(state.counts),
            evaluated,
        );
    }
    chosen(policy, input, state, evaluated)
}

// `prescribe_inner`: the decision over a bank of whole records. A stopped request looks at none.
pub fn decide(policy: PolicySnapshot, bank: &[u8], input: KernelInput) -> KernelDecision
    requires { records_in (length bank.now) ≤ max_catalog_models }
    ensures { told_decision result ≡ decision_of policy input (listed_of bank.now) }
{
    if let Some(reason) = stopped_by(policy, input) {
        return rejection_for(policy, input, reason, 0);
    }
    let evaluated = (bank.len() / RECORD_BYTES) as u16;
    let pricing = pricing_for(policy, input);
    decision_of_scan(
        policy,
        input,
        scan_on(bank, 0, pricing, input, start()),
        evaluated,
    )
}
