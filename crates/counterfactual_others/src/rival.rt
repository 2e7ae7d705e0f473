// The best of the other records, and one model against it.
ghost use Rattle.std.specs.Prelude.{◌≡◌};
ghost use Rattle.pricing.specs.Pricing.{Settled};
ghost use Rattle.kernel_verdict.specs.Verdict.{verdict_in};
ghost use Rattle.counterfactual_others.specs.Others.{others_of, best_with, has_id};

use gates::first_failed_gate;
use kernel_ranking::rank::candidate_better;
use kernel_ranking::state::Top;
use kernel_verdict::{Candidate, Verdict, entered};
use pricing::Pricing;
use pricing_cost::cost_alone;
use pricing_terms::{ZERO_SCORE, terms_wide};
use rules::{KernelInput, KernelModel};

// The best of all records but the one at a place, by the best two of all: the second where that record is the best.
#[tactic(auto, unfolding(crate::specs::Others::others_of, rules::specs::Choice::equal))]
pub fn others_best(top: Top, place: u16) -> Candidate
    ensures { result ≡ others_of top place }
{
    if top.best.model_index == place {
        return top.second;
    }
    top.best
}

// What a model is told, in plain forms, as in an explanation: the scan's own are compiled into its loop.
#[tactic(auto, unfolding(kernel_verdict::specs::Verdict::verdict_in, kernel_verdict::specs::Verdict::by_score, rules::specs::Choice::below))]
fn verdict_alone(pricing: Pricing, input: KernelInput, model: KernelModel) -> Verdict
    requires { Settled pricing }
    ensures { result ≡ verdict_in pricing input model }
{
    let gate = first_failed_gate(model, input);
    if 0 < gate {
        return Verdict::Rejected(gate);
    }
    let cost = cost_alone(pricing.rounding, model, input);
    if input.budget_limit_microunits < cost {
        return Verdict::OverBudget(cost);
    }
    let terms = terms_wide(pricing, model, cost);
    if ZERO_SCORE < terms.score {
        return Verdict::Eligible(terms);
    }
    Verdict::NonPositive(terms)
}

// The better of a model at a place and a rival; a model that isn't eligible leaves the rival as it is.
#[tactic(auto, unfolding(crate::specs::Others::best_with, crate::specs::Others::against))]
pub fn best_with(
    rival: Candidate,
    place: u16,
    model: KernelModel,
    pricing: Pricing,
    input: KernelInput,
) -> Candidate
    requires { Settled pricing }
    ensures { result ≡ best_with pricing input rival place model }
{
    let Verdict::Eligible(terms) = verdict_alone(pricing, input, model) else {
        return rival;
    };
    let own = entered(model, place, terms);
    if candidate_better(own, rival) {
        return own;
    }
    rival
}

// Whether a best candidate is somebody and has an id.
#[tactic(auto, unfolding(crate::specs::Others::has_id))]
pub fn has_id(best: Candidate, id: u32) -> bool
    ensures { result ≡ has_id id best }
{
    ZERO_SCORE < best.score && best.model_id == id
}
