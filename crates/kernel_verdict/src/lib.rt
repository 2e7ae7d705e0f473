// For other crates: what one record is told within a scan, the utility as its score; what that adds to the counts, and the model as it
// enters the ranking.
#![tactic(auto)]

ghost use Rattle.std.specs.Prelude.{◌≡◌, ◌<◌};
ghost use Rattle.rules.specs.Count.{total};
ghost use Rattle.rules.specs.Limits.{max_catalog_models};
ghost use Rattle.pricing.specs.Pricing.{Settled};
ghost use Rattle.kernel_verdict.specs.Verdict.{by_score, verdict_in, counted_of, entering_of};

use pricing::Pricing;
use pricing_terms::{ScoredTerms, ZERO_SCORE};
use rules::{KernelInput, KernelModel, RejectionHistogram};

// What `explain` tells a record, less what a scan does not need: the gate's number, the cost, or the terms.
#[derive(Clone, Copy)]
pub enum Verdict {
    Rejected(u8),
    OverBudget(u64),
    NonPositive(ScoredTerms),
    Eligible(ScoredTerms),
}

// What a model is ranked by. The utility is its score, 2^63 above it, so that unsigned numbers order it.
#[derive(Clone, Copy)]
pub struct Candidate {
    pub model_id: u32,
    pub model_index: u16,
    pub quality_bps: u16,
    pub cost: u64,
    pub score: u64,
}

// By the score: not positive, or eligible.
#[tactic(auto, unfolding(crate::specs::Verdict::by_score, rules::specs::Choice::below))]
fn by_score(terms: ScoredTerms) -> Verdict
    ensures { result ≡ by_score terms }
{
    if ZERO_SCORE < terms.score {
        Verdict::Eligible(terms)
    } else {
        Verdict::NonPositive(terms)
    }
}

// A gate that fails, then the budget, then the utility. Only the loop of the scan calls this, so that it is compiled into it.
#[tactic(auto, unfolding(crate::specs::Verdict::verdict_in, rules::specs::Choice::below))]
pub fn verdict_of(pricing: Pricing, input: KernelInput, model: KernelModel) -> Verdict
    requires { Settled pricing }
    ensures { result ≡ verdict_in pricing input model }
{
    let gate = gates::first_failed_gate(model, input);
    if 0 < gate {
        return Verdict::Rejected(gate);
    }
    let cost = pricing_cost::cost(pricing.rounding, model, input);
    if input.budget_limit_microunits < cost {
        return Verdict::OverBudget(cost);
    }
    by_score(pricing_terms::terms(pricing, model, cost))
}

// The counts with one more record that was told so; an eligible one raises none.
#[tactic(auto, unfolding(crate::specs::Verdict::counted_of))]
pub fn counted(counts: RejectionHistogram, verdict: Verdict) -> RejectionHistogram
    requires { total counts < max_catalog_models }
    ensures { result ≡ counted_of counts verdict }
{
    match verdict {
        Verdict::Rejected(gate) => rejections::raised(counts, gate),
        Verdict::OverBudget(_) => rejections::raised_for_budget(counts),
        Verdict::NonPositive(_) => rejections::raised_for_utility(counts),
        Verdict::Eligible(_) => counts,
    }
}

// An eligible model as it enters the ranking.
#[tactic(auto, unfolding(crate::specs::Verdict::entering_of))]
pub fn entered(model: KernelModel, place: u16, terms: ScoredTerms) -> Candidate
    ensures { result ≡ entering_of model place terms }
{
    Candidate {
        model_id: model.model_id,
        model_index: place,
        quality_bps: model.quality_bps,
        cost: terms.cost_microunits,
        score: terms.score,
    }
}
