// What one record is told, with its numbers. The scan has a form of its own that is compiled into its loop; the contracts here say that
// this one tells what that one found.
ghost use Rattle.std.specs.Prelude.{◌≡◌};
ghost use Rattle.rules.specs.Numbers.{told_verdict};
ghost use Rattle.rules.specs.Verdict.{rejected};
ghost use Rattle.pricing.specs.Pricing.{Settled};
ghost use Rattle.kernel_verdict.specs.Verdict.{by_score, verdict_in};
ghost use Rattle.explain_entries.specs.Scanned.{scanned};

use gates::first_failed_gate;
use pricing::Pricing;
use pricing_terms::{ScoredTerms, ZERO_SCORE, utility_terms};
use rejections::gate_detail;
use rules::{CandidateVerdict, GateDetail, KernelInput, KernelModel};

// Verdict 1, with the gate's number and what it compared.
fn gate_verdict(gate: u8, detail: GateDetail) -> CandidateVerdict
    ensures { told_verdict result ≡ rejected gate detail }
{
    CandidateVerdict::Rejected {
        gate,
        measured: detail.measured,
        limit: detail.limit,
    }
}

// By the score: not positive, or eligible.
#[tactic(auto, unfolding(kernel_verdict::specs::Verdict::by_score, crate::specs::Scanned::scanned, rules::specs::Choice::below))]
fn verdict_by_score(input: KernelInput, model: KernelModel, scored: ScoredTerms) -> CandidateVerdict
    ensures { told_verdict result ≡ scanned input model (by_score scored) }
{
    let terms = utility_terms(scored);
    if ZERO_SCORE < scored.score {
        CandidateVerdict::Eligible(terms)
    } else {
        CandidateVerdict::NonPositiveUtility(terms)
    }
}

// A gate that fails, then the budget, then the utility: `Pricing::verdict`. In a function of its own the loop of `explain` would take a quarter more
// instructions.
#[inline(always)]
pub fn candidate_verdict(
    pricing: Pricing,
    input: KernelInput,
    model: KernelModel,
) -> CandidateVerdict
    requires { Settled pricing }
    ensures { told_verdict result ≡ scanned input model (verdict_in pricing input model) }
{
    let gate = first_failed_gate(model, input);
    if 0 < gate {
        return gate_verdict(gate, gate_detail(model, input, gate));
    }
    let cost = pricing_cost::cost_alone(pricing.rounding, model, input);
    if input.budget_limit_microunits < cost {
        return CandidateVerdict::OverBudget {
            cost_microunits: cost,
            limit_microunits: input.budget_limit_microunits,
        };
    }
    verdict_by_score(
        input,
        model,
        pricing_terms::terms_wide(pricing, model, cost),
    )
}

// The same of one record by itself, for the desk.
pub fn verdict_alone(pricing: Pricing, input: KernelInput, model: KernelModel) -> CandidateVerdict
    requires { Settled pricing }
    ensures { told_verdict result ≡ scanned input model (verdict_in pricing input model) }
{
    candidate_verdict(pricing, input, model)
}
