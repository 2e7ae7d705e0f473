// For other crates: what a failed gate measured, and the count that a rejected model raises, which must have room.
// A gate is its number, 1 to 8, as in `gates` and in the bytes that tell it.
#![tactic(auto)]

ghost use Rattle.std.specs.Prelude.{◌≡◌, ◌<◌};
ghost use Rattle.rules.specs.Limits.{max_catalog_models};
ghost use Rattle.rules.specs.Gates.{detail, detail_of};
ghost use Rattle.rules.specs.Count.{gate_reason, raised_by, total};

use rules::limits::MAX_PROVIDER_ID;
use rules::{GateDetail, KernelInput, KernelModel, RejectionHistogram};

// What a gate measured, and its limit.
fn detail(measured: u64, limit: u64) -> GateDetail
    ensures { result ≡ detail measured limit }
{
    GateDetail { measured, limit }
}

// The two numbers that a gate compared; 0 and 0 for a number that is no gate's.
#[tactic(auto, unfolding(rules::specs::Gates::detail_of, rules::specs::Choice::equal))]
pub fn gate_detail(model: KernelModel, input: KernelInput, gate: u8) -> GateDetail
    ensures { result ≡ detail_of model input gate }
{
    match gate {
        // Nothing is measured against a switch: always 0 and 1.
        1 => detail(0, 1),
        2 => detail(model.quality_bps as u64, input.minimum_quality_bps as u64),
        3 => detail(model.p95_latency_ms as u64, input.max_p95_latency_ms as u64),
        4 => detail(model.capabilities, input.required_capabilities),
        5 => detail(model.provider_id as u64, MAX_PROVIDER_ID as u64),
        6 => detail(model.provider_id as u64, input.allowed_provider_mask),
        7 => detail(model.region_mask, input.required_region_mask),
        // Here the number measured is the request's, and the model sets the limit.
        8 => detail(input.risk_bps as u64, model.risk_ceiling_bps as u64),
        _ => detail(0, 0),
    }
}

// `bump`: the counts with the one that a failed gate raises one higher. Gates 5 and 6 share the provider's.
// No count can overflow where the nine together are below 65,535; a number that is no gate's raises none.
#[tactic(auto, unfolding(rules::specs::Count::raised_by, rules::specs::Count::gate_reason, rules::specs::Choice::equal))]
pub fn raised(mut counts: RejectionHistogram, gate: u8) -> RejectionHistogram
    requires { total counts < max_catalog_models }
    ensures { result ≡ raised_by counts (gate_reason gate) }
{
    match gate {
        1 => counts.disabled += 1,
        2 => counts.quality += 1,
        3 => counts.latency += 1,
        4 => counts.capability += 1,
        5..=6 => counts.provider += 1,
        7 => counts.region += 1,
        8 => counts.risk_ceiling += 1,
        _ => {}
    }
    counts
}

// The counts with one more record that is over its budget.
#[tactic(auto, unfolding(rules::specs::Count::raised_by, rules::specs::Choice::equal))]
pub fn raised_for_budget(mut counts: RejectionHistogram) -> RejectionHistogram
    requires { total counts < max_catalog_models }
    ensures { result ≡ raised_by counts 108 }
{
    counts.budget += 1;
    counts
}

// The counts with one more record that has no positive utility.
#[tactic(auto, unfolding(rules::specs::Count::raised_by, rules::specs::Choice::equal))]
pub fn raised_for_utility(mut counts: RejectionHistogram) -> RejectionHistogram
    requires { total counts < max_catalog_models }
    ensures { result ≡ raised_by counts 109 }
{
    counts.utility += 1;
    counts
}
