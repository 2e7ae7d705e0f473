// For other crates: the eight gates that a model meets, and the first that it fails.
// A gate is its number, 1 to 8, in the order of document 01, as the verdicts and the explanation records tell it; 0 stands for none, as in their bytes.
#![tactic(auto)]

ghost use Rattle.std.specs.Prelude.{◌≡◌, ◌≤◌};
ghost use Rattle.rules.specs.Limits.{max_provider_id};
ghost use Rattle.rules.specs.Gates.{is_slow, is_unable, is_barred, is_elsewhere, gate_of};

use rules::limits::MAX_PROVIDER_ID;
use rules::{KernelInput, KernelModel};

// Gate 3: there is a latency limit, and the model is above it. Both less one, a single comparison tells, so that the loop of a scan
// reads no field of a record before its gate. No limit, 0, becomes the highest.
fn is_slow(model: KernelModel, input: KernelInput) -> bool
    ensures { result ≡ is_slow model input }
{
    input.max_p95_latency_ms.wrapping_sub(1) < model.p95_latency_ms.saturating_sub(1)
}

// Gate 4: a required capability is missing.
fn is_unable(model: KernelModel, input: KernelInput) -> bool
    ensures { result ≡ is_unable model input }
{
    model.capabilities & input.required_capabilities != input.required_capabilities
}

// Gate 6: the provider's bit is clear; where every provider is admitted, none is. Gate 5 has refused those that have no bit.
fn is_barred(model: KernelModel, input: KernelInput) -> bool
    requires { model.provider_id ≤ max_provider_id }
    ensures { result ≡ is_barred model input }
{
    (input.allowed_provider_mask >> model.provider_id) % 2 == 0
}

// Gate 7: a region is required, and the model shares none. Requiring every region is no case of its own.
fn is_elsewhere(model: KernelModel, input: KernelInput) -> bool
    ensures { result ≡ is_elsewhere model input }
{
    input.required_region_mask != 0 && model.region_mask & input.required_region_mask == 0
}

// The number of the first gate that the model fails; 0 where it passes all.
// The order decides which reason a record counts for, so no test may change places with another.
#[tactic(auto, unfolding(rules::specs::Gates::gate_of))]
pub fn first_failed_gate(model: KernelModel, input: KernelInput) -> u8
    ensures { result ≡ gate_of model input }
{
    if model.enabled == 0 {
        return 1;
    }
    if model.quality_bps < input.minimum_quality_bps {
        return 2;
    }
    if is_slow(model, input) {
        return 3;
    }
    if is_unable(model, input) {
        return 4;
    }
    if MAX_PROVIDER_ID < model.provider_id {
        return 5;
    }
    if is_barred(model, input) {
        return 6;
    }
    if is_elsewhere(model, input) {
        return 7;
    }
    if model.risk_ceiling_bps < input.risk_bps {
        return 8;
    }
    0
}
