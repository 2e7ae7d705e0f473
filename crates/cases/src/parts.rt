// The worked example in numbers.
use rules::{KernelInput, PolicySnapshot, Rounding};

// Its policy, with how it rounds and its allowance.
pub(crate) fn policy(rounding: Rounding, latency_allowance_ms: u32) -> PolicySnapshot {
    PolicySnapshot {
        policy_epoch: 7,
        catalog_epoch: 3,
        hard_risk_limit_bps: 9_000,
        minimum_confidence_bps: 2_000,
        risk_penalty_multiplier_bps: 10_000,
        latency_penalty_microunits_per_ms: 10,
        rounding,
        latency_allowance_ms,
    }
}

// Its request.
pub(crate) fn request() -> KernelInput {
    KernelInput {
        request_sequence: 42,
        requested_model_id: 1,
        input_tokens: 100,
        output_tokens: 100,
        business_value_microunits: 10_000,
        budget_limit_microunits: 5_000,
        risk_bps: 1_000,
        confidence_bps: 10_000,
        minimum_quality_bps: 5_000,
        max_p95_latency_ms: 0,
        required_capabilities: 1,
        allowed_provider_mask: 0xffff_ffff_ffff_ffff,
        required_region_mask: 0,
    }
}
