// The bytes that say a model, a request and a policy. Every layout is packed: each field starts where the one before it ends. What is passed on
// here asks nothing of its caller; `unchecked` is for other crates.
#![tactic(auto)]

pub mod unchecked;

ghost use Rattle.std.specs.Prelude.{◌≡◌, length};
ghost use Rattle.rules.specs.Limits.{policy_bytes};
ghost use Rattle.rules.specs.Records.{model_bytes, input_bytes, policy_number_bytes, policy_in_bytes};

use endian_signs::signed_bits;
use endian_writing::put32;
use rules::limits::{
    LONGEST_POLICY_BYTES, LongestPolicyBytes, ModelBytes, POLICY_BYTES, PolicyNumberBytes,
    RECORD_BYTES, REQUEST_BYTES, ROUNDED_POLICY_BYTES, RequestBytes,
};
use rules::{KernelInput, KernelModel, PolicySnapshot};
use unchecked::put_packed;

// The bytes that say a model.
pub fn model_bytes(m: KernelModel) -> ModelBytes
    ensures { result ≡ model_bytes m }
{
    let fields = [
        (4, m.model_id as u64),
        (2, m.provider_id as u64),
        (2, m.quality_bps as u64),
        (2, m.risk_ceiling_bps as u64),
        (1, m.enabled as u64),
        (4, m.p95_latency_ms as u64),
        (8, m.capabilities),
        (8, m.region_mask),
        (8, m.input_cost_microunits_per_million_tokens),
        (8, m.output_cost_microunits_per_million_tokens),
    ];
    let mut a = [0u8; RECORD_BYTES];
    put_packed(&mut a, &fields);
    a
}

// The bytes that say a request.
pub fn input_bytes(q: KernelInput) -> RequestBytes
    ensures { result ≡ input_bytes q }
{
    let fields = [
        (8, q.request_sequence),
        (4, q.requested_model_id as u64),
        (4, q.input_tokens as u64),
        (4, q.output_tokens as u64),
        (8, signed_bits(q.business_value_microunits)),
        (8, q.budget_limit_microunits),
        (2, q.risk_bps as u64),
        (2, q.confidence_bps as u64),
        (2, q.minimum_quality_bps as u64),
        (4, q.max_p95_latency_ms as u64),
        (8, q.required_capabilities),
        (8, q.allowed_provider_mask),
        (8, q.required_region_mask),
    ];
    let mut a = [0u8; REQUEST_BYTES];
    put_packed(&mut a, &fields);
    a
}

// Fills 30 bytes with those that say a policy's numbers.
fn put_numbers(out: &mut [u8], p: PolicySnapshot)
    requires { length out.old ≡ policy_bytes }
    ensures { out.new ≡ policy_number_bytes p }
{
    let fields = [
        (8, p.policy_epoch),
        (8, p.catalog_epoch),
        (2, p.hard_risk_limit_bps as u64),
        (2, p.minimum_confidence_bps as u64),
        (2, p.risk_penalty_multiplier_bps as u64),
        (8, p.latency_penalty_microunits_per_ms),
    ];
    put_packed(out, &fields);
}

// The bytes that say a policy's numbers, as in tag 1.
pub fn policy_number_bytes(p: PolicySnapshot) -> PolicyNumberBytes
    ensures { result ≡ policy_number_bytes p }
{
    let mut a = [0u8; POLICY_BYTES];
    put_numbers(&mut a, p);
    a
}

// The bytes that say a policy: those of its numbers, then how it rounds, then its allowance.
pub fn policy_bytes(p: PolicySnapshot) -> LongestPolicyBytes
    ensures { result ≡ policy_in_bytes p }
{
    let mut a = [0u8; LONGEST_POLICY_BYTES];
    put_numbers(&mut a[0..POLICY_BYTES], p);
    a[POLICY_BYTES] = p.rounding.number();
    put32(&mut a, ROUNDED_POLICY_BYTES, p.latency_allowance_ms);
    a
}
