// For other crates: the models and requests that bytes say. Every layout is packed: each field starts where the one before it ends. What reads a
// slice asks its caller for enough bytes; what reads an array (`whole`) asks nothing, and `bank` passes it on to users.
#![tactic(auto)]

ghost use Rattle.std.specs.Prelude.{◌≡◌, ◌≤◌, length};
ghost use Rattle.rules.specs.Limits.{record_bytes, request_bytes};
ghost use Rattle.rules.specs.Records.{model_of, input_of};

use endian::{u16_at, u32_at, u64_at};
use endian_signs::signed;
use rules::{KernelInput, KernelModel};

mod whole;

pub use whole::{input_from, model_from};

// The model that a record's bytes say.
#[tactic(auto, unfolding(rules::specs::Records::model_of), using(endian::proofs::Spelled::byte_at))]
pub fn model_of(s: &[u8]) -> KernelModel
    requires { record_bytes ≤ length s.now }
    ensures { result ≡ model_of s.now }
{
    KernelModel {
        model_id: u32_at(s, 0),
        provider_id: u16_at(s, 4),
        quality_bps: u16_at(s, 6),
        risk_ceiling_bps: u16_at(s, 8),
        enabled: s[10],
        p95_latency_ms: u32_at(s, 11),
        capabilities: u64_at(s, 15),
        region_mask: u64_at(s, 23),
        input_cost_microunits_per_million_tokens: u64_at(s, 31),
        output_cost_microunits_per_million_tokens: u64_at(s, 39),
    }
}

// The request that a request's bytes say.
#[tactic(auto, unfolding(rules::specs::Records::input_of))]
pub fn input_of(s: &[u8]) -> KernelInput
    requires { request_bytes ≤ length s.now }
    ensures { result ≡ input_of s.now }
{
    KernelInput {
        request_sequence: u64_at(s, 0),
        requested_model_id: u32_at(s, 8),
        input_tokens: u32_at(s, 12),
        output_tokens: u32_at(s, 16),
        business_value_microunits: signed(u64_at(s, 20)),
        budget_limit_microunits: u64_at(s, 28),
        risk_bps: u16_at(s, 36),
        confidence_bps: u16_at(s, 38),
        minimum_quality_bps: u16_at(s, 40),
        max_p95_latency_ms: u32_at(s, 42),
        required_capabilities: u64_at(s, 46),
        allowed_provider_mask: u64_at(s, 54),
        required_region_mask: u64_at(s, 62),
    }
}
