// What comes in: a model, a request, and a policy. Field names and order are the Rust's; how a policy rounds and its allowance are ours.
ghost use Rattle.std.specs.Prelude.{◌≡◌};
ghost use Rattle.rules.specs.Records.{rounding_no};

#[derive(Clone, Copy)]
pub struct KernelModel {
    pub model_id: u32,
    // 0 to 63; a higher one fails gate 5.
    pub provider_id: u16,
    pub quality_bps: u16,
    // The highest risk that the model takes.
    pub risk_ceiling_bps: u16,
    // 0 is switched off; every other byte is on.
    pub enabled: u8,
    pub p95_latency_ms: u32,
    pub capabilities: u64,
    pub region_mask: u64,
    pub input_cost_microunits_per_million_tokens: u64,
    pub output_cost_microunits_per_million_tokens: u64,
}

#[derive(Clone, Copy)]
pub struct KernelInput {
    pub request_sequence: u64,
    pub requested_model_id: u32,
    pub input_tokens: u32,
    pub output_tokens: u32,
    pub business_value_microunits: i64,
    pub budget_limit_microunits: u64,
    pub risk_bps: u16,
    pub confidence_bps: u16,
    pub minimum_quality_bps: u16,
    // 0 is no limit.
    pub max_p95_latency_ms: u32,
    pub required_capabilities: u64,
    pub allowed_provider_mask: u64,
    // 0 is no demand.
    pub required_region_mask: u64,
}

// How a cost is rounded up to whole microunits: input and output each apart, as the Rust does, or their sum once.
#[derive(Clone, Copy, Debug, PartialEq, Eq)]
pub enum Rounding {
    Apart = 0,
    Once = 1,
}

impl Rounding {
    // The byte that says it.
    pub fn number(self) -> u8
        ensures { result ≡ rounding_no self }
    {
        self as u8
    }
}

// The policy's six numbers, how it rounds a cost, and how many milliseconds of a latency are free of the penalty. The bank stands beside it, lent by
// the caller.
#[derive(Clone, Copy)]
pub struct PolicySnapshot {
    pub policy_epoch: u64,
    pub catalog_epoch: u64,
    pub hard_risk_limit_bps: u16,
    pub minimum_confidence_bps: u16,
    pub risk_penalty_multiplier_bps: u16,
    pub latency_penalty_microunits_per_ms: u64,
    pub rounding: Rounding,
    // 0 is none. The latency gate compares the full figure.
    pub latency_allowance_ms: u32,
}
