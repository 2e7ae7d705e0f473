// What one record is told.
use crate::wide::Wide;

// The terms behind a utility. None of the three wide ones is ever below 0, so they carry no sign.
#[derive(Clone, Copy)]
pub struct UtilityTerms {
    pub quality_adjusted: Wide,
    pub risk_penalty: Wide,
    pub cost_microunits: u64,
    pub latency_penalty: Wide,
    // The sum, held within the type: what models are ranked by.
    pub utility: i64,
}

// The two numbers that a failed gate compared.
#[derive(Clone, Copy)]
pub struct GateDetail {
    pub measured: u64,
    pub limit: u64,
}

// The gate is its number, 1 to 8, in the order in which gates are met: what tells of a gate (`rejections`) answers for every number.
#[derive(Clone, Copy)]
pub enum CandidateVerdict {
    Rejected {
        gate: u8,
        measured: u64,
        limit: u64,
    },
    OverBudget {
        cost_microunits: u64,
        limit_microunits: u64,
    },
    NonPositiveUtility(UtilityTerms),
    Eligible(UtilityTerms),
}
