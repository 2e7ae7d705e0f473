// What a search finds, and what `what_would_win` and `decision_margin` tell where they aren't refused. A lever is its number: 1 quality, 2 latency, 3 price
// scale, 4 ceiling, 5 enabled. It is no enum: an unused room tells 0, and what moves a lever answers for every number.
use crate::decision::KernelDecision;

// The boundary, if there is one, and the passes that were made for it.
#[derive(Clone, Copy)]
pub struct Bound {
    pub boundary: Option<u64>,
    pub passes: u64,
}

#[derive(Clone, Copy)]
pub struct Requirement {
    pub lever: u8,
    pub current: u64,
    pub boundary: u64,
    // What the decision costs there: the price lever's alone.
    pub cost_at_boundary_microunits: Option<u64>,
}

// Room for four levers, how many are there, and the passes. The rooms after the last are zero, as the bytes of an answer tell them, and nothing is allocated.
#[derive(Clone, Copy)]
pub struct Levers {
    pub levers: [Requirement; 4],
    pub count: usize,
    pub passes: u64,
}

// The Rust's `Counterfactual` and `Margin` in one.
#[derive(Clone, Copy)]
pub struct Boundaries {
    pub model_id: u32,
    pub decision: KernelDecision,
    // The request was stopped by 100 or 101, so that no change of a model can help.
    pub blocked_by_request: bool,
    pub levers: Levers,
}
