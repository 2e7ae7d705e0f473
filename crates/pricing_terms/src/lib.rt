// For other crates: a model's terms under a pricing, and what it is worth. Numbers that fit 64 bits take the short way, as in `pricing`. A
// utility is carried as its score, 2^63 higher, so that to hold it within i64 is to stop at 0 and at the highest u64, and to compare two
// is u64's order.
#![tactic(auto)]

mod worth;

use rules::Wide;
pub use worth::{ZERO_SCORE, terms, terms_wide, utility_of_score, utility_terms};

// The terms of a utility, with its score in place of the utility.
#[derive(Clone, Copy)]
pub struct ScoredTerms {
    pub quality_adjusted: Wide,
    pub risk_penalty: Wide,
    pub cost_microunits: u64,
    pub latency_penalty: Wide,
    pub score: u64,
}
