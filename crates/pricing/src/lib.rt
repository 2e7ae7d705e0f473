// For other crates: what a policy and a request settle once for every model. Numbers that fit 64 bits take the short way, decided by a test on
// the numbers alone; all others go by two limbs, in functions of their own.
#![tactic(auto)]

mod settle;

use rules::{Rounding, Wide};
pub use settle::{pricing_of, share, share_small, widened};

// Below this, a product with a u16 fits 64 bits: 2^48.
pub const PREFIX_LIMIT: u64 = 0x1_0000_0000_0000;

// What a policy and a request settle once, for every model: the Rust's `Pricing`. `quality_prefix` is the value times the
// confidence where the value is below 2^48, else the highest u64: it tells which of the two ways a quality term goes. That
// the parts belong together (`Settled`) is asked and no invariant of the type, since the rules' `pricing_of` makes one of numbers that no type bounds.
#[derive(Clone, Copy)]
pub struct Pricing {
    pub value: u64,
    pub confidence_bps: u16,
    pub quality_prefix: u64,
    pub risk_penalty: Wide,
    pub latency_pen_per_ms: u64,
    pub rounding: Rounding,
    pub latency_allowance_ms: u32,
}
