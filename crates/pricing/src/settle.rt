// What a policy and a request settle once for every model, and the terms that are a value times two shares.
ghost use Rattle.std.specs.Prelude.{◌≡◌, ◌*◌, ◌/◌, ◌^◌, ◌<◌};
ghost use Rattle.rules.specs.Limits.{scaled_basis_points};
ghost use Rattle.rules.specs.Utility.{or_zero, share_of};
ghost use Rattle.rules.specs.Wide.{wide_of};
ghost use Rattle.pricing.specs.Pricing.{prefix_of, pricing_of};

use crate::{PREFIX_LIMIT, Pricing};
use rules::{KernelInput, PolicySnapshot, Wide};

// The divisor of a product with two basis points: the Rust's SCALED_BASIS_POINTS.
const SCALED_BASIS_POINTS: u64 = 100_000_000;

// A value, or 0 where it is negative: the Rust's `.max(0)`.
fn gained(value: i64) -> u64
    ensures { result ≡ or_zero value }
{
    value.max(0).cast_unsigned()
}

// A value times a share where the value is below 2^48, so that it fits for every share; else the highest u64. It stands in
// place of the Rust's `quality_prefix`, which asks the catalogue's highest quality.
fn prefix_of(value: u64, share: u16) -> u64
    ensures { result ≡ prefix_of value share }
{
    if value < PREFIX_LIMIT {
        value * u64::from(share)
    } else {
        u64::MAX
    }
}

// One limb as two.
pub fn widened(x: u64) -> Wide
    ensures { result ≡ wide_of x }
{
    limbs::of_one(x)
}

// The rest of a term by 64 bits, from the value times the first share.
pub fn share_small(prefix: u64, share: u16) -> u64
    requires { prefix < 2 ^ 48 }
    ensures { (result ≡ prefix * share / scaled_basis_points) × (result < 2 ^ 62) }
{
    prefix * u64::from(share) / SCALED_BASIS_POINTS
}

// A value times two shares by two limbs: `scaled_term_reference`. The shares multiply below 2^32, so one product of two u64
// is enough.
fn share_wide(value: u64, a: u16, b: u16) -> Wide
    ensures { result ≡ wide_of (share_of value a b) }
{
    let shares = u64::from(a) * u64::from(b);
    limbs_products::quotient(limbs_products::product(value, shares), SCALED_BASIS_POINTS)
}

// A value times two shares: `scaled_term_exact`.
pub fn share(value: u64, a: u16, b: u16) -> Wide
    ensures { result ≡ wide_of (share_of value a b) }
{
    let prefix = prefix_of(value, a);
    if prefix < PREFIX_LIMIT {
        widened(share_small(prefix, b))
    } else {
        share_wide(value, a, b)
    }
}

// The pricing of a policy and a request: `Pricing::new`.
pub fn pricing_of(policy: PolicySnapshot, input: KernelInput) -> Pricing
    ensures { result ≡ pricing_of policy input }
{
    let value = gained(input.business_value_microunits);
    Pricing {
        value,
        confidence_bps: input.confidence_bps,
        quality_prefix: prefix_of(value, input.confidence_bps),
        risk_penalty: share(value, input.risk_bps, policy.risk_penalty_multiplier_bps),
        latency_pen_per_ms: policy.latency_penalty_microunits_per_ms,
        rounding: policy.rounding,
        latency_allowance_ms: policy.latency_allowance_ms,
    }
}
