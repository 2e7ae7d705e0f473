// For other crates: the levers by their numbers, and a model with one of them moved. A lever's values must fit its field.
#![tactic(auto)]

ghost use Rattle.std.specs.Prelude.{◌≡◌, ◌≤◌};
ghost use Rattle.rules.specs.Levers.{lever_at};
ghost use Rattle.rules.specs.Price.{scaled_price};
ghost use Rattle.counterfactual_lever.specs.Lever.{widest};

use rules::KernelModel;
use rules::limits::PPM;

// Higher is better.
pub const QUALITY_BPS: u8 = 1;
// Lower is better.
pub const P95_LATENCY_MS: u8 = 2;
// Both prices together, in millionths of today's. Lower is better.
pub const PRICE_SCALE_PPM: u8 = 3;
// Higher is better.
pub const RISK_CEILING_BPS: u8 = 4;
// 0 or 1.
pub const ENABLED: u8 = 5;

// A scaled price by two limbs.
#[tactic(auto, unfolding(rules::specs::Price::scaled_price))]
fn scaled_price_wide(price: u64, scale: u64) -> u64
    ensures { result ≡ scaled_price price scale }
{
    limbs::held(limbs_products::quotient(limbs_products::product(price, scale), PPM))
}

// A price at a scale in millionths, rounded down, held at the highest u64: `scaled` of one price.
#[tactic(auto, unfolding(rules::specs::Price::scaled_price))]
fn scaled_price(price: u64, scale: u64) -> u64
    ensures { result ≡ scaled_price price scale }
{
    match price.checked_mul(scale) {
        Some(product) => product / PPM,
        None => scaled_price_wide(price, scale),
    }
}

// The model with the lever of a number at a value; any other number moves nothing. Both prices move alike.
#[tactic(auto, unfolding(rules::specs::Levers::lever_at, rules::specs::Choice::equal, crate::specs::Lever::widest))]
pub fn lever_at(model: KernelModel, lever: u8, value: u64) -> KernelModel
    requires { value ≤ widest lever }
    ensures { result ≡ lever_at lever value model }
{
    let mut next = model;
    match lever {
        QUALITY_BPS => next.quality_bps = value as u16,
        P95_LATENCY_MS => next.p95_latency_ms = value as u32,
        PRICE_SCALE_PPM => {
            next.input_cost_microunits_per_million_tokens = scaled_price(
                model.input_cost_microunits_per_million_tokens,
                value,
            );
            next.output_cost_microunits_per_million_tokens = scaled_price(
                model.output_cost_microunits_per_million_tokens,
                value,
            );
        }
        RISK_CEILING_BPS => next.risk_ceiling_bps = value as u16,
        ENABLED => next.enabled = value as u8,
        _ => (),
    }
    next
}
