// For other crates: what a model costs for a request. By 64 bits where the prices are below 2^32, whatever the tokens, or below 2^40 and the
// tokens below 2^24, and once below half of that, since there two products are added; else by two limbs.
#![tactic(auto)]

ghost use Rattle.std.specs.Prelude.{◌≡◌, min, ◌+◌, ◌-◌, ◌*◌, ◌/◌, ◌%◌, ◌^◌, ◌<◌, ◌≤◌};
ghost use Rattle.rules.specs.Limits.{cost_scale, max_u64};
ghost use Rattle.rules.specs.Price.{billed, billed_both, cost_of};
ghost use Rattle.rules.specs.Wide.{val};
ghost use Rattle.pricing_cost.specs.PriceLimit.{price_limit};
ghost use Rattle.rules.specs.declared.records.Rounding.TheVariants.{Apart, Once};

use limbs_products::HALF;
use rules::{KernelInput, KernelModel, Rounding, Wide};

// Tokens that a price is for: the Rust's COST_SCALE.
const COST_SCALE: u64 = 1_000_000;
// Fewer tokens than this, 2^24, times a price below 2^40 fit 64 bits.
const FEW_TOKENS: u32 = 0x100_0000;

const HIGH_PRICE: u64 = 0x100_0000_0000;

// By the million tokens, rounded up, by 64 bits: each division of `model_cost_fast`.
// By a sum, 6 instructions on x86-64: `div_ceil` takes the remainder too, and has 13.
#[tactic(auto, unfolding(rules::specs::Price::billed))]
fn billed_small(exact: u64) -> u64
    requires { exact + cost_scale ≤ 2 ^ 64 }
    ensures { (result ≡ billed exact) × (result < 2 ^ 62) }
{
    (exact + (COST_SCALE - 1)) / COST_SCALE
}

// Both directions by 64 bits, each rounded up apart, where the sum needs no test: `model_cost_fast`.
#[tactic(auto, unfolding(rules::specs::Price::billed_both))]
fn apart_small(input_tokens: u32, input_price: u64, output_tokens: u32, output_price: u64) -> u64
    requires { (input_tokens * input_price ≤ (2 ^ 32 - 1) * (2 ^ 32 - 1)) × (output_tokens * output_price ≤ (2 ^ 32 - 1) * (2 ^ 32 - 1)) }
    ensures { result ≡ min max_u64 (billed_both Apart (input_tokens * input_price) (output_tokens * output_price)) }
{
    let there = u64::from(input_tokens) * input_price;
    let back = u64::from(output_tokens) * output_price;
    billed_small(there) + billed_small(back)
}

// Both directions by 64 bits, the sum rounded up once.
#[tactic(auto, unfolding(rules::specs::Price::billed_both))]
fn once_small(input_tokens: u32, input_price: u64, output_tokens: u32, output_price: u64) -> u64
    requires { input_tokens * input_price + output_tokens * output_price + cost_scale ≤ 2 ^ 64 }
    ensures { result ≡ min max_u64 (billed_both Once (input_tokens * input_price) (output_tokens * output_price)) }
{
    let there = u64::from(input_tokens) * input_price;
    let back = u64::from(output_tokens) * output_price;
    billed_small(there + back)
}

// Tokens times a price by two limbs.
fn exact_wide(tokens: u32, price: u64) -> Wide
    ensures { (val result ≡ tokens * price) × (tokens * price < 2 ^ 96) }
{
    limbs_products::product(tokens.into(), price)
}

// By the million tokens, rounded up: each division of `model_cost_reference`.
#[tactic(auto, unfolding(rules::specs::Price::billed))]
fn billed_wide(exact: Wide) -> Wide
    requires { val exact < 2 ^ 100 }
    ensures { (val result ≡ billed (val exact)) × (val result < 2 ^ 100) }
{
    limbs_products::quotient(limbs::add(exact, limbs::of_one(COST_SCALE - 1)), COST_SCALE)
}

// Both directions by two limbs, each rounded up apart: `model_cost_reference`.
#[tactic(auto, unfolding(rules::specs::Price::billed_both, rules::specs::Price::billed))]
fn apart_wide(input_tokens: u32, input_price: u64, output_tokens: u32, output_price: u64) -> u64
    ensures { result ≡ min max_u64 (billed_both Apart (input_tokens * input_price) (output_tokens * output_price)) }
{
    let there = exact_wide(input_tokens, input_price);
    let back = exact_wide(output_tokens, output_price);
    limbs::held(limbs::add(billed_wide(there), billed_wide(back)))
}

// What the sum of both directions leaves beside whole millions, rounded up: each price less its whole millions.
fn once_rest(input_tokens: u32, input_price: u64, output_tokens: u32, output_price: u64) -> u64
    ensures { (result ≡ billed (input_tokens * (input_price % cost_scale) + output_tokens * (output_price % cost_scale))) × (result < 2 ^ 62) }
{
    let there_left = u64::from(input_tokens) * (input_price % COST_SCALE);
    let back_left = u64::from(output_tokens) * (output_price % COST_SCALE);
    billed_small(there_left + back_left)
}

// Both directions by two limbs, the sum rounded up once. Whole millions of a price come out of the division as they are, so that no wide number
// is divided.
fn once_wide(input_tokens: u32, input_price: u64, output_tokens: u32, output_price: u64) -> u64
    ensures { result ≡ min max_u64 (billed_both Once (input_tokens * input_price) (output_tokens * output_price)) }
{
    let there = exact_wide(input_tokens, input_price / COST_SCALE);
    let back = exact_wide(output_tokens, output_price / COST_SCALE);
    let rest = once_rest(input_tokens, input_price, output_tokens, output_price);
    limbs::held(limbs::add(limbs::add(there, back), limbs::of_one(rest)))
}

// Both directions by two limbs.
fn cost_wide(
    rounding: Rounding,
    input_tokens: u32,
    input_price: u64,
    output_tokens: u32,
    output_price: u64,
) -> u64
    ensures { result ≡ min max_u64 (billed_both rounding (input_tokens * input_price) (output_tokens * output_price)) }
{
    match rounding {
        Rounding::Apart => apart_wide(input_tokens, input_price, output_tokens, output_price),
        Rounding::Once => once_wide(input_tokens, input_price, output_tokens, output_price),
    }
}

// What a price stays below for its tokens to be paid by 64 bits.
#[tactic(auto, unfolding(crate::specs::PriceLimit::price_limit, rules::specs::Choice::below))]
fn price_limit(input_tokens: u32, output_tokens: u32) -> u64
    ensures { result ≡ price_limit input_tokens output_tokens }
{
    if input_tokens < FEW_TOKENS && output_tokens < FEW_TOKENS {
        HIGH_PRICE
    } else {
        HALF
    }
}

// What a model costs for a request: `Pricing::cost`, and once. How the policy rounds is asked first, so that each way has its own limit and no
// step of the other.
#[inline(always)]
#[tactic(auto, unfolding(rules::specs::Price::cost_of))]
pub fn cost(rounding: Rounding, model: KernelModel, input: KernelInput) -> u64
    ensures { result ≡ cost_of rounding model input }
{
    let tokens = input.input_tokens;
    let price = model.input_cost_microunits_per_million_tokens;
    let output_tokens = input.output_tokens;
    let output_price = model.output_cost_microunits_per_million_tokens;
    let limit = price_limit(tokens, output_tokens);
    if let Rounding::Once = rounding {
        let half = limit / 2;
        if price < half && output_price < half {
            return once_small(tokens, price, output_tokens, output_price);
        }
    } else if price < limit && output_price < limit {
        return apart_small(tokens, price, output_tokens, output_price);
    }
    cost_wide(rounding, tokens, price, output_tokens, output_price)
}

// The same for callers outside a scan's loop, which `cost` is compiled into.
pub fn cost_alone(rounding: Rounding, model: KernelModel, input: KernelInput) -> u64
    ensures { result ≡ cost_of rounding model input }
{
    cost(rounding, model, input)
}
