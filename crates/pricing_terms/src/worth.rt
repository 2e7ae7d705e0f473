// A model's terms, their score, and the utility that a score stands for.
ghost use Rattle.std.specs.Prelude.{◌≡◌, ◌-◌, ◌*◌, ◌^◌, ◌<◌, ◌≤◌};
ghost use Rattle.rules.specs.Utility.{share_of};
ghost use Rattle.rules.specs.Wide.{val, limbs};
ghost use Rattle.pricing.specs.Pricing.{Settled};
ghost use Rattle.pricing_terms.specs.Score.{unscored, score_of};
ghost use Rattle.pricing_terms.specs.Terms.{scored_terms, terms_with, utility_terms_of};

use crate::ScoredTerms;
use limbs_products::HALF;
use pricing::{PREFIX_LIMIT, Pricing, share, share_small, widened};
use rules::{KernelModel, UtilityTerms, Wide};

// The score of a utility of 0: 2^63.
pub const ZERO_SCORE: u64 = 0x8000_0000_0000_0000;

// Four terms and their score by 64 bits.
#[tactic(auto, unfolding(crate::specs::Terms::scored_terms, crate::specs::Score::score_of))]
fn terms_small(quality: u64, risk: Wide, cost: u64, latency: u64) -> ScoredTerms
    requires { (quality < 2 ^ 62) × (val risk ≤ 2 ^ 63) }
    ensures { result ≡ scored_terms quality risk cost latency }
{
    let up = ZERO_SCORE - limbs::held(risk) + quality;
    ScoredTerms {
        quality_adjusted: widened(quality),
        risk_penalty: risk,
        cost_microunits: cost,
        latency_penalty: widened(latency),
        score: up.saturating_sub(latency).saturating_sub(cost),
    }
}

// The score of a gain less a loss by two limbs: `clamp_i128_to_i64` of the difference.
fn score_wide(gain: Wide, loss: Wide) -> u64
    requires { val gain < 2 ^ 120 }
    ensures { result ≡ score_of (val gain) (val loss) }
{
    let up = limbs::add(gain, limbs::of_one(ZERO_SCORE));
    let left = limbs::difference(up, loss);
    if left.negative {
        0
    } else {
        limbs::held(left.size)
    }
}

// The terms of a model's quality, cost and latency by two limbs. The numbers come one by one, the risk term as its limbs, so that the
// loop of a scan holds no struct for this call.
fn terms_exact(
    value: u64,
    confidence: u16,
    bps: u16,
    hi: u64,
    lo: u64,
    cost: u64,
    ms: u32,
    penalty: u64,
) -> ScoredTerms
    requires { limbs hi lo < 2 ^ 70 }
    ensures { result ≡ scored_terms (share_of value confidence bps) (record { hi = hi; lo = lo }) cost (ms * penalty) }
{
    let quality = share(value, confidence, bps);
    let latency = limbs_products::product(u64::from(ms), penalty);
    let risk = Wide { hi, lo };
    let loss = limbs::add(risk, limbs::add(limbs::of_one(cost), latency));
    ScoredTerms {
        quality_adjusted: quality,
        risk_penalty: risk,
        cost_microunits: cost,
        latency_penalty: latency,
        score: score_wide(quality, loss),
    }
}

// The same under a pricing, for callers outside a scan's loop.
#[tactic(auto, unfolding(crate::specs::Terms::terms_with))]
pub fn terms_wide(pr: Pricing, model: KernelModel, cost: u64) -> ScoredTerms
    requires { Settled pr }
    ensures { result ≡ terms_with pr model cost }
{
    let risk = pr.risk_penalty;
    terms_exact(
        pr.value,
        pr.confidence_bps,
        model.quality_bps,
        risk.hi,
        risk.lo,
        cost,
        model.p95_latency_ms.saturating_sub(pr.latency_allowance_ms),
        pr.latency_pen_per_ms,
    )
}

// A model's terms, its cost given: `Pricing::terms`. By 64 bits where the numbers that every model shares leave room for
// any model's.
pub fn terms(pr: Pricing, model: KernelModel, cost: u64) -> ScoredTerms
    requires { Settled pr }
    ensures { result ≡ terms_with pr model cost }
{
    let prefix = pr.quality_prefix;
    let penalty = pr.latency_pen_per_ms;
    let ms = model.p95_latency_ms.saturating_sub(pr.latency_allowance_ms);
    let risk = pr.risk_penalty;
    if prefix < PREFIX_LIMIT && penalty < HALF && limbs::held(risk) <= ZERO_SCORE {
        let quality = share_small(prefix, model.quality_bps);
        return terms_small(quality, risk, cost, u64::from(ms) * penalty);
    }
    terms_exact(
        pr.value,
        pr.confidence_bps,
        model.quality_bps,
        risk.hi,
        risk.lo,
        cost,
        ms,
        penalty,
    )
}

// The utility that a score stands for: the difference wraps below zero.
pub fn utility_of_score(score: u64) -> i64
    ensures { result ≡ unscored score }
{
    score.wrapping_sub(ZERO_SCORE).cast_signed()
}

// The terms with the utility itself.
#[tactic(auto, unfolding(crate::specs::Terms::utility_terms_of))]
pub fn utility_terms(t: ScoredTerms) -> UtilityTerms
    ensures { result ≡ utility_terms_of t }
{
    UtilityTerms {
        quality_adjusted: t.quality_adjusted,
        risk_penalty: t.risk_penalty,
        cost_microunits: t.cost_microunits,
        latency_penalty: t.latency_penalty,
        utility: utility_of_score(t.score),
    }
}
