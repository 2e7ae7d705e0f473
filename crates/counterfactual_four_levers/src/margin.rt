// The levers of the model that was selected, each searched for how far it can move before it isn't.
ghost use Rattle.std.specs.Prelude.{◌≡◌};
ghost use Rattle.rules.specs.Margin.{margin_levers};
ghost use Rattle.counterfactual_pass.specs.Asked.{question_in, Stands};
ghost use Rattle.counterfactual_answer.specs.Levers.{told_levers, room_of};

use crate::cost::price_cost;
use counterfactual_answer::levers::noted_levers;
use counterfactual_lever::{P95_LATENCY_MS, PRICE_SCALE_PPM, QUALITY_BPS, RISK_CEILING_BPS};
use counterfactual_pass::held::Held;
use counterfactual_pass::pass::Asked;
use counterfactual_search::far::{highest_below, lowest_above};
use counterfactual_search::search::lowest_true;
use rules::Levers;
use rules::limits::{MAX_PRICE_SCALE_PPM, PPM};

// The highest latency that a model can have.
const MAX_LATENCY_MS: u64 = 0xffff_ffff;

// Four levers, each searched from today's value to its far end. Quality is searched at once: at 0 a model is never eligible, so that with
// unique ids its far end can't win.
pub fn margin_levers(asked: Asked, bank: &[u8]) -> Levers
    requires { Stands asked bank.now }
    ensures { told_levers result ≡ room_of (margin_levers (question_in asked bank.now)) }
{
    let model = asked.model;
    let quality = model.quality_bps as u64;
    let latency = model.p95_latency_ms as u64;
    let ceiling = model.risk_ceiling_bps as u64;
    let held = Held::new(asked);
    let by_quality = lowest_true(&held, QUALITY_BPS, 0, quality);
    let by_latency = highest_below(&held, P95_LATENCY_MS, latency, MAX_LATENCY_MS);
    let by_price = highest_below(&held, PRICE_SCALE_PPM, PPM, MAX_PRICE_SCALE_PPM);
    let by_ceiling = lowest_above(&held, RISK_CEILING_BPS, 0, ceiling);
    let cost = price_cost(asked, bank, by_price);
    noted_levers(model, by_quality, by_latency, by_price, cost, by_ceiling)
}
