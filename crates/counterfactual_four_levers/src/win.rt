// The levers of a model that was not selected, each searched for the smallest change after which it is.
ghost use Rattle.std.specs.Prelude.{◌≡◌};
ghost use Rattle.rules.specs.Win.{win_levers};
ghost use Rattle.counterfactual_pass.specs.Asked.{question_in, Stands};
ghost use Rattle.counterfactual_answer.specs.Levers.{told_levers, room_of};

use crate::cost::price_cost;
use counterfactual_answer::levers::noted_levers;
use counterfactual_lever::{P95_LATENCY_MS, PRICE_SCALE_PPM, QUALITY_BPS, RISK_CEILING_BPS};
use counterfactual_pass::held::Held;
use counterfactual_pass::pass::Asked;
use counterfactual_search::search::{highest_true, lowest_true};
use rules::Levers;
use rules::limits::{MAX_BPS, PPM};

// Four levers, each searched from today's value to its favourable end.
pub fn win_levers(asked: Asked, bank: &[u8]) -> Levers
    requires { Stands asked bank.now }
    ensures { told_levers result ≡ room_of (win_levers (question_in asked bank.now)) }
{
    let model = asked.model;
    let most = MAX_BPS as u64;
    let quality = model.quality_bps as u64;
    let latency = model.p95_latency_ms as u64;
    let ceiling = model.risk_ceiling_bps as u64;
    let held = Held::new(asked);
    let by_quality = lowest_true(&held, QUALITY_BPS, quality, most);
    let by_latency = highest_true(&held, P95_LATENCY_MS, 0, latency);
    let by_price = highest_true(&held, PRICE_SCALE_PPM, 0, PPM);
    let by_ceiling = lowest_true(&held, RISK_CEILING_BPS, ceiling, most);
    let cost = price_cost(asked, bank, by_price);
    noted_levers(model, by_quality, by_latency, by_price, cost, by_ceiling)
}
