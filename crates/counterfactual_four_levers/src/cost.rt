// The price's cost, which both answers tell. It alone needs a decision over the bank, so it stands apart from the noting of the levers.
ghost use Rattle.std.specs.Prelude.{◌≡◌};
ghost use Rattle.counterfactual_pass.specs.Asked.{question_in, Stands};
ghost use Rattle.counterfactual_answer.specs.Levers.{cost_at};

use counterfactual_lever::PRICE_SCALE_PPM;
use counterfactual_pass::pass::{Asked, decision_at};
use rules::Bound;

// What the decision at the price's boundary costs: a pass of its own, over the bank. 0 where there is no boundary.
pub fn price_cost(asked: Asked, bank: &[u8], found: Bound) -> u64
    requires { Stands asked bank.now }
    ensures { result ≡ cost_at (question_in asked bank.now) found }
{
    match found.boundary {
        Some(scale) => decision_at(asked, bank, PRICE_SCALE_PPM, scale).estimated_cost_microunits,
        None => 0,
    }
}
