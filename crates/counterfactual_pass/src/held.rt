// What a search holds while one lever is varied: what is asked, and with it what policy and request settle once for every setting.
ghost use Rattle.std.specs.Prelude.{◌≡◌, ◌≤◌};
ghost use Rattle.pricing.specs.Pricing.{pricing_of, Settled};
ghost use Rattle.counterfactual_lever.specs.Lever.{widest};
ghost use Rattle.counterfactual_pass.specs.Asked.{wins_by};

use crate::pass::Asked;
use counterfactual_lever::lever_at;
use counterfactual_others::rival::{best_with, has_id};
use kernel_scan::pricing_for;
use pricing::Pricing;

#[derive(Clone, Copy)]
pub struct Held {
    pub asked: Asked,
    pub pricing: Pricing,
    ghost settled: { Settled pricing },
}

impl Held {
    pub fn new(asked: Asked) -> Held
        ensures { (result.asked ≡ asked) × (result.pricing ≡ pricing_of asked.policy asked.input) }
    {
        let pricing = pricing_for(asked.policy, asked.input);
        Held { asked, pricing }
    }

    // Whether the decision with a lever at a value selects the model's id: by the verdict on that model, and one comparison with the best of the
    // others.
    pub fn wins(&self, lever: u8, value: u64) -> bool
        requires { value ≤ widest lever }
        ensures { result ≡ wins_by self.now.pricing self.now.asked.input self.now.asked.model self.now.asked.place self.now.asked.id self.now.asked.rival lever value }
    {
        let asked = &self.asked;
        let model = lever_at(asked.model, lever, value);
        let best = best_with(asked.rival, asked.place, model, self.pricing, asked.input);
        has_id(best, asked.id)
    }
}
