// For other crates: four levers of one model searched, to their favourable ends or to their far ones, and what the decision at the price's
// boundary costs. Asked under what `counterfactual_pass` asks for.
#![tactic(auto)]

mod cost;
pub mod margin;
pub mod win;
