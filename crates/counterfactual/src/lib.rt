// What would have to change for a decision to come out differently: the Rust's counterfactual.rs. The two calls passed on here ask nothing
// of their caller.
#![tactic(auto)]

pub use counterfactual_margin::decision_margin;
pub use counterfactual_win::what_would_win;
