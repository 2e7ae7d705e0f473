// For other crates: the searches for the value of a lever at which the decision turns, the lower half of the Rust's counterfactual.rs. A
// search knows no bank: of the other records it has the best. A lever's values must fit its field.
#![tactic(auto)]

pub mod far;
pub mod search;
pub mod side;
