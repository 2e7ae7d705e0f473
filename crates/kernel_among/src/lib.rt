// For other crates: the decision over so many records of a bank, all of them or its live ones, with its counts and the best two that it was made
// from.
#![tactic(auto)]

pub mod among;
