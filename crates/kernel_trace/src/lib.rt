// For other crates: the decision with its counts, over a bank whose length is tested.
#![tactic(auto)]

pub mod lent;
pub mod trace;
