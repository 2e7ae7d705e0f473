// The explanation of a decision: what every record of a bank is told, as a list of packed entries in a lent buffer, and the eligible
// entries of such a list. Those passed on here ask nothing of their caller; `among` is for other crates.
#![tactic(auto)]

pub mod among;
mod calls;
mod list;

pub use calls::explain;
pub use explain_walk::next_eligible;
