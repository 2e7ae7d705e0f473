// For other crates: what a scan holds between two records, the ranking of one record more, and the reason of the largest count.
#![tactic(auto)]

pub mod rank;
pub mod reason;
pub mod state;
