// For other crates: what refuses the records of a bank, each by itself and by the ids before it. `catalogue` has the calls that users make.
#![tactic(auto)]

mod ids;
mod records;

pub use records::records_outcome;
