// Models swapped in a bank without a reload: a record is added, replaced or removed by its id. Those passed on here ask nothing of their caller.
#![tactic(auto)]

mod edits;
pub mod epoch;
mod placing;

pub use edits::{add, remove, replace};
