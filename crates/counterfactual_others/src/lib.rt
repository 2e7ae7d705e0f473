// For other crates: what the other records of a bank offer while one of them is varied. It is their best, which never changes then, and the
// opening decision has seen it: so a setting is decided by the verdict on one model and one comparison.
#![tactic(auto)]

pub mod rival;
