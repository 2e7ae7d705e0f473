// For `explain`: what one record is told, with its numbers, and the 72 bytes of its entry.
#![tactic(auto)]

pub mod entry;
pub mod verdict;
