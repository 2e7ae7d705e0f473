// For other crates: who was chosen, and why another model was not, in sentences that are put into a buffer from a position on, which must leave room.
#![tactic(auto)]

pub mod choice;
pub mod standing;
