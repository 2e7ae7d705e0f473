// For other crates: what opens an exported function, the tests of lengths, bank and room that come before it decides or hands over anything;
// a refusal as one word; and an answer handed over.
#![tactic(auto)]

pub mod hand;
pub mod refuse;
pub mod word;

pub use hand::{hand_bytes, hand_u64};
pub use refuse::{call_outcome, checked_call_outcome, lent_outcome, request_outcome, request_word};
pub use word::{outcome_word, refusal_word};
