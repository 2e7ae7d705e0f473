// For the library: what the exported functions tell in printed texts. Each function takes the very slices of an exported one and answers its
// word: 0, or the refusal's.
#![tactic(auto)]

pub mod texts;

pub use texts::{ask_text_delivered, ask_words_delivered, unit_text_delivered};
