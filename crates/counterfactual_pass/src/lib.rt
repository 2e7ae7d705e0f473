// For other crates: one pass of a search, a setting of one lever decided. Either by what the search carries of the model, the request and the
// best of the others (`held`), or over the bank with its stand-in (`pass`). A lever's values must fit its field; `pass::selected` asks nothing.
#![tactic(auto)]

pub mod held;
pub mod pass;
