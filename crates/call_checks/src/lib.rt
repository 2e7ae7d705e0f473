// For other crates: what a call does before it decides. It refuses a bank or a request, and finds the place of an id. Users have the two that
// are passed on here from `kernel`.
#![tactic(auto)]

pub mod listing;
pub mod refuse;

pub use listing::find;
pub use refuse::validate_input;
