// The stored form of a policy with its bank, and the request form: read from bytes, and written to a lent buffer. Nothing is asked of a caller.
#![tactic(auto)]

mod catalog;
mod request;

pub use catalog::{read_stored, write_stored};
pub use request::{read_request, write_request};
