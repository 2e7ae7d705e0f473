// The calls that decide over a lent bank. They ask nothing of their caller.
#![tactic(auto)]

mod calls;

pub use call_checks::{find, validate_input};
pub use calls::{prescribe, prescribe_checked, prescribe_with_trace, prescribe_with_trace_checked};
pub use kernel_utility::utility_for_model;
