// The calls that decide over the live records of a bank whose models are swapped: as those of `kernel`, as if it listed nothing else. They ask nothing of
// their caller. Users have them from `live`, which passes them on.
#![tactic(auto)]

mod calls;
mod single;
mod traced;

pub use calls::{prescribe, prescribe_checked, prescribe_with_trace, prescribe_with_trace_checked};
pub use single::{find, utility_for_model};
