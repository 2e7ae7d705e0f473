// A batch: the caller's row of requests, and the caller's row of decisions, which is filled from its start. Users have the calls over live records from
// `live`, which passes them on.
#![tactic(auto)]

mod every;
pub mod live;
mod over;

pub use every::{prescribe_batch, prescribe_batch_checked};
