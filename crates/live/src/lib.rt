// A bank whose models are swapped without a reload: its edits by id and its compaction, and decisions, explanations and boundaries over its live
// records alone. The calls passed on here ask nothing of their caller.
#![tactic(auto)]

pub use batch::live::{prescribe_batch, prescribe_batch_checked};
pub use explain::next_eligible;
pub use live_bounds::{decision_margin, what_would_win};
pub use live_compact::compact;
pub use live_edits::{add, remove, replace};
pub use live_explain::explain;
pub use live_kernel::{
    find, prescribe, prescribe_checked, prescribe_with_trace, prescribe_with_trace_checked,
    utility_for_model,
};
