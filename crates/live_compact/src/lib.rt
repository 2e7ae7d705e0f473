// The compaction of a bank whose models are swapped. It asks nothing of its caller.
#![tactic(auto)]

mod closing;

pub use closing::compact;
