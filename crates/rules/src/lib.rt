// The types and constants that every crate shares, under the names of the Rust, a file for each part of document 01.
// What they mean is said in specs/. No code here does more than give a case its number or answer one question of a
// decision.
#![tactic(auto)]

pub mod boundary;
pub mod decision;
pub mod forms;
pub mod limits;
pub mod records;
pub mod refusal;
pub mod verdict;
pub mod wide;

pub use boundary::{Bound, Boundaries, Levers, Requirement};
pub use decision::{DecisionTrace, KernelAction, KernelDecision, KernelReason, RejectionHistogram};
pub use forms::{Reader, Within};
pub use records::{KernelInput, KernelModel, PolicySnapshot, Rounding};
pub use refusal::Refusal;
pub use verdict::{CandidateVerdict, GateDetail, UtilityTerms};
pub use wide::{SignedWide, Wide};
