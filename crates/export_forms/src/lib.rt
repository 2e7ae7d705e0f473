// For the library: what stands behind the exported functions that hand over a record's offset or a form. Each function takes the very slices of
// an exported one and answers its word: 0, or the refusal's.
#![tactic(auto)]

pub mod forms;
pub mod offset;

pub use forms::{request_form_delivered, stored_form_delivered};
pub use offset::offset_delivered;
