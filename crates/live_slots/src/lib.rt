// For other crates: the slots of a bank read once, and so many of its records. How many is a number beside the bank, since users' calls lend the bank alone
// and what counts them differs (`Among`).
#![tactic(auto)]

pub mod slots;
