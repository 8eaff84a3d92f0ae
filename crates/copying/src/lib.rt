// Runs of characters compared, and numbers and characters written.
#![tactic(auto)]

pub mod compare;
pub mod slices;
