// Whether delivered numbers are a readable index.
#![tactic(auto)]

mod descents;
mod lines;
pub mod lists;
pub mod readability;
