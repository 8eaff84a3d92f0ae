// The tally of an index, and the shorter of two position lists.
#![tactic(auto)]

pub mod lines;
pub mod tallying;
