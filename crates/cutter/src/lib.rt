// The cut-down index for one string.
#![tactic(auto)]

pub mod cut;
mod cutting;
