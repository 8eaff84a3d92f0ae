// The gap form of an index, and its inverse.
#![tactic(auto)]

pub mod form;
mod writing;
