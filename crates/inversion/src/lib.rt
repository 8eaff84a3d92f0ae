// Inverts the tokens of a text into posting lists by key, and writes these as the numbers of an index.
#![tactic(auto)]

pub mod chains;
pub mod write;
