// The longest word of an admitted dictionary at a position of a text.
#![tactic(auto)]

pub mod longest;
pub mod ranges;
pub mod table;
