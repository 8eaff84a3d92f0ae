// The directory of an index with the words of its dictionary: tables of starts, the word and the positions of a line, and binary search for
// keys.
#![tactic(auto)]

pub mod lines;
pub mod opened;
pub mod ranges;
pub mod tables;
