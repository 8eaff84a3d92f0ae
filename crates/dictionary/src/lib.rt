// The dictionary as it is lent, all characters run together and a list of lengths: its admission, and its words by number.
#![tactic(auto)]

pub mod admission;
pub mod words;
