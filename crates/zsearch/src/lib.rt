// Z-search: the length of the longest prefix of a string at each start of a text, and the sentinel of a string.
#![tactic(auto)]

pub mod prefix_lengths;
pub mod sentinel;
pub mod symbol;
pub mod zarray;
pub mod zbox;
