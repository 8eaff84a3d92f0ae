// How an index lies as numbers: the header (n and K), three numbers a directory line (kind, value, count), then the positions of each line
// in turn. No other crate knows these offsets.
#![tactic(auto)]

pub mod fields;
pub mod keys;
pub mod lines;
pub mod write;
