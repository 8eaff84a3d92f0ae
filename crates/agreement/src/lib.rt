// Where keys agree with a string: one key at an offset, and the directory lines whose keys agree at an offset from 0 up.
#![tactic(auto)]

mod blocks;
pub mod leading;
pub mod lone;
pub mod offset;
pub mod words;
