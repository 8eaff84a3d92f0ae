// Which directory lines have keys that bear on a string.
#![tactic(auto)]

pub mod bearing;
mod flags;
mod offsets;
