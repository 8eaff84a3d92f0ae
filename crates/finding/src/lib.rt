// Searches a window of starts: counts what is found in it, then writes it.
#![tactic(auto)]

pub mod finding;
pub mod text_scan;
pub mod window;
