// Search of an index without its text: every position, or the first.
#![tactic(auto)]

mod estimate;
pub mod first;
mod first_starts;
mod first_windows;
pub mod search;
mod starts;
mod window;
