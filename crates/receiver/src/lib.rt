// Reception of a delivered index, and recovery of its text.
#![tactic(auto)]

mod form_keys;
pub mod receive;
pub mod recover;
pub mod text;
