// Opens an index: tests it once, and hands it on as one record.
#![tactic(auto)]

pub mod opened;
pub mod string;
