// Reads a job sheet: its digits, its forms, its parts, and the job that it asks for.
#![tactic(auto)]

pub mod digits;
pub mod form;
pub mod job;
pub mod sheet;
