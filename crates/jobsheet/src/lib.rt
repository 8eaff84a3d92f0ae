// The answer to a job sheet: bytes in, bytes out.
#![tactic(auto)]

pub mod answer;
pub mod finds;
mod job;
pub mod lines;
