// Printing the lines of an answer.
#![tactic(auto)]

pub mod print;
