// Builds an index: replaces the text's full-width forms, scans it into tokens, inverts these into posting lists, writes the numbers.
#![tactic(auto)]

pub mod build;
mod text;
