// Full-width forms, replaced in texts and search strings (width folding).
#![tactic(auto)]

pub mod forms;
