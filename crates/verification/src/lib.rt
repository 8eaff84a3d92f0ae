// The reception test: whether the scan of a text registers exactly the entries of an index.
#![tactic(auto)]

pub mod verify;
