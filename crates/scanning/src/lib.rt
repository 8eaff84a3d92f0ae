// The one-pass scan of a text, which building and reception share, and the work slice that both clear.
#![tactic(auto)]

pub mod scan;
pub mod work;
