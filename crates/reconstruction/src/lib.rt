// Passes over the entries of an index: the text reconstructed from them, whether they stand in a text, and the line map.
#![tactic(auto)]

pub mod checked;
pub mod entries;
pub mod line_map;
pub mod matches;
