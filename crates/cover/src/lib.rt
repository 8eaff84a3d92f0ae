// The greedy cover: how far entries that agree with a string, laid at each start of a window, cover it. One number a start is kept, its
// reach: the length of the covered prefix.
//
// The leading keys come first, those at an offset of 0 or below, then the offsets above 0 in ascending order.
#![tactic(auto)]

mod extend;
mod leading;
mod lines;
mod lower_bound;
mod offsets;
mod placement;
pub mod window;
