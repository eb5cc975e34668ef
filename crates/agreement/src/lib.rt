// Whether what a call left in the slices lent to it is what is told.
#![tactic(auto)]

pub mod agree; // agree.rt: rows, slots and bytes
pub mod scores; // scores.rt: scores, by their bits
