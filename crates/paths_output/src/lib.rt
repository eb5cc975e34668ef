// What the program `paths` prints, written into a lent slice.
#![tactic(auto)]

pub mod writing; // writing.rt: the lines printed
pub mod listing; // listing.rt: what an accepted list prints
