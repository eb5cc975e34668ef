// The form of the text that the program `paths` reads: where its parts stand in a lent slice, and a text that is not of the form told.
#![tactic(auto)]

pub mod numbers; // numbers.rt: decimal numbers
pub mod header; // header.rt: the first line
pub mod reads; // reads.rt: the lines behind the first
