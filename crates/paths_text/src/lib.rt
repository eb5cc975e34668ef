// What the program `paths` is handed: its text and its column file, taken apart over lent slices, and refusals 1 to 5.
#![tactic(auto)]

pub mod gather; // gather.rt: the reads brought together
pub mod source; // source.rt: the whole text
pub mod column; // column.rt: the column file
pub mod check; // check.rt: refusals 1 to 5 as the program meets them
