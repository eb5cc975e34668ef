// Known answers, as numbers: how they are told, and whether the calls for lengths, for origins, and for edges and trees give them; for the call for the
// list, whether its rows are those told.
#![tactic(auto)]

pub mod numbers; // numbers.rt: the numbers of the data, and lists and runs in them
pub mod column; // column.rt: columns
pub mod rows; // rows.rt: the rows of a list, its bases and its origins
pub mod calls; // calls.rt: lengths, origins, edges and trees
