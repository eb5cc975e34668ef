// The paths of the search, as parent-linked records in lent slices (JtPath), and the chains that they add.
// How many records are used stands beside them: the slices are lent as long as their maximum allows, and records are added.
#![tactic(auto)]

pub mod chains; // chains.rt: the chain of single edges after a vertex
pub mod records; // records.rt: the record of a path, read from the slices and written to them
pub mod upward; // upward.rt: the records of a path from its own up to the start path
