// What is asked of the paths that closed.
#![tactic(auto)]

pub mod pivotal; // pivotal.rt: pivotal edges struck out, the best closed path, and where it is split
pub mod writing; // writing.rt: the bases and origins of a path
