// How many numbers a row of each table has. What the numbers of a row are is known to the crate that owns the table, and named there.
#![tactic(auto)]

// the rows that the call for edges and trees writes
pub const EDGE_ROW: usize = 6;

pub const NODE_ROW: usize = 4;

// assembly: a vertex and an edge; graph_kmers: what finds a kmer
pub const VERTEX: usize = 12;

pub const EDGE: usize = 6;

pub const KMER: usize = 2;

// threading_node: a tree node; threading_tree: an open tree
pub const NODE: usize = 5;

pub const OPEN: usize = 2;

// path_store: a path
pub const PATH: usize = 9;

// pivotal_edges: an edge whose target is still to be looked at
pub const QUEUED: usize = 2;

// fork_offers: an offer, and all the offers of a fork, eight at most
pub const OFFER: usize = 4;

pub const FORK: usize = 32;
