// What the search goes by and what it carries along, as structs by value beside the lent slices. (Rust: the arguments and the locals of
// find_junction_best_haplotypes)
#![tactic(auto)]

use out_edges::Graph;
use path_store::chains::Chains;
use threading_tree::Trees;

// What the search reads and never writes: the graph with the symbolic edge linked, its trees, the chains and the logarithm column; the sink, the far end
// of the symbolic edge, the least total that reaches the threshold, and the caller's numbers.
// The steps are lent it: by value, which was tried, its twenty words were copied at each call, and long searches took longer.
// The slices that a step writes stay parameters one by one: held in a struct, each contract would have to say of each which slice was lent.
#[derive(Clone, Copy)]
pub struct Setting<'a> {
    pub graph: Graph<'a, 'a>,
    pub trees: Trees<'a>,
    pub chains: Chains<'a, 'a>,
    pub column: &'a [f64],
    pub sink: u32,
    pub symbolic: u32,
    pub least: usize,
    pub most: u32,
    pub active: usize,
    pub pushes: usize,
    pub asked: usize,
}

// How many path records are used, how many paths wait, how many have closed, the place of the next pivotal edge, how many edges are pivotal,
// the pushes made, and the greatest number that have waited.
#[derive(Clone, Copy)]
pub struct Progress {
    pub records: u32,
    pub waiting: usize,
    pub closed: usize,
    pub next: usize,
    pub pivotal: usize,
    pub pushes: usize,
    pub mark: usize,
}
