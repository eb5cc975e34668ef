// What a fork offers a path, over the stores. An active tree of a path is a slot of the node table, and its branches are the children of that slot.
// Each function asks for the rows that it reads or writes: the tables are lent slices of numbers, so no type of this project holds that they are there.
// (Rust: JtPath, junction_kbest.rs)
#![tactic(auto)]

ghost use Rattle.std.specs.Prelude.{◌≡◌, ◌+◌, ◌*◌, ◌^◌, ◌<◌, ◌≤◌, length, IfSome, [], ◌∷◌};
ghost use Rattle.definition.specs.Threading.{leaving};
ghost use Rattle.threading_node.specs.Ends.{ends_of};
ghost use Rattle.threading_node.specs.Links.{link_to, Linked};
ghost use Rattle.threading_node.specs.Slots.{Slot};
ghost use Rattle.threading_tree.specs.Read.{Readable};
ghost use Rattle.fork_offers.specs.Actives.{Least, Active};
ghost use Rattle.fork_offers.specs.Stops.{Stops};
ghost use Rattle.fork_offers.specs.Walks.{Treed, WalkedTo, Walkable, Walked};
ghost use Rattle.fork_offers.specs.Real.{Fork, OutTo, RealEdge, outs_of};
ghost use Rattle.fork_offers.specs.Best.{Better, Chosen};
ghost use Rattle.fork_offers.specs.Rows.{Offered, Grown, seen_of};
ghost use Rattle.fork_offers.specs.Trees.{Adds, branch_offer, Offering, TreeOffered, BestOffering, BestOffered};
ghost use Rattle.fork_offers.specs.Support.{worth, EdgeAdds, support_offers, all_support, EdgesOffering};
ghost use Rattle.fork_offers.specs.Offers.{Forks, Offers};
ghost use Rattle.assembly.specs.Store.{edge_at, edges_of};
ghost use Rattle.fork_offers.specs.Fields.{HasOffer, row_of, put_row};

use assembly::{SUPPORT, edge_is_ref, edge_support, edge_to};
use out_edges::{Graph, next_out};
use tables::{EDGE, OFFER};
use threading_node::{Edge, edge_of, evidence_count, first_child, siblings_from};
use threading_tree::Trees;

// The least total that reaches the threshold, which may be below zero.
pub fn least_total(threshold: i32) -> usize
    ensures { Least threshold result }
{
    usize::try_from(threshold).unwrap_or(0)
}

// The trees of a path stand at `count` places from `at` on of a table that all paths share. The three functions that take them are given place and count,
// and no sub-slice: `walk_trees` reads one part of the lent table and writes another, so that all three contracts speak of the one table, and none of a
// part cut out of it.

// At the sink: no active tree reaches the threshold, or it or an earlier one offers the symbolic edge. `least` is the least total that reaches the
// threshold.
pub fn has_stopping_evidence(
    trees: Trees,
    active: &[u16],
    at: usize,
    count: usize,
    symbolic: Edge,
    least: usize,
) -> bool
    requires { Active trees.cap trees.count trees.nodes.now active.now at (at + count) }
    ensures { Stops trees.entry.cap trees.entry.count trees.entry.nodes.now active.now at (at + count) (ends_of symbolic) least result }
{
    for i in at..at + count {
        let start = first_child(trees.nodes, usize::from(active[i]));
        if trees.child_slot(start, symbolic).is_some() {
            return true;
        }
        if trees.total_out_for_branch(start) >= least {
            return false;
        }
    }
    true
}

// ---- an edge is taken

// The slot of the child for the edge of the node in slot s, if that child has a branch.
fn walk_tree(trees: Trees, s: usize, edge: Edge) -> Option<usize>
    requires { Treed trees.cap trees.count trees.nodes.now s }
    ensures { WalkedTo trees.entry.count trees.entry.nodes.now s (ends_of edge) result }
{
    let c = trees.child_slot(first_child(trees.nodes, s), edge)?;
    if first_child(trees.nodes, c).is_none() {
        return None;
    }
    Some(c)
}

// The active trees after the edge is taken, from place `to` on: those that still have a branch. The answer is how many. The place is counted by hand,
// since the two parts lie in one lent table, which no iterator lends twice.
pub fn walk_trees(
    trees: Trees,
    active: &mut [u16],
    at: usize,
    count: usize,
    to: usize,
    edge: Edge,
) -> usize
    requires { Walkable trees.cap trees.count trees.nodes.now active.old at (at + count) to }
    ensures { Walked trees.entry.cap trees.entry.count trees.entry.nodes.now active.old active.new at (at + count) to (ends_of edge) result }
{
    let mut j = to;
    for i in at..at + count {
        if let Some(c) = walk_tree(trees, usize::from(active[i]), edge) {
            active[j] = c as u16;
            j += 1;
        }
    }
    j - to
}

// ---- the rows of the offers

// A row has the edge's number, the count, the total, and 1 where a tree offers it: numbers, since the rows stand in a lent slice of them. How many rows there
// are (k, of them `seen` to be looked through) is told beside it, since the slice is lent as long as a fork could ever need and no Vec may be made.
pub const OFFER_EDGE: usize = 0;

pub const OFFER_COUNT: usize = 1;

pub const OFFER_TOTAL: usize = 2;

pub const OFFER_GUIDED: usize = 3;

// An offer: the number of the edge, its count of the total, and whether a tree offers it.
#[derive(Clone, Copy)]
pub struct Offer {
    pub edge: u32,
    pub count: u32,
    pub total: u32,
    pub guided: bool,
}

// The offer in row i.
pub fn offer_at(out: &[u32], i: usize) -> Offer
    requires { HasOffer out.now i }
    ensures { result ≡ row_of out.now i }
{
    Offer {
        edge: out[i * OFFER + OFFER_EDGE],
        count: out[i * OFFER + OFFER_COUNT],
        total: out[i * OFFER + OFFER_TOTAL],
        guided: out[i * OFFER + OFFER_GUIDED] != 0,
    }
}

// The row k; the answer is the next row.
fn put_offer(out: &mut [u32], k: usize, offer: Offer) -> usize
    requires { HasOffer out.old k }
    ensures { (out.new ≡ put_row out.old k offer) × (result ≡ k + 1) }
{
    out[k * OFFER + OFFER_EDGE] = offer.edge;
    out[k * OFFER + OFFER_COUNT] = offer.count;
    out[k * OFFER + OFFER_TOTAL] = offer.total;
    out[k * OFFER + OFFER_GUIDED] = u32::from(offer.guided);
    k + 1
}

// Whether one of the first k rows names the edge. (A loop: with `any` the same two cases are left to be shown, and one lemma more is needed.)
fn offered(out: &[u32], k: usize, edge: usize) -> bool
    requires { k * 4 ≤ length out.now }
    ensures { Offered out.now k edge result }
{
    for i in 0..k {
        if out[i * OFFER + OFFER_EDGE] as usize == edge {
            return true;
        }
    }
    false
}

// ---- the fork

// Where a path stands: the stores, the vertex, and the symbolic edge, which is no branch. `Fork` is asked by the methods and is no ghost field, since `Adds`,
// `Offering` and `Forks`, which ask for room besides, hold it already.
#[derive(Clone, Copy)]
pub struct Junction<'v, 'e, 'n> {
    pub graph: Graph<'v, 'e>,
    pub trees: Trees<'n>,
    pub vertex: usize,
    pub symbolic: Edge,
}

impl<'v, 'e, 'n> Junction<'v, 'e, 'n> {
    // The out-edge to the vertex `to`.
    fn out_edge_to(self, to: usize) -> Option<usize>
        requires { Fork self.graph.vertices.now self.graph.edges.now self.graph.count self.vertex }
        ensures { OutTo self.entry.graph.edges.now self.entry.graph.count self.entry.vertex to result }
    {
        let i = next_out(self.graph.vertices, self.graph.edges, self.vertex, to)?;
        if edge_to(self.graph.edges, i) != to {
            return None;
        }
        Some(i)
    }

    // The out-edge of the node in slot s, if there is one that is not the symbolic edge.
    fn real_edge(self, s: usize) -> Option<usize>
        requires { Fork self.graph.vertices.now self.graph.edges.now self.graph.count self.vertex × Slot s self.trees.nodes.now }
        ensures { RealEdge self.entry.graph.edges.now self.entry.graph.count self.entry.vertex self.entry.trees.nodes.now s (ends_of self.entry.symbolic) result }
    {
        let edge = edge_of(self.trees.nodes, s);
        if edge.from as usize != self.vertex {
            return None;
        }
        if edge == self.symbolic {
            return None;
        }
        self.out_edge_to(edge.to as usize)
    }

    // Of the best slot so far and the sibling in slot `at`: the one of greater count, the sibling where they are equal.
    fn better(self, best: Option<usize>, at: usize) -> Option<usize>
        requires { Fork self.graph.vertices.now self.graph.edges.now self.graph.count self.vertex × IfSome best (λ s. Slot s self.trees.nodes.now) × Slot at self.trees.nodes.now }
        ensures { Better self.entry.trees.nodes.now (outs_of self.entry.graph.edges.now self.entry.graph.count self.entry.vertex) (ends_of self.entry.symbolic) best at result }
    {
        if self.real_edge(at).is_none() {
            return best;
        }
        let Some(old) = best else {
            return Some(at);
        };
        if evidence_count(self.trees.nodes, at) < evidence_count(self.trees.nodes, old) {
            return best;
        }
        Some(at)
    }

    // The slot of the best real branch of the row of siblings that begins at `start`: that of greatest count, ties to the larger edge.
    fn best_branch(self, start: Option<usize>) -> Option<usize>
        requires { Fork self.graph.vertices.now self.graph.edges.now self.graph.count self.vertex × Readable self.trees.cap self.trees.count self.trees.nodes.now (link_to start) × Linked start }
        ensures { Chosen self.entry.trees.count self.entry.trees.nodes.now (outs_of self.entry.graph.edges.now self.entry.graph.count self.entry.vertex) (link_to start) (ends_of self.entry.symbolic) result }
    {
        let mut best = None;
        for s in siblings_from(self.trees.nodes, start) {
            best = self.better(best, s);
        }
        best
    }

    // The branch in slot s is offered after the first k rows, where its edge is real and not named by the first `seen` rows.
    fn offer_branch(self, s: usize, total: usize, out: &mut [u32], seen: usize, k: usize) -> usize
        requires { Adds self.graph.vertices.now self.graph.edges.now self.graph.count self.trees.nodes.now s total self.vertex (ends_of self.symbolic) out.old seen k }
        ensures { Grown self.entry.graph.edges.now self.entry.graph.count out.old out.new k result (branch_offer (seen_of self.entry.graph.edges.now out.old seen) (outs_of self.entry.graph.edges.now self.entry.graph.count self.entry.vertex) (ends_of self.entry.symbolic) self.entry.trees.nodes.now total s) }
    {
        let Some(i) = self.real_edge(s) else {
            return k;
        };
        if offered(out, seen, i) {
            return k;
        }
        let offer = Offer {
            edge: i as u32,
            count: evidence_count(self.trees.nodes, s),
            total: total as u32,
            guided: true,
        };
        put_offer(out, k, offer)
    }

    // All branches of the row of siblings that begins at `start` are offered after the first k rows, but for the edges that those name.
    fn offer_branches(self, start: Option<usize>, total: usize, out: &mut [u32], k: usize) -> usize
        requires { Offering self.graph.vertices.now self.graph.edges.now self.graph.count self.trees.cap self.trees.count self.trees.nodes.now (link_to start) total self.vertex (ends_of self.symbolic) out.old k × Linked start }
        ensures { TreeOffered self.entry.graph.edges.now self.entry.graph.count self.entry.trees.count self.entry.trees.nodes.now (link_to start) total self.entry.vertex (ends_of self.entry.symbolic) out.old out.new k result }
    {
        let mut row = k;
        for s in siblings_from(self.trees.nodes, start) {
            row = self.offer_branch(s, total, out, k, row);
        }
        row
    }

    // Only the best branch of the row of siblings is offered.
    fn offer_best(self, start: Option<usize>, total: usize, out: &mut [u32], k: usize) -> usize
        requires { BestOffering self.graph.vertices.now self.graph.edges.now self.graph.count self.trees.cap self.trees.count self.trees.nodes.now (link_to start) total self.vertex (ends_of self.symbolic) out.old k × Linked start }
        ensures { BestOffered self.entry.graph.edges.now self.entry.graph.count self.entry.trees.count self.entry.trees.nodes.now (link_to start) total self.entry.vertex (ends_of self.entry.symbolic) out.old out.new k result }
    {
        let Some(s) = self.best_branch(start) else {
            return k;
        };
        self.offer_branch(s, total, out, k, k)
    }

    // What the fork offers, as rows from the first of `out` on; the answer is how many. The active trees come in order: one that reaches the threshold
    // offers its best branch and closes the fork, and where none does the other out-edges follow by support.
    pub fn applicable_next_edges(
        self,
        active: &[u16],
        at: usize,
        count: usize,
        least: usize,
        out: &mut [u32],
    ) -> usize
        requires { Forks self.graph.vertices.now self.graph.edges.now self.graph.count self.trees.cap self.trees.count self.trees.nodes.now active.now at (at + count) self.vertex (ends_of self.symbolic) least out.old }
        ensures { Offers self.entry.graph.edges.now self.entry.graph.count self.entry.trees.cap self.entry.trees.count self.entry.trees.nodes.now active.now at (at + count) self.entry.vertex (ends_of self.entry.symbolic) least out.new result }
    {
        let mut k: usize = 0;
        for i in at..at + count {
            let start = first_child(self.trees.nodes, usize::from(active[i]));
            let total = self.trees.total_out_for_branch(start);
            if total >= least {
                return self.offer_best(start, total, out, k);
            }
            k = self.offer_branches(start, total, out, k);
        }
        let total = total_support(self.graph, self.vertex);
        offer_edges(self.graph, self.vertex, total, out, k)
    }
}

// ---- by support

// Whether an edge is offered by its support: not at 0, and no reference edge at 1. (A pivotal edge may have support 0, so that test is another.)
fn is_worth(support: u32, marked: bool) -> bool
    ensures { result ≡ worth support marked }
{
    support > 1 || support == 1 && !marked
}

// The out-edge i is offered by its support after the first k rows, where it is worth it and not named by the first `seen` rows.
fn offer_edge(
    graph: Graph,
    v: usize,
    i: usize,
    total: usize,
    out: &mut [u32],
    seen: usize,
    k: usize,
) -> usize
    requires { EdgeAdds graph.edges.now graph.count i total graph.vertices.now v out.old seen k }
    ensures { Grown graph.entry.edges.now graph.entry.count out.old out.new k result (support_offers (seen_of graph.entry.edges.now out.old seen) total (edge_at graph.entry.edges.now i ∷ [])) }
{
    let count = graph.edges[i * EDGE + SUPPORT];
    if !is_worth(count, edge_is_ref(graph.edges, i)) {
        return k;
    }
    if offered(out, seen, i) {
        return k;
    }
    let offer = Offer {
        edge: i as u32,
        count,
        total: total as u32,
        guided: false,
    };
    put_offer(out, k, offer)
}

// The supports of v's out-edges, added. (As a loop: `sum` asks that every sum along the iterator fits, and `map` that its closure may be called at each
// turn; the loop's invariant says both, so that the chain is no plainer.)
fn total_support(graph: Graph, v: usize) -> usize
    requires { Fork graph.vertices.now graph.edges.now graph.count v × (all_support graph.edges.now graph.count v < 2 ^ 32) }
    ensures { result ≡ all_support graph.entry.edges.now graph.entry.count v }
{
    let mut total: usize = 0;
    for i in graph.out_edges(v) {
        total += edge_support(graph.edges, i);
    }
    total
}

// The out-edges of v are offered by their support after the first k rows, but for the edges that those name.
fn offer_edges(graph: Graph, v: usize, total: usize, out: &mut [u32], k: usize) -> usize
    requires { EdgesOffering graph.vertices.now graph.edges.now graph.count v total out.old k }
    ensures { Grown graph.entry.edges.now graph.entry.count out.old out.new k result (support_offers (seen_of graph.entry.edges.now out.old k) total (leaving (edges_of graph.entry.edges.now graph.entry.count) v)) }
{
    let mut row = k;
    for i in graph.out_edges(v) {
        row = offer_edge(graph, v, i, total, out, k, row);
    }
    row
}
