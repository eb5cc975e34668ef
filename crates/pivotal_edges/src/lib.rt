// The pivotal edges: those of forks, by their distance from the source and then by their ends.
// Each function asks for the rows that it reads or writes: the tables are lent slices of numbers, so no type of this project holds that they are there.
#![tactic(auto)]

ghost use Rattle.std.specs.Prelude.{◌≡◌, true, List, ◌∷◌, ◌+◌, ◌*◌, ◌/◌, ◌%◌, ◌<◌, ◌≤◌, ltb, length};
ghost use Rattle.std.proofs.lemmas.List.Edits.{sets};
ghost use Rattle.definition.specs.Threading.{Ends, leaving};
ghost use Rattle.definition.specs.Search.{pivotal_of};
ghost use Rattle.assembly.specs.Fields.{HasEdge};
ghost use Rattle.assembly.specs.Store.{edge_at, edges_of};
ghost use Rattle.pivotal_edges.specs.Queue.{Fits, before, part, Known, Placed, Enqueued};
ghost use Rattle.pivotal_edges.specs.Walk.{Here, Seen, fresh};
ghost use Rattle.pivotal_edges.specs.Lists.{counts, takes, OneListed, Lists, Listed};
ghost use Rattle.pivotal_edges.specs.Queues.{QueuesOne, OneQueued, Queues, QueuedOut};
ghost use Rattle.pivotal_edges.specs.Marks.{Marks, Marked};
ghost use Rattle.pivotal_edges.specs.Turns.{Pivots, Pivoted};

use assembly::{edge_from, edge_is_ref, edge_support, edge_to};
use out_edges::Graph;

// A queued edge is one number, its distance from the source 8192 times and its number, so that an entry of the lent queue is one number.
const LEVEL: usize = 8192;

fn level_of(x: u32) -> usize
    ensures { result ≡ x / 8192 }
{
    x as usize / LEVEL
}

fn edge_of(x: u32) -> usize
    ensures { result ≡ x % 8192 }
{
    x as usize % LEVEL
}

// The queued edge a comes before b: by distance, then by ends. (By hand: a derived order reads all four ends, even where the distances differ, and takes no
// jump.)
fn earlier(edges: &[u32], a: u32, b: u32) -> bool
    requires { Fits edges.now a × Fits edges.now b }
    ensures { result ≡ before edges.now a b }
{
    let (level_a, level_b) = (level_of(a), level_of(b));
    if level_a != level_b {
        return level_a < level_b;
    }
    let (i, j) = (edge_of(a), edge_of(b));
    let (from_a, from_b) = (edge_from(edges, i), edge_from(edges, j));
    if from_a != from_b {
        return from_a < from_b;
    }
    edge_to(edges, i) < edge_to(edges, j)
}

// Where x goes among the entries from front to tail: before the first that does not come earlier. A loop, since the closure of `position` would have to
// show at each turn what `earlier` asks, and `partition_point` that the entries are in order.
fn place(edges: &[u32], queue: &[u32], front: usize, tail: usize, x: u32) -> usize
    requires { Known edges.now queue.now front tail x }
    ensures { Placed edges.now queue.now front tail x result }
{
    for p in front..tail {
        if !earlier(edges, queue[p], x) {
            return p;
        }
    }
    tail
}

// The entry x joins those from front to tail: it goes to its place, and the entries from there on move up by one.
fn enqueue(edges: &[u32], queue: &mut [u32], front: usize, tail: usize, x: u32)
    requires { Known edges.now queue.old front tail x × (tail < length queue.old) }
    ensures { Enqueued edges.now queue.old queue.new front tail x }
{
    let p = place(edges, queue, front, tail, x);
    put_at(queue, p, tail, x);
}

// x goes to place p, and the entries from there to tail move up by one.
fn put_at(queue: &mut [u32], p: usize, tail: usize, x: u32)
    requires { (p ≤ tail) × (tail < length queue.old) }
    ensures { queue.new ≡ sets queue.old p (x ∷ part queue.old p tail) }
{
    queue.copy_within(p..tail, p + 1);
    queue[p] = x;
}

// Two edges or more leave v.
fn forks(graph: Graph, v: usize) -> bool
    requires { Here graph.vertices.now graph.edges.now graph.count v }
    ensures { result ≡ ltb 1 (length (leaving (edges_of graph.entry.edges.now graph.entry.count) v)) }
{
    graph.out_edges(v).nth(1).is_some()
}

// Edge i is no reference edge of support 1.
fn counted(edges: &[u32], i: usize) -> bool
    requires { HasEdge edges.now i }
    ensures { result ≡ counts (edge_at edges.now i) }
{
    edge_support(edges, i) != 1 || !edge_is_ref(edges, i)
}

// Edge i of a fork is listed, unless it is visited or a reference edge of support 1. A mark is a number, 0 where the edge is not visited, since the marks
// stand in a lent slice of numbers.
fn list_edge(edges: &[u32], i: usize, visited: &[u32], out: &mut [u32], n: usize) -> usize
    requires { (HasEdge edges.now i) × (i < length visited.now) × (i < 8192) × (takes edges.now visited.now i ≡ true → n < length out.old) }
    ensures { OneListed edges.now visited.now out.old out.new i n result }
{
    if visited[i] != 0 || !counted(edges, i) {
        return n;
    }
    out[n] = i as u32;
    n + 1
}

// The pivotal edges that leave v go behind the n found so far.
fn list_out(graph: Graph, v: usize, visited: &[u32], out: &mut [u32], n: usize) -> usize
    requires { Lists graph.vertices.now graph.edges.now graph.count v visited.now out.old n }
    ensures { (vis : List Ends) → Seen graph.entry.edges.now graph.entry.count visited.now vis → Listed graph.entry.edges.now graph.entry.count out.old out.new n result (pivotal_of (leaving (edges_of graph.entry.edges.now graph.entry.count) v) (fresh vis (leaving (edges_of graph.entry.edges.now graph.entry.count) v))) }
{
    if !forks(graph, v) {
        return n;
    }
    let mut found = n;
    for i in graph.out_edges(v) {
        found = list_edge(graph.edges, i, visited, out, found);
    }
    found
}

// Edge i is queued at that distance, unless it is visited.
fn queue_edge(
    graph: Graph,
    visited: &[u32],
    queue: &mut [u32],
    front: usize,
    tail: usize,
    level: usize,
    i: usize,
) -> usize
    requires { QueuesOne graph.edges.now graph.count visited.now queue.old front tail level i }
    ensures { OneQueued graph.entry.edges.now visited.now queue.old queue.new front tail level i result }
{
    if visited[i] != 0 {
        return tail;
    }
    let x = (level * LEVEL + i) as u32;
    enqueue(graph.edges, queue, front, tail, x);
    tail + 1
}

// The edges that leave v and are not visited are queued at that distance.
fn queue_out(
    graph: Graph,
    v: usize,
    level: usize,
    visited: &[u32],
    queue: &mut [u32],
    front: usize,
    tail: usize,
) -> usize
    requires { Queues graph.vertices.now graph.edges.now graph.count v level visited.now queue.old front tail }
    ensures { (vis : List Ends) → Seen graph.entry.edges.now graph.entry.count visited.now vis → QueuedOut graph.entry.edges.now graph.entry.count v level vis queue.old queue.new front tail result }
{
    let mut end = tail;
    for i in graph.out_edges(v) {
        end = queue_edge(graph, visited, queue, front, end, level, i);
    }
    end
}

// The edges that leave v are visited.
fn mark_out(graph: Graph, v: usize, visited: &mut [u32])
    requires { Marks graph.vertices.now graph.edges.now graph.count v visited.old }
    ensures { Marked graph.entry.edges.now graph.entry.count v visited.old visited.new }
{
    for i in graph.out_edges(v) {
        visited[i] = 1;
    }
}

// The numbers of the pivotal edges, in order, in the first places of `out`: how many. An edge is queued at most once after the source's own.
// The queue and the list lie in lent memory with their places beside them, as a rule of the project asks: no heap.
pub fn create_pivotal_edges_in_topological_order(
    graph: Graph,
    queue: &mut [u32],
    visited: &mut [u32],
    out: &mut [u32],
) -> usize
    requires { Pivots graph.vertices.now graph.edges.now graph.count queue.old visited.old out.old }
    ensures { Pivoted graph.entry.edges.now graph.entry.count queue.old visited.old out.old queue.new visited.new out.new result }
{
    let mut tail = queue_out(graph, 0, 0, visited, queue, 0, 0);
    let mut front: usize = 0;
    let mut found: usize = 0;
    // The entries wait in a lent slice, and each turn moves both ends.
    while front < tail {
        let x = queue[front];
        let v = edge_to(graph.edges, edge_of(x));
        let level = level_of(x) + 1;
        found = list_out(graph, v, visited, out, found);
        tail = queue_out(graph, v, level, visited, queue, front + 1, tail);
        mark_out(graph, v, visited);
        front += 1;
    }
    found
}
