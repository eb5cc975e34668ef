// Evidence: each read stretch longer than k is walked again over the graph as it was before the symbolic edge, and the walk counts in the trees that it
// has opened. The trees and the active trees of a walk are the tables of `threading_tree`; the link to a vertex's root is field 11 of its record, which
// the graph does not use.
//
// The tables are lent one by one: a struct of `&mut` slices would need in each contract a clause on which slice it lends.
// Each function asks for the rows that it reads or writes: the tables are lent slices of numbers, so no type of this project holds that they are there.
// `nodes` and `vertices` are lent longer than they are filled, so a number beside each says how many rows there are.
#![tactic(auto)]

ghost use Rattle.std.specs.Prelude.{◌≡◌, ℕ, ◌+◌, ◌^◌, ◌<◌, length, get_or};
ghost use Rattle.samples.specs.Handed.{text_of, sample_of};
ghost use Rattle.assembly.specs.Fields.{HasVertices, HasVertex, slot_of, out_edge, tree_root, put_tree_root};
ghost use Rattle.assembly.specs.Store.{code};
ghost use Rattle.graph_kmers.specs.Index.{Finding};
ghost use Rattle.read_threading.specs.Reads.{read_of, reads_of};
ghost use Rattle.threading_node.specs.Links.{slot_at, link_to};
ghost use Rattle.junction_trees.specs.Degrees.{OutDegree, Warrants};
ghost use Rattle.junction_trees.specs.Roots.{Cleared};
ghost use Rattle.junction_trees.specs.Steps.{Passing, Passed, Ending, Ended};
ghost use Rattle.junction_trees.specs.Stretches.{Walks, Walking, walk_of};
ghost use Rattle.junction_trees.specs.Reads.{ReadWalks, ReadsWalk, walks_of};
ghost use Rattle.junction_trees.specs.Trees.{Gathers, Gathered};

use assembly::{ROOT, edge_to, incoming_count, out_edge};
use graph_kmers::find_kmer;
use junction_tree_graph::Built;
use refusals::Refusal;
use samples::{Sample, Text};
use tables::VERTEX;
use threading_node::{Edge, link_to, slot_at};
use threading_tree::{ThreadingState, add_edge_to_junction_tree_nodes, pass_edge};
use usable_stretches::usable_runs;

// ---- the slot of a vertex's root, none where it has no tree

pub fn root_slot(vertices: &[u32], v: usize) -> Option<usize>
    requires { HasVertex vertices.now v }
    ensures { result ≡ slot_at (tree_root vertices.now v) }
{
    slot_at(vertices[v * VERTEX + ROOT])
}

fn keep_root(vertices: &mut [u32], v: usize, slot: Option<usize>)
    requires { (HasVertex vertices.old v) × (link_to slot < 2 ^ 32) }
    ensures { vertices.new ≡ put_tree_root vertices.old v (link_to slot) }
{
    vertices[v * VERTEX + ROOT] = link_to(slot);
}

// No vertex has a tree yet; building the graph leaves open what field 11 holds.
fn clear_roots(vertices: &mut [u32], n: usize)
    requires { HasVertices vertices.old n }
    ensures { Cleared vertices.old n vertices.new n }
{
    for v in 0..n {
        keep_root(vertices, v, None);
    }
}

// ---- the out-edges of a vertex

// How many edges leave v: its slots that name one. (Counted in a loop: `filter` and `count` were tried, and slower, by a third of the build's
// instructions.)
fn out_degree(vertices: &[u32], v: usize) -> usize
    requires { HasVertex vertices.now v }
    ensures { OutDegree vertices.now v result }
{
    let mut n: usize = 0;
    for c in 0..8 {
        if out_edge(vertices, v, c).is_some() {
            n += 1;
        }
    }
    n
}

// Whether leaving a vertex by an edge to `to` opens the vertex's tree: it has two or more out-edges, or a target has two or more in-edges. Where it has
// just one out-edge `to` is the only target.
fn vertex_warrants_junction_tree(vertices: &[u32], outs: usize, to: usize) -> bool
    requires { HasVertex vertices.now to }
    ensures { Warrants vertices.now outs to result }
{
    outs > 1 || incoming_count(vertices, to) > 1
}

// ---- one walk

// What a walk goes over: k, the graph, and how many nodes there may be.
#[derive(Clone, Copy)]
pub struct Ground {
    pub k: usize,
    pub built: Built,
    pub most: usize,
}

// Where a walk stands: its vertex, how many nodes there are, and how many pairs of active trees.
#[derive(Clone, Copy)]
pub struct Way {
    pub here: usize,
    pub nodes: usize,
    pub groups: usize,
}

// The out-edge of v whose target ends in the base at place q of the text.
fn next_edge(text: Text, vertices: &[u32], v: usize, q: usize) -> Option<usize>
    requires { (q < length (text_of text)) × (HasVertex vertices.now v) }
    ensures { slot_of result ≡ out_edge vertices.now v (code (get_or (text_of text.entry) q 0)) }
{
    let b = usize::from(text.byte_at(q));
    // The code of a base, as the head of `assembly` tells it: one expression, for which a function of its own is no plainer.
    out_edge(vertices, v, b / 2 % 8)
}

// The walk passes edge i, which leaves the vertex where it stands.
fn extend_junction_threading_by_one(
    vertices: &mut [u32],
    edges: &[u32],
    nodes: &mut [u32],
    active: &mut [u32],
    d: Ground,
    s: Way,
    i: usize,
) -> Result<Way, Refusal>
    requires { Passing d s i vertices.old edges.now nodes.old active.old }
    ensures { Passed d s i vertices.old vertices.new edges.now nodes.old nodes.new active.old active.new result }
{
    let v = s.here;
    let to = edge_to(edges, i);
    let outs = out_degree(vertices, v);
    let warrants = vertex_warrants_junction_tree(vertices, outs, to);
    let held = ThreadingState {
        nodes: s.nodes,
        cap: d.most,
        groups: s.groups,
        root: root_slot(vertices, v),
    };
    let edge = Edge {
        from: v as u32,
        to: to as u32,
    };
    let r = pass_edge(nodes, active, held, edge, warrants, outs == 1);
    let Ok(h) = r else {
        return Err(r.unwrap_err());
    };
    keep_root(vertices, v, h.root);
    Ok(Way {
        here: to,
        nodes: h.nodes,
        groups: h.groups,
    })
}

// A walk that ends at the sink takes the symbolic edge in its active trees.
fn take_symbolic_edge(
    nodes: &mut [u32],
    active: &mut [u32],
    d: Ground,
    s: Way,
) -> Result<Way, Refusal>
    requires { Ending d s nodes.old active.old }
    ensures { Ended d s nodes.old nodes.new active.old active.new result }
{
    if s.here != d.built.sink {
        return Ok(s);
    }
    let edge = Edge {
        from: d.built.sink as u32,
        to: d.built.vertices as u32,
    };
    let r = add_edge_to_junction_tree_nodes(nodes, active, s.groups, s.nodes, d.most, edge);
    let Ok(n) = r else {
        return Err(r.unwrap_err());
    };
    Ok(Way { nodes: n, ..s })
}

// The stretch of `len` bytes at place a of the text, which is longer than k: from the vertex of its first kmer over the bases that follow. The answer is the
// number of nodes. (Not inlined: inside the loop over a read's runs it left that loop no register for where it stands, which each unusable byte then loaded
// and stored.)
#[inline(never)]
fn walk_stretch(
    text: Text,
    vertices: &mut [u32],
    edges: &[u32],
    index: &[u32],
    nodes: &mut [u32],
    active: &mut [u32],
    d: Ground,
    a: usize,
    len: usize,
    count: usize,
) -> Result<usize, Refusal>
    requires { Walks d (text_of text) vertices.old edges.now nodes.old active.old a len count × (d.k < len) × Finding d.k (text_of text) vertices.old index.now d.built.vertices }
    ensures { Walking (walk_of d (text_of text.entry) vertices.old edges.now a len) d a (a + len) count vertices.old vertices.new nodes.old nodes.new active.old active.new result }
{
    // The definition stops here too, where there is no vertex or no edge; a stretch that was threaded never does (its theorem Visits.walk-visits).
    let Some(first) = find_kmer(text, vertices, index, d.built.vertices, d.k, a) else {
        return Ok(count);
    };
    let mut s = Way {
        here: first,
        nodes: count,
        groups: 0,
    };
    for j in 0..len - d.k {
        let Some(i) = next_edge(text, vertices, s.here, a + d.k + j) else {
            return Ok(s.nodes);
        };
        let r = extend_junction_threading_by_one(vertices, edges, nodes, active, d, s, i);
        let Ok(t) = r else {
            return Err(r.unwrap_err());
        };
        s = t;
    }
    let r = take_symbolic_edge(nodes, active, d, s);
    let Ok(t) = r else {
        return Err(r.unwrap_err());
    };
    Ok(t.nodes)
}

// ---- all walks

// A usable run of `len` bytes at place a of the text: only stretches longer than k are walked.
fn walk_run(
    text: Text,
    vertices: &mut [u32],
    edges: &[u32],
    index: &[u32],
    nodes: &mut [u32],
    active: &mut [u32],
    d: Ground,
    a: usize,
    len: usize,
    count: usize,
) -> Result<usize, Refusal>
    requires { Walks d (text_of text) vertices.old edges.now nodes.old active.old a len count × Finding d.k (text_of text) vertices.old index.now d.built.vertices }
    ensures { Walking (walk_of d (text_of text.entry) vertices.old edges.now a len) d a (a + len) count vertices.old vertices.new nodes.old nodes.new active.old active.new result }
{
    if len <= d.k {
        return Ok(count);
    }
    walk_stretch(
        text, vertices, edges, index, nodes, active, d, a, len, count,
    )
}

// The read that lies from `start` to `end` of the bases: one usable run after the other.
fn walk_read(
    sample: Sample,
    vertices: &mut [u32],
    edges: &[u32],
    index: &[u32],
    nodes: &mut [u32],
    active: &mut [u32],
    d: Ground,
    start: usize,
    end: usize,
    count: usize,
) -> Result<usize, Refusal>
    requires { ReadWalks d sample.text.reference.now sample.text.bases.now sample.qualities.now vertices.old edges.now nodes.old active.old start end count × Finding d.k (text_of sample.text) vertices.old index.now d.built.vertices }
    ensures { (q : ℕ) → Walking (walks_of d (text_of sample.entry.text) vertices.old edges.now (read_of d.k sample.entry.quality sample.entry.text.bases.now sample.entry.qualities.now q start end)) d (length sample.entry.text.reference.now + start) (length sample.entry.text.reference.now + end) count vertices.old vertices.new nodes.old nodes.new active.old active.new result }
{
    let text = sample.text;
    let n = text.reference.len();
    let mut c = count;
    for run in usable_runs(sample, start, end) {
        let len = run.to - run.from;
        let r = walk_run(
            text,
            vertices,
            edges,
            index,
            nodes,
            active,
            d,
            n + run.from,
            len,
            c,
        );
        let Ok(more) = r else {
            return r;
        };
        c = more;
    }
    Ok(c)
}

// All reads in order; read j ends at ends[j].
fn generate_junction_trees(
    sample: Sample,
    vertices: &mut [u32],
    edges: &[u32],
    index: &[u32],
    nodes: &mut [u32],
    active: &mut [u32],
    d: Ground,
    count: usize,
) -> Result<usize, Refusal>
    requires { ReadsWalk d sample.text.reference.now sample.ends.now sample.text.bases.now sample.qualities.now vertices.old edges.now nodes.old active.old count × Finding d.k (text_of sample.text) vertices.old index.now d.built.vertices }
    ensures { Walking (walks_of d (text_of sample.entry.text) vertices.old edges.now (reads_of d.k sample.entry.quality sample.entry.ends.now sample.entry.text.bases.now sample.entry.qualities.now)) d (length sample.entry.text.reference.now) (length (text_of sample.entry.text)) count vertices.old vertices.new nodes.old nodes.new active.old active.new result }
{
    let mut c = count;
    let mut start: usize = 0;
    for e in sample.ends {
        let end = *e as usize;
        let r = walk_read(
            sample, vertices, edges, index, nodes, active, d, start, end, c,
        );
        let Ok(more) = r else {
            return r;
        };
        c = more;
        start = end;
    }
    Ok(c)
}

// The junction trees of a sample whose graph is built, in a table that is zero so far, as the number of their nodes; `TreeNodes` is refused just where they
// have more than `most`.
pub fn build_trees(
    sample: Sample,
    vertices: &mut [u32],
    edges: &[u32],
    index: &[u32],
    nodes: &mut [u32],
    active: &mut [u32],
    built: Built,
    most: usize,
) -> Result<usize, Refusal>
    requires { Gathers (sample_of sample) vertices.old edges.now nodes.old active.old built most × Finding sample.k (text_of sample.text) vertices.old index.now built.vertices }
    ensures { Gathered (sample_of sample.entry) vertices.old vertices.new nodes.old nodes.new active.old active.new built most result }
{
    let d = Ground {
        k: sample.k as usize,
        built,
        most,
    };
    clear_roots(vertices, built.vertices);
    generate_junction_trees(sample, vertices, edges, index, nodes, active, d, 0)
}
