// The rows of the edges, straight into the slice that the caller lent; and the clearing of workspace.
#![tactic(auto)]

ghost use Rattle.std.specs.Prelude.{◌≡◌, ◌≤◌, length, replicate};
ghost use Rattle.laws.specs.Records.{put_from};
ghost use Rattle.definition.specs.Calls.{written_at, flat, edge_row};
ghost use Rattle.assembly.specs.Fields.{HasEdges, HasEdge};
ghost use Rattle.assembly.specs.Store.{edge_at, edges_of};
ghost use Rattle.out_edges.specs.Sorted.{Orders};
ghost use Rattle.graph_rows.specs.Listing.{Rows, Rowed};

use assembly::{FROM, MARK, PLACE, SEQUENCE, SUPPORT, TO, edge_is_ref};
use out_edges::Graph;
use tables::EDGE;

// ---- the slices are lent and have no type of their own, so each function asks that the rows are there

// The edge in row i of the table becomes row p of `out`.
fn copy_row(edges: &[u32], i: usize, out: &mut [u32], p: usize)
    requires { (HasEdge edges.now i) × (HasEdge out.old p) }
    ensures { out.new ≡ put_from out.old 6 p 0 (edge_row (edge_at edges.now i)) }
{
    // field by field, since the mark is not copied and each place has its name
    let mark = u32::from(edge_is_ref(edges, i));
    out[p * EDGE + FROM] = edges[i * EDGE + FROM];
    out[p * EDGE + TO] = edges[i * EDGE + TO];
    out[p * EDGE + SUPPORT] = edges[i * EDGE + SUPPORT];
    out[p * EDGE + MARK] = mark;
    out[p * EDGE + SEQUENCE] = edges[i * EDGE + SEQUENCE];
    out[p * EDGE + PLACE] = edges[i * EDGE + PLACE];
}

// The rows of the edges that leave v, in rising target, go behind the p rows that are written: how many are written then.
fn write_out_edges(graph: Graph, v: usize, out: &mut [u32], p: usize) -> usize
    requires { Rows graph.vertices.now graph.edges.now graph.count v out.old p }
    ensures { Rowed graph.entry.edges.now graph.entry.count v out.old out.new p result }
{
    let mut row = p;
    // Counted by hand, since how many rows are written is the answer, which `enumerate` does not give.
    for i in graph.out_edges(v) {
        copy_row(graph.edges, i, out, row);
        row += 1;
    }
    row
}

// The rows of all edges in the order of their ends: vertex by vertex, until each edge has its row, which may be long before the table ends, so no `for`.
pub fn write_edges(graph: Graph, out: &mut [u32])
    requires { Orders graph.vertices.now graph.edges.now out.old graph.count × (HasEdges out.old graph.count) }
    ensures { out.new ≡ written_at 0 (flat edge_row (edges_of graph.entry.edges.now graph.entry.count)) out.old }
{
    let mut v: usize = 0;
    let mut p: usize = 0;
    // By rows and not by vertices: the rows may all be written before the last vertex.
    while p < graph.count {
        p = write_out_edges(graph, v, out, p);
        v += 1;
    }
}

// The first n elements become zero, whatever stands for zero. (A loop: `fill` asks that a clone is made without fail and is its source, of which `Copy` says
// nothing.)
pub fn clear<T: Copy>(words: &mut [T], n: usize, zero: T)
    requires { n ≤ length words.old }
    ensures { words.new ≡ written_at 0 (replicate n zero) words.old }
{
    for word in words[..n].iter_mut() {
        *word = zero;
    }
}
