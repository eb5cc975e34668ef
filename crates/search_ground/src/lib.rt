// What the search stands on. Where a vertex has no tree, is not the sink and one edge leaves it, a path goes on without a decision: the two tables here
// tell that edge, and where an edge leads.
// Each function asks for the rows that it reads or writes: the tables are lent slices of numbers, so no type of this project holds that they are there.
#![tactic(auto)]

ghost use Rattle.std.specs.Prelude.{length};
ghost use Rattle.assembly.specs.Fields.{HasVertices, HasEdges, slot_of};
ghost use Rattle.pivotal_edges.specs.Walk.{Here, Linked};
ghost use Rattle.search_ground.specs.Tables.{Sole, Targets, Soles, Tables, Tabled};

use assembly::TO;
use junction_trees::root_slot;
use out_edges::Graph;
use tables::EDGE;

// The only edge that leaves v, where v has no tree and is not the sink.
fn sole_out(graph: Graph, sink: usize, v: usize) -> Option<usize>
    requires { Here graph.vertices.now graph.edges.now graph.count v }
    ensures { Sole graph.entry.vertices.now graph.entry.edges.now graph.entry.count sink v (slot_of result) }
{
    if v == sink {
        return None;
    }
    if root_slot(graph.vertices, v).is_some() {
        return None;
    }
    let mut outs = graph.out_edges(v);
    let first = outs.next()?;
    if outs.next().is_some() {
        return None;
    }
    Some(first)
}

// `targets` tells the target of each edge that it has a place for. One number counts the places of both tables, so that no iterator over either is plainer.
fn fill_targets(edges: &[u32], targets: &mut [u32])
    requires { HasEdges edges.now (length targets.old) }
    ensures { Targets edges.now targets.old targets.new }
{
    for e in 0..targets.len() {
        targets[e] = edges[e * EDGE + TO];
    }
}

// `index` tells the sole edge of each vertex that it has a place for: its number plus 1, or 0.
fn fill_index(graph: Graph, sink: usize, index: &mut [u32])
    requires { Linked graph.vertices.now graph.edges.now graph.count × (HasVertices graph.vertices.now (length index.old)) }
    ensures { Soles graph.entry.vertices.now graph.entry.edges.now graph.entry.count sink index.old index.new }
{
    for v in 0..index.len() {
        index[v] = match sole_out(graph, sink, v) {
            Some(i) => (i + 1) as u32,
            None => 0,
        };
    }
}

// Both tables, over the graph whose edges, the symbolic one too, are linked. A vertex without edges gets 0, so `index` may have more places than the
// graph has vertices.
pub fn chain_tables(graph: Graph, sink: usize, index: &mut [u32], targets: &mut [u32])
    requires { Tables graph.vertices.now graph.edges.now graph.count index.old targets.old }
    ensures { Tabled graph.entry.vertices.now graph.entry.edges.now graph.entry.count sink index.new targets.new }
{
    fill_targets(graph.edges, targets);
    fill_index(graph, sink, index);
}
