// The graph and its trees, over tables of just the lengths told: the work that the call for edges and trees and the call for the list both begin with.
// The tables are lent one by one: a struct of `&mut` slices would need in each contract a clause on which slice it lends.
#![tactic(auto)]

ghost use Rattle.samples.specs.Handed.{sample_of};
ghost use Rattle.limits.specs.Handed.{graph_maxima_of};
ghost use Rattle.graph_work.specs.Clear.{Cleared};
ghost use Rattle.graph_work.specs.Raise.{Raises, RaisedOf};

use junction_tree_graph::{Built, build_graph};
use junction_trees::build_trees;
use kmer_threading::Most;
use limits::GraphMaxima;
use refusals::Refusal;
use samples::Sample;

// A graph with its trees in the tables: what was built, and how many tree nodes.
#[derive(Clone, Copy)]
pub struct Raise {
    pub built: Built,
    pub nodes: usize,
}

// The tables that the build asks to be zero.
fn clear_tables(w_vertices: &mut [u32], w_index: &mut [u32], w_nodes: &mut [u32])
    ensures { Cleared w_vertices.old w_vertices.new w_index.old w_index.new w_nodes.old w_nodes.new }
{
    w_vertices.fill(0);
    w_index.fill(0);
    w_nodes.fill(0);
}

// The graph and its trees, whatever the tables hold before; `GraphSize` or `TreeNodes` where they do not fit the maxima.
pub fn raise_graph(
    sample: Sample,
    maxima: GraphMaxima,
    w_vertices: &mut [u32],
    w_edges: &mut [u32],
    w_index: &mut [u32],
    w_nodes: &mut [u32],
    w_open: &mut [u32],
) -> Result<Raise, Refusal>
    requires { Raises (sample_of sample) (graph_maxima_of maxima) w_vertices.old w_edges.old w_index.old w_nodes.old w_open.old }
    ensures { RaisedOf (sample_of sample.entry) (graph_maxima_of maxima) w_vertices.new w_edges.new w_nodes.new w_open.new result }
{
    let most = Most {
        vertices: maxima.vertices as usize,
        edges: maxima.edges as usize,
    };
    clear_tables(w_vertices, w_index, w_nodes);
    let r = build_graph(sample, w_vertices, w_edges, w_index, most);
    let Ok(built) = r else {
        return Err(r.unwrap_err());
    };
    let t = build_trees(
        sample,
        w_vertices,
        w_edges,
        w_index,
        w_nodes,
        w_open,
        built,
        maxima.nodes as usize,
    );
    let Ok(nodes) = t else {
        return Err(t.unwrap_err());
    };
    Ok(Raise { built, nodes })
}
