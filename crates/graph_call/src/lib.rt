// The call for edges and trees: checks, build, trees, the rows, and clearing.
#![tactic(auto)]

ghost use Rattle.std.specs.Prelude.{◌≡◌, true, ◌≤◌, IfOk};
ghost use Rattle.definition.specs.Refusal.{first_broken};
ghost use Rattle.definition.specs.Limits.{is_long_enough, graph_maxima_fit, graph_rules};
ghost use Rattle.definition.specs.Building.{built};
ghost use Rattle.definition.specs.Calls.{graph_of};
ghost use Rattle.refusals.specs.Numbers.{number, refusal_of};
ghost use Rattle.samples.specs.Handed.{sample_of};
ghost use Rattle.limits.specs.Handed.{graph_maxima_of};
ghost use Rattle.slice_lengths.specs.Lengths.{graph_slices};
ghost use Rattle.graph_call.specs.Lent.{told_for, told_of, lent_of, Lent};
ghost use Rattle.graph_call.specs.Outcome.{outcome, refused_answer, answer_of, Graphed};
ghost use Rattle.graph_call.specs.Clear.{Zeroed};
ghost use Rattle.graph_call.specs.Fill.{Writes, Wrote};
ghost use Rattle.graph_call.specs.Made.{Made};

use assembly::link_symbolic_edge;
use graph_rows::write_edges;
use graph_work::{Raise, raise_graph};
use limits::{GraphMaxima, Maxima, SearchMaxima, check_graph};
use out_edges::Graph;
use refusals::Refusal;
use samples::Sample;
use slice_lengths::{LengthsTold, lengths_within};
use threading_tree::Trees;

// The answer of `graph`, for C: the number of a refusal, or 0 and how many rows of edges and of nodes were written.
#[repr(C)]
#[derive(Clone, Copy, Default)]
pub struct GraphAnswer {
    pub refusal: u32,
    pub edges: u32,
    pub nodes: u32,
}

// The lengths of the slices lent: for rows, and as workspace. (No field `workspace: Workspace`, since this call is lent five of its fifteen slices.)
#[derive(Clone, Copy)]
pub struct GraphLent {
    pub edge_rows: usize,
    pub node_rows: usize,
    pub vertices: usize,
    pub edges: usize,
    pub index: usize,
    pub nodes: usize,
    pub open: usize,
}

// What is told of these slices, on which the maxima of the graph alone decide: of no path, and of the least search within the limits.
fn told_for(k: u32, g: GraphMaxima) -> LengthsTold
    requires { (k ≤ 128) × (graph_maxima_fit (graph_maxima_of g) ≡ true) }
    ensures { result ≡ told_for k (graph_maxima_of g) }
{
    let search = SearchMaxima {
        path_edges: 1,
        active: 1,
        pushes: 1,
    };
    let least = Maxima {
        asked: 0,
        graph: g,
        search,
    };
    lengths_within(k, least)
}

// 7: whether each lent slice is as long as told.
fn lent_fits(told: LengthsTold, l: GraphLent) -> bool
    ensures { result ≡ is_long_enough (graph_slices told) (lent_of l) }
{
    let tables = told.workspace;
    told.edges <= l.edge_rows
        && told.nodes <= l.node_rows
        && tables.vertices <= l.vertices
        && tables.edges <= l.edges
        && tables.index <= l.index
        && tables.nodes <= l.nodes
        && tables.open <= l.open
}

// 1 to 5 and 7; `check_graph` is told `true`, since the lengths told are known only once the maxima are, and so 7 is tested behind it. Those lengths are what
// is answered where nothing is refused.
fn check(sample: Sample, g: GraphMaxima, l: GraphLent) -> Result<LengthsTold, Refusal>
    ensures refusal { refusal_of result ≡ first_broken (graph_rules (sample_of sample.entry)
        (graph_maxima_of g) (told_of (graph_maxima_of g)) (lent_of l)) }
    ensures told { IfOk result (λ t. t ≡ told_for sample.entry.k (graph_maxima_of g)) }
{
    check_graph(sample, g, true)?;
    let told = told_for(sample.k, g);
    if !lent_fits(told, l) {
        return Err(Refusal::ShortSlice);
    }
    Ok(told)
}

// A refused answer holds 0 in every other field.
impl From<Refusal> for GraphAnswer {
    ghost from_gives = { λ refusal answer. answer ≡ refused_answer (number refusal) };

    fn from(refusal: Refusal) -> GraphAnswer {
        GraphAnswer {
            refusal: u32::from(refusal),
            ..GraphAnswer::default()
        }
    }
}

// ---- the work; each slice of the workspace is a `&mut` of its own, since a struct of them would need a clause in each contract on which slice it lends;
// the sample and the maxima stay two parameters, as the exported call is given them

// All of the workspace becomes 0.
fn clear_all(
    w_vertices: &mut [u32],
    w_edges: &mut [u32],
    w_index: &mut [u32],
    w_nodes: &mut [u32],
    w_open: &mut [u32],
)
    ensures { Zeroed w_vertices.old w_vertices.new w_edges.old w_edges.new w_index.old w_index.new w_nodes.old w_nodes.new w_open.old w_open.new }
{
    w_vertices.fill(0);
    w_edges.fill(0);
    w_index.fill(0);
    w_nodes.fill(0);
    w_open.fill(0);
}

// The rows of edges and nodes, and how many; nothing can be refused any more.
fn write_rows(
    w_vertices: &mut [u32],
    w_edges: &[u32],
    w_nodes: &[u32],
    w_open: &mut [u32],
    edges: &mut [u32],
    nodes: &mut [u32],
    b: Raise,
    cap: usize,
) -> GraphAnswer
    requires { Writes w_vertices.old w_edges.now w_nodes.now w_open.old edges.old nodes.old b cap }
    ensures { Wrote w_edges.now w_nodes.now w_open.old w_open.new edges.old edges.new nodes.old nodes.new b result }
{
    link_symbolic_edge(w_vertices, b.built.sink, b.built.edges);
    let graph = Graph {
        vertices: w_vertices,
        edges: w_edges,
        count: b.built.edges + 1,
    };
    write_edges(graph, edges);
    let trees = Trees {
        nodes: w_nodes,
        count: b.nodes,
        cap,
    };
    trees.write_nodes(w_open, nodes);
    GraphAnswer {
        refusal: 0,
        edges: (b.built.edges + 1) as u32,
        nodes: b.nodes as u32,
    }
}

// The graph and its trees, whatever the workspace holds; the output is written once both are known to fit.
fn fill(
    sample: Sample,
    maxima: GraphMaxima,
    edges: &mut [u32],
    nodes: &mut [u32],
    w_vertices: &mut [u32],
    w_edges: &mut [u32],
    w_index: &mut [u32],
    w_nodes: &mut [u32],
    w_open: &mut [u32],
) -> Result<GraphAnswer, Refusal>
    requires { Lent (sample_of sample) (graph_maxima_of maxima) edges.old nodes.old w_vertices.old w_edges.old w_index.old w_nodes.old w_open.old }
    ensures { outcome (answer_of result) edges.new nodes.new ≡ graph_of (built (sample_of sample.entry) (graph_maxima_of maxima)) edges.old nodes.old }
{
    let cap = maxima.nodes as usize;
    let r = raise_graph(
        sample, maxima, w_vertices, w_edges, w_index, w_nodes, w_open,
    );
    let Ok(b) = r else {
        return Err(r.unwrap_err());
    };
    Ok(write_rows(w_vertices, w_edges, w_nodes, w_open, edges, nodes, b, cap))
}

// The whole work over a workspace of just the lengths told: it may hold anything before, and is zero after.
fn make_graph(
    sample: Sample,
    maxima: GraphMaxima,
    edges: &mut [u32],
    nodes: &mut [u32],
    w_vertices: &mut [u32],
    w_edges: &mut [u32],
    w_index: &mut [u32],
    w_nodes: &mut [u32],
    w_open: &mut [u32],
) -> Result<GraphAnswer, Refusal>
    requires { Lent (sample_of sample) (graph_maxima_of maxima) edges.old nodes.old w_vertices.old w_edges.old w_index.old w_nodes.old w_open.old }
    ensures { Made (sample_of sample.entry) (graph_maxima_of maxima) (answer_of result) edges.old edges.new nodes.old nodes.new w_vertices.old w_vertices.new w_edges.old w_edges.new w_index.old w_index.new w_nodes.old w_nodes.new w_open.old w_open.new }
{
    let r = fill(
        sample, maxima, edges, nodes, w_vertices, w_edges, w_index, w_nodes, w_open,
    );
    clear_all(w_vertices, w_edges, w_index, w_nodes, w_open);
    r
}

// ---- the call

// Refused with nothing touched, or the work over just the part of each workspace slice that is told.
pub fn graph(
    sample: Sample,
    maxima: GraphMaxima,
    edges: &mut [u32],
    nodes: &mut [u32],
    w_vertices: &mut [u32],
    w_edges: &mut [u32],
    w_index: &mut [u32],
    w_nodes: &mut [u32],
    w_open: &mut [u32],
) -> GraphAnswer
    ensures { Graphed (sample_of sample.entry) (graph_maxima_of maxima) result edges.old edges.new nodes.old nodes.new w_vertices.old w_vertices.new w_edges.old w_edges.new w_index.old w_index.new w_nodes.old w_nodes.new w_open.old w_open.new }
{
    let l = GraphLent {
        edge_rows: edges.len(),
        node_rows: nodes.len(),
        vertices: w_vertices.len(),
        edges: w_edges.len(),
        index: w_index.len(),
        nodes: w_nodes.len(),
        open: w_open.len(),
    };
    let tables = match check(sample, maxima, l) {
        Ok(told) => told.workspace,
        Err(refusal) => return GraphAnswer::from(refusal),
    };
    let r = make_graph(
        sample,
        maxima,
        edges,
        nodes,
        &mut w_vertices[..tables.vertices],
        &mut w_edges[..tables.edges],
        &mut w_index[..tables.index],
        &mut w_nodes[..tables.nodes],
        &mut w_open[..tables.open],
    );
    match r {
        Ok(answer) => answer,
        Err(refusal) => GraphAnswer::from(refusal),
    }
}
