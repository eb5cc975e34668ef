// The calls, each made as told and compared with the answer told.
ghost use Rattle.std.specs.Prelude.{◌≡◌, true, ◌≤◌};
ghost use Rattle.known_answers.specs.Tables.{value_left, TableLeft};

use crate::numbers::{behind, field};
use agreement::agree::{Element, LENT, left, same, written};
use assembly::Origin;
use graph_call::GraphAnswer;
use limits::{GraphMaxima, Maxima, SearchMaxima, Sequences, workspace_kept};
use samples::Sample;
use slice_lengths::{LengthsTold, Workspace};
use tables::{EDGE_ROW, NODE_ROW};

pub fn graph_maxima(call: &[u32], place: usize) -> GraphMaxima
    requires { place ≤ 16 }
{
    GraphMaxima {
        vertices: field(call, place),
        edges: field(call, place + 1),
        nodes: field(call, place + 2),
    }
}

fn search_maxima(call: &[u32], place: usize) -> SearchMaxima
    requires { place ≤ 16 }
{
    SearchMaxima {
        path_edges: field(call, place),
        active: field(call, place + 1),
        pushes: field(call, place + 2),
    }
}

// ---- lengths: k, paths, maxima; refusal, rows of edges and nodes, paths, bases, origins

pub fn lengths_agree(call: &[u32]) -> bool {
    let maxima = Maxima {
        asked: field(call, 2),
        graph: graph_maxima(call, 3),
        search: search_maxima(call, 6),
    };
    let told = slice_lengths::lengths(field(call, 1), maxima);
    told.refusal == field(call, 9)
        && told.edges == field(call, 10) as usize * EDGE_ROW
        && told.nodes == field(call, 11) as usize * NODE_ROW
        && told.paths == field(call, 12) as usize
        && told.bases == field(call, 13) as usize
        && told.origins == field(call, 14) as usize
}

// ---- origin: sequence, place; refusal, bytes

pub fn origin_agrees(call: &[u32], sample: Sample) -> bool {
    let sequences = Sequences {
        k: sample.k,
        text: sample.text,
        ends: sample.ends,
    };
    let origin = Origin {
        sequence: field(call, 1),
        place: field(call, 2),
    };
    let part = origins::origin_part(sequences, origin);
    let bytes = origins::origin_bytes(sequences, origin);
    part.refusal == field(call, 3) && part.length == bytes.len() && same(bytes, behind(call, 4))
}

// ---- graph: maxima, which slice is short; refusal, numbers of edges and nodes, their rows

// How much of a slice is lent: as much as told, and one element fewer where it is to be short.
pub fn lent(told: usize, room: usize, short: bool) -> usize
    ensures { result ≤ room }
{
    let n = told.min(room);
    if short { n.saturating_sub(1) } else { n }
}

// The lengths told for a call for edges and trees, which has no search. (They are asked of the exported call, as its callers do, so not by what
// `graph_call` asks inside.)
fn told_for(k: u32, maxima: GraphMaxima) -> LengthsTold {
    let search = SearchMaxima {
        path_edges: 1,
        active: 1,
        pushes: 1,
    };
    let least = Maxima {
        asked: 0,
        graph: maxima,
        search,
    };
    slice_lengths::lengths(k, least)
}

// What tells the elements of the workspace where they were told: what they were lent as, or zero. (The refusal is a number here, since that is how the
// exported answer tells it.)
pub fn value_left<T: Element>(refusal: u32) -> u64
    ensures { result ≡ value_left T.LENT refusal }
{
    if workspace_kept(refusal) { T::LENT } else { 0 }
}

// The workspace that each call is lent for the graph and its trees, but for what it opens. (Inlined, since where the tables are seen to be whole arrays many
// elements are compared at once.)
#[inline(always)]
pub fn graph_tables_left(
    refusal: u32,
    told: Workspace,
    w_vertices: &[u32],
    w_edges: &[u32],
    w_index: &[u32],
    w_nodes: &[u32],
) -> bool
    ensures vertices { result ≡ true → TableLeft w_vertices.now told.vertices refusal }
    ensures edges { result ≡ true → TableLeft w_edges.now told.edges refusal }
    ensures index { result ≡ true → TableLeft w_index.now told.index refusal }
    ensures nodes { result ≡ true → TableLeft w_nodes.now told.nodes refusal }
{
    let value = value_left::<u32>(refusal);
    left(w_vertices, told.vertices, value)
        && left(w_edges, told.edges, value)
        && left(w_index, told.index, value)
        && left(w_nodes, told.nodes, value)
}

fn graph_answered(call: &[u32], answer: GraphAnswer) -> bool {
    answer.refusal == field(call, 5)
        && answer.edges == field(call, 6)
        && answer.nodes == field(call, 7)
}

// The rows of the edges, of six numbers each, and behind them those of the nodes.
fn rows_written(call: &[u32], edges: &[u32], nodes: &[u32]) -> bool {
    let rows = behind(call, 8);
    let n = (field(call, 6) as usize * EDGE_ROW).min(rows.len());
    written(edges, &rows[..n]) && written(nodes, &rows[n..])
}

// The call itself, in as much of each slice as is told, and one element fewer of the one that is to be short. (`short` is the number that the data tell;
// no slice has the number 0, so that a call with none short needs no case of its own. The slices are parameters one by one, as the call takes them.)
fn make_graph(
    sample: Sample,
    maxima: GraphMaxima,
    told: LengthsTold,
    short: u32,
    edges: &mut [u32],
    nodes: &mut [u32],
    w_vertices: &mut [u32],
    w_edges: &mut [u32],
    w_index: &mut [u32],
    w_nodes: &mut [u32],
    w_open: &mut [u32],
) -> GraphAnswer {
    let a = lent(told.edges, edges.len(), short == 1);
    let b = lent(told.nodes, nodes.len(), short == 2);
    let w = told.workspace;
    let c = w.vertices.min(w_vertices.len());
    let d = w.edges.min(w_edges.len());
    let e = w.index.min(w_index.len());
    let f = w.nodes.min(w_nodes.len());
    let g = w.open.min(w_open.len());
    graph_call::graph(
        sample,
        maxima,
        &mut edges[..a],
        &mut nodes[..b],
        &mut w_vertices[..c],
        &mut w_edges[..d],
        &mut w_index[..e],
        &mut w_nodes[..f],
        &mut w_open[..g],
    )
}

// Each call is made in slices of its own, as long as the limits allow, so that nothing of an earlier one can help it. (Each has a name of its own, as the
// call takes them one by one.)
pub fn graph_agrees(call: &[u32], sample: Sample) -> bool {
    let maxima = graph_maxima(call, 1);
    let told = told_for(sample.k, maxima);
    let mut edges = [LENT; 49152];
    let mut nodes = [LENT; 65536];
    let mut w_vertices = [LENT; 49152];
    let mut w_edges = [LENT; 49152];
    let mut w_index = [LENT; 8192];
    let mut w_nodes = [LENT; 81925];
    let mut w_open = [LENT; 32768];
    let answer = make_graph(
        sample,
        maxima,
        told,
        field(call, 4),
        &mut edges,
        &mut nodes,
        &mut w_vertices,
        &mut w_edges,
        &mut w_index,
        &mut w_nodes,
        &mut w_open,
    );
    graph_answered(call, answer)
        && rows_written(call, &edges, &nodes)
        && graph_tables_left(
            answer.refusal,
            told.workspace,
            &w_vertices,
            &w_edges,
            &w_index,
            &w_nodes,
        )
        && left(
            &w_open,
            told.workspace.open,
            value_left::<u32>(answer.refusal),
        )
}
