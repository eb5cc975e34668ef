// The work of the call for the list: the graph, its trees, the search and the list in columns, over tables of just the lengths told.
#![tactic(auto)]

ghost use Rattle.list_interface.specs.Handed.{handed};
ghost use Rattle.list_interface.specs.Answers.{answer_of};
ghost use Rattle.list_work.specs.Outcome.{found, Listed, outputs_of, tables_of};
ghost use Rattle.list_work.specs.Works.{Works};
ghost use Rattle.list_work.specs.Search.{Searches};

use graph_work::{Raise, raise_graph};
use junction_kbest::find_junction_best_haplotypes;
use list_interface::{Input, ListAnswer, found_answer};
use path_list::write_list;
use path_store::chains::Chains;
use path_store::records::Paths;
use refusals::Refusal;
use search_setup::{lay_chains, search_setting};
use tables::EDGE;

// ---- the search and the list; each slice that is written is a `&mut` of its own, since a struct of them would need a clause in each contract on which
// slice it lends

// The search over a raised graph, whose edge table ends behind the symbolic edge, and the list of the paths found; or a refusal, and no output is
// touched.
fn search_list(
    input: Input,
    b: Raise,
    row_scores: &mut [f64],
    row_closings: &mut [u32],
    row_edges: &mut [u32],
    out_bases: &mut [u8],
    sequences: &mut [u32],
    places: &mut [u32],
    vertices: &mut [u32],
    edges: &[u32],
    index: &mut [u32],
    nodes: &[u32],
    targets: &mut [u32],
    paths: &mut [u32],
    scores: &mut [f64],
    active: &mut [u16],
    queue: &mut [u32],
    closed: &mut [u32],
    order: &mut [u32],
    marks: &mut [u32],
    walks: &mut [u32],
) -> Result<ListAnswer, Refusal>
    requires { let outputs = outputs_of row_scores.old row_closings.old row_edges.old out_bases.old sequences.old places.old in
        let tables = tables_of vertices.old edges.now index.old nodes.now targets.old paths.old scores.old active.old queue.old closed.old order.old marks.old walks.old in
        Searches (handed input) outputs tables b }
    ensures { let outputs = outputs_of row_scores.old row_closings.old row_edges.old out_bases.old sequences.old places.old in
        let written = outputs_of row_scores.new row_closings.new row_edges.new out_bases.new sequences.new places.new in
        Listed (handed input.entry) (found (handed input.entry)) (answer_of result) outputs written }
{
    let a = input.settings;
    lay_chains(b, vertices, edges, index, targets);
    let g = search_setting(a, b, vertices, edges, nodes, index, targets, input.column);
    let r = find_junction_best_haplotypes(
        paths, scores, active, queue, closed, order, marks, walks, &g, a.recovery,
    );
    let Ok(p) = r else {
        return Err(r.unwrap_err());
    };
    write_list(
        input.text,
        vertices,
        edges,
        Chains { index, targets },
        Paths {
            records: paths,
            scores,
        },
        closed,
        p.closed,
        a.k as usize,
        a.search.path_edges as usize,
        walks,
        active,
        row_scores,
        row_closings,
        row_edges,
        out_bases,
        sequences,
        places,
    );
    Ok(found_answer(p))
}

// ---- the whole

// The graph, its trees, the search and the list, over tables of just the lengths told, whatever they hold, with the walks' slice for the trees that are
// open; the output is written once nothing can be refused any more.
pub fn work(
    input: Input,
    row_scores: &mut [f64],
    row_closings: &mut [u32],
    row_edges: &mut [u32],
    out_bases: &mut [u8],
    sequences: &mut [u32],
    places: &mut [u32],
    w_vertices: &mut [u32],
    w_edges: &mut [u32],
    w_index: &mut [u32],
    w_nodes: &mut [u32],
    w_targets: &mut [u32],
    w_paths: &mut [u32],
    w_scores: &mut [f64],
    w_active: &mut [u16],
    w_queue: &mut [u32],
    w_closed: &mut [u32],
    w_order: &mut [u32],
    w_marks: &mut [u32],
    w_walks: &mut [u32],
) -> Result<ListAnswer, Refusal>
    requires { let outputs = outputs_of row_scores.old row_closings.old row_edges.old out_bases.old sequences.old places.old in
        let tables = tables_of w_vertices.old w_edges.old w_index.old w_nodes.old w_targets.old w_paths.old w_scores.old w_active.old w_queue.old w_closed.old w_order.old w_marks.old w_walks.old in
        Works (handed input) outputs tables }
    ensures { let outputs = outputs_of row_scores.old row_closings.old row_edges.old out_bases.old sequences.old places.old in
        let written = outputs_of row_scores.new row_closings.new row_edges.new out_bases.new sequences.new places.new in
        Listed (handed input.entry) (found (handed input.entry)) (answer_of result) outputs written }
{
    let a = input.settings;
    let sample = input.sample();
    let r = raise_graph(
        sample, a.graph, w_vertices, w_edges, w_index, w_nodes, w_walks,
    );
    let Ok(b) = r else {
        return Err(r.unwrap_err());
    };
    if a.asked == 0 {
        return Ok(ListAnswer::default());
    }
    let size = a.graph.vertices as usize;
    let all = b.built.edges + 1;
    let rows = all * EDGE;
    search_list(
        input,
        b,
        row_scores,
        row_closings,
        row_edges,
        out_bases,
        sequences,
        places,
        w_vertices,
        &w_edges[..rows],
        &mut w_index[..size],
        w_nodes,
        &mut w_targets[..all],
        w_paths,
        w_scores,
        w_active,
        w_queue,
        w_closed,
        w_order,
        w_marks,
        w_walks,
    )
}
