// The call for the list, over number slices alone: checks, build, trees, search, the list in columns, and clearing.
#![tactic(auto)]

ghost use Rattle.list_interface.specs.Handed.{handed};
ghost use Rattle.list_interface.specs.Answers.{answer_of};
ghost use Rattle.list_work.specs.Outcome.{outputs_of, tables_of};
ghost use Rattle.list_call.specs.Within.{Within, Done, Called};

use graph_rows::clear;
use list_interface::{Input, ListAnswer};
use list_lent::{Lent, check};
use list_work::work;
use refusals::Refusal;
use slice_lengths::workspace_told;

// ---- each slice that is written is a `&mut` of its own, since a struct of them would need a clause in each contract on which slice it lends

// The work over just the part of each workspace slice that is told, which is zero afterwards.
fn list_within(
    input: Input,
    row_scores: &mut [f64],
    row_closings: &mut [u32],
    row_edges: &mut [u32],
    out_bases: &mut [u8],
    sequences: &mut [u32],
    places: &mut [u32],
    w_vertices: &mut [u32],
    w_edges: &mut [u32],
    w_index: &mut [u32],
    w_nodes: &mut [u32],
    w_targets: &mut [u32],
    w_paths: &mut [u32],
    w_scores: &mut [f64],
    w_active: &mut [u16],
    w_queue: &mut [u32],
    w_closed: &mut [u32],
    w_order: &mut [u32],
    w_marks: &mut [u32],
    w_walks: &mut [u32],
) -> Result<ListAnswer, Refusal>
    requires { let outputs = outputs_of row_scores.old row_closings.old row_edges.old out_bases.old sequences.old places.old in
        let tables = tables_of w_vertices.old w_edges.old w_index.old w_nodes.old w_targets.old w_paths.old w_scores.old w_active.old w_queue.old w_closed.old w_order.old w_marks.old w_walks.old in
        Within (handed input) outputs tables }
    ensures { let outputs = outputs_of row_scores.old row_closings.old row_edges.old out_bases.old sequences.old places.old in
        let written = outputs_of row_scores.new row_closings.new row_edges.new out_bases.new sequences.new places.new in
        let tables = tables_of w_vertices.old w_edges.old w_index.old w_nodes.old w_targets.old w_paths.old w_scores.old w_active.old w_queue.old w_closed.old w_order.old w_marks.old w_walks.old in
        let left = tables_of w_vertices.new w_edges.new w_index.new w_nodes.new w_targets.new w_paths.new w_scores.new w_active.new w_queue.new w_closed.new w_order.new w_marks.new w_walks.new in
        Done (handed input.entry) (answer_of result) outputs written tables left }
{
    let told = workspace_told(input.settings.maxima());
    // Each length has a name of its own, since it is used twice: for the part that is lent and for the part that is cleared.
    let vertices = told.vertices;
    let edges = told.edges;
    let index = told.index;
    let nodes = told.nodes;
    let targets = told.targets;
    let paths = told.paths;
    let scores = told.scores;
    let active = told.active;
    let queue = told.queue;
    let closed = told.closed;
    let order = told.order;
    let marks = told.marks;
    let walks = told.walks;
    let r = work(
        input,
        row_scores,
        row_closings,
        row_edges,
        out_bases,
        sequences,
        places,
        &mut w_vertices[..vertices],
        &mut w_edges[..edges],
        &mut w_index[..index],
        &mut w_nodes[..nodes],
        &mut w_targets[..targets],
        &mut w_paths[..paths],
        &mut w_scores[..scores],
        &mut w_active[..active],
        &mut w_queue[..queue],
        &mut w_closed[..closed],
        &mut w_order[..order],
        &mut w_marks[..marks],
        &mut w_walks[..walks],
    );
    clear(w_vertices, vertices, 0);
    clear(w_edges, edges, 0);
    clear(w_index, index, 0);
    clear(w_nodes, nodes, 0);
    clear(w_targets, targets, 0);
    clear(w_paths, paths, 0);
    clear(w_scores, scores, 0.0);
    clear(w_active, active, 0);
    clear(w_queue, queue, 0);
    clear(w_closed, closed, 0);
    clear(w_order, order, 0);
    clear(w_marks, marks, 0);
    clear(w_walks, walks, 0);
    r
}

// The call for the list, with its rows in columns: refused with nothing touched, or the work; `rows` is the length of the slice of rows.
pub fn list_columns(
    input: Input,
    rows: usize,
    row_scores: &mut [f64],
    row_closings: &mut [u32],
    row_edges: &mut [u32],
    out_bases: &mut [u8],
    sequences: &mut [u32],
    places: &mut [u32],
    w_vertices: &mut [u32],
    w_edges: &mut [u32],
    w_index: &mut [u32],
    w_nodes: &mut [u32],
    w_targets: &mut [u32],
    w_paths: &mut [u32],
    w_scores: &mut [f64],
    w_active: &mut [u16],
    w_queue: &mut [u32],
    w_closed: &mut [u32],
    w_order: &mut [u32],
    w_marks: &mut [u32],
    w_walks: &mut [u32],
) -> ListAnswer
    ensures { let outputs = outputs_of row_scores.old row_closings.old row_edges.old out_bases.old sequences.old places.old in
        let written = outputs_of row_scores.new row_closings.new row_edges.new out_bases.new sequences.new places.new in
        let tables = tables_of w_vertices.old w_edges.old w_index.old w_nodes.old w_targets.old w_paths.old w_scores.old w_active.old w_queue.old w_closed.old w_order.old w_marks.old w_walks.old in
        let left = tables_of w_vertices.new w_edges.new w_index.new w_nodes.new w_targets.new w_paths.new w_scores.new w_active.new w_queue.new w_closed.new w_order.new w_marks.new w_walks.new in
        Called (handed input.entry) rows result outputs written tables left }
{
    let l = Lent {
        rows,
        bases: out_bases.len(),
        sequences: sequences.len(),
        places: places.len(),
        vertices: w_vertices.len(),
        edges: w_edges.len(),
        index: w_index.len(),
        nodes: w_nodes.len(),
        targets: w_targets.len(),
        paths: w_paths.len(),
        scores: w_scores.len(),
        active: w_active.len(),
        queue: w_queue.len(),
        closed: w_closed.len(),
        order: w_order.len(),
        marks: w_marks.len(),
        walks: w_walks.len(),
        row_scores: row_scores.len(),
        row_closings: row_closings.len(),
        row_edges: row_edges.len(),
    };
    if let Err(refusal) = check(input, l) {
        return ListAnswer::from(refusal);
    }
    let r = list_within(
        input,
        row_scores,
        row_closings,
        row_edges,
        out_bases,
        sequences,
        places,
        w_vertices,
        w_edges,
        w_index,
        w_nodes,
        w_targets,
        w_paths,
        w_scores,
        w_active,
        w_queue,
        w_closed,
        w_order,
        w_marks,
        w_walks,
    );
    match r {
        Ok(answer) => answer,
        Err(refusal) => ListAnswer::from(refusal),
    }
}
