// The public calls: each is a call of a crate below, and the list's rows are copied into the lent slice of records. `punelavoh_c` exports them.
#![tactic(auto)]

ghost use Rattle.definition.specs.Calls.{origin_call};
ghost use Rattle.limits.specs.Handed.{sample_of, graph_maxima_of, search_maxima_of};
ghost use Rattle.slice_lengths.specs.Lengths.{Told};
ghost use Rattle.origins.specs.Parts.{origin, Names};
ghost use Rattle.graph_call.specs.Outcome.{Graphed};
ghost use Rattle.list_interface.specs.Handed.{input_for};
ghost use Rattle.list_work.specs.Outcome.{outputs_of, tables_of};
ghost use Rattle.row_counts.specs.Told.{columns_told};
ghost use Rattle.punelavoh.specs.Records.{ColumnsFit, Cleared, ListCalled};

use assembly::Origin;
use graph_call::GraphAnswer;
use graph_rows::clear;
use limits::{GraphMaxima, Maxima, SearchMaxima, Sequences};
use list_call::list_columns;
use list_interface::{Input, ListAnswer, Settings};
use origins::OriginAnswer;
use path_rows::PathRow;
use row_counts::{columns_told, rows_told};
use samples::{Sample, Text};
use slice_lengths::LengthsTold;

// ---- the call for the list; its rows are made in columns, which are workspace

// What is told of the columns becomes 0.
fn clear_columns(
    settings: Settings,
    r: ListAnswer,
    row_scores: &mut [f64],
    row_closings: &mut [u32],
    row_edges: &mut [u32],
)
    requires { ColumnsFit (columns_told r.refusal settings.asked) row_scores.old row_closings.old row_edges.old }
    ensures { Cleared (columns_told r.refusal settings.asked) row_scores.old row_scores.new row_closings.old row_closings.new row_edges.old row_edges.new }
{
    let n = columns_told(settings, r);
    clear(row_scores, n, 0.0);
    clear(row_closings, n, 0);
    clear(row_edges, n, 0);
}

// ---- the calls; their parameters are loose, since C lends them so: a slice is a place and a length, and no struct of slices has a form in C

// Writes the rows of edges and of tree nodes.
pub fn punelavoh_graph(
    k: u32,
    quality: u8,
    reference: &[u8],
    ends: &[u32],
    bases: &[u8],
    qualities: &[u8],
    maxima: GraphMaxima,
    edges: &mut [u32],
    nodes: &mut [u32],
    w_vertices: &mut [u32],
    w_edges: &mut [u32],
    w_index: &mut [u32],
    w_nodes: &mut [u32],
    w_open: &mut [u32],
) -> GraphAnswer
    ensures { let sample = sample_of k quality reference.now ends.now bases.now qualities.now in
        Graphed sample (graph_maxima_of maxima) result edges.old edges.new nodes.old nodes.new w_vertices.old w_vertices.new w_edges.old w_edges.new w_index.old w_index.new w_nodes.old w_nodes.new w_open.old w_open.new }
{
    let sample = Sample {
        k,
        quality,
        text: Text { reference, bases },
        ends,
        qualities,
    };
    graph_call::graph(
        sample, maxima, edges, nodes, w_vertices, w_edges, w_index, w_nodes, w_open,
    )
}

// Tells how many elements each slice needs.
pub fn punelavoh_lengths(
    k: u32,
    paths: u32,
    graph: GraphMaxima,
    search: SearchMaxima,
) -> LengthsTold
    ensures { Told k paths (graph_maxima_of graph) (search_maxima_of search) result }
{
    let maxima = Maxima {
        asked: paths,
        graph,
        search,
    };
    slice_lengths::lengths(k, maxima)
}

// Tells which part of the reference (in_reads 0) or of the read bases (in_reads 1) an origin names.
pub fn punelavoh_origin(
    k: u32,
    reference: &[u8],
    ends: &[u32],
    bases: &[u8],
    sequence: u32,
    place: u32,
) -> OriginAnswer
    ensures { Names k reference.now ends.now bases.now (origin sequence place)
        (origin_call k reference.now ends.now bases.now (origin sequence place)) result }
{
    let sequences = Sequences {
        k,
        text: Text { reference, bases },
        ends,
    };
    origins::origin_part(sequences, Origin { sequence, place })
}

// Writes the list. Its rows are first made in three columns, which are cleared like the rest of the workspace.
pub fn punelavoh_list(
    settings: Settings,
    reference: &[u8],
    ends: &[u32],
    bases: &[u8],
    qualities: &[u8],
    column: &[f64],
    rows: &mut [PathRow],
    out_bases: &mut [u8],
    sequences: &mut [u32],
    places: &mut [u32],
    w_vertices: &mut [u32],
    w_edges: &mut [u32],
    w_index: &mut [u32],
    w_nodes: &mut [u32],
    w_targets: &mut [u32],
    w_paths: &mut [u32],
    w_scores: &mut [f64],
    w_active: &mut [u16],
    w_queue: &mut [u32],
    w_closed: &mut [u32],
    w_order: &mut [u32],
    w_marks: &mut [u32],
    w_walks: &mut [u32],
    row_scores: &mut [f64],
    row_closings: &mut [u32],
    row_edges: &mut [u32],
) -> ListAnswer
    ensures { let input = input_for settings reference.now ends.now bases.now qualities.now column.now in
        let outputs = outputs_of row_scores.old row_closings.old row_edges.old out_bases.old sequences.old places.old in
        let written = outputs_of row_scores.new row_closings.new row_edges.new out_bases.new sequences.new places.new in
        let tables = tables_of w_vertices.old w_edges.old w_index.old w_nodes.old w_targets.old w_paths.old w_scores.old w_active.old w_queue.old w_closed.old w_order.old w_marks.old w_walks.old in
        let left = tables_of w_vertices.new w_edges.new w_index.new w_nodes.new w_targets.new w_paths.new w_scores.new w_active.new w_queue.new w_closed.new w_order.new w_marks.new w_walks.new in
        ListCalled input result rows.old rows.new outputs written tables left }
{
    let input = Input {
        settings,
        text: Text { reference, bases },
        ends,
        qualities,
        column,
    };
    let lent = rows.len();
    let r = list_columns(
        input,
        lent,
        row_scores,
        row_closings,
        row_edges,
        out_bases,
        sequences,
        places,
        w_vertices,
        w_edges,
        w_index,
        w_nodes,
        w_targets,
        w_paths,
        w_scores,
        w_active,
        w_queue,
        w_closed,
        w_order,
        w_marks,
        w_walks,
    );
    let n = rows_told(r);
    path_rows::write_rows(rows, n, row_scores, row_closings, row_edges);
    clear_columns(settings, r, row_scores, row_closings, row_edges);
    r
}
