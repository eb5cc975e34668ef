// The static library for C: each export is a call of `punelavoh`, with its contract stated again.
#![tactic(auto)]

ghost use Rattle.definition.specs.Calls.{origin_call};
ghost use Rattle.limits.specs.Handed.{sample_of, graph_maxima_of, search_maxima_of};
ghost use Rattle.slice_lengths.specs.Lengths.{Told};
ghost use Rattle.origins.specs.Parts.{origin, Names};
ghost use Rattle.graph_call.specs.Outcome.{Graphed};
ghost use Rattle.list_interface.specs.Handed.{input_for};
ghost use Rattle.list_work.specs.Outcome.{outputs_of, tables_of};
ghost use Rattle.punelavoh.specs.Records.{ListCalled};

use graph_call::GraphAnswer;
use limits::{GraphMaxima, SearchMaxima};
use list_interface::{ListAnswer, Settings};
use origins::OriginAnswer;
use path_rows::PathRow;
use slice_lengths::LengthsTold;

// The parameters by name, for the header that tools/c-header makes; a workspace slice `w_x` is what `Workspace` says of x. In brackets stands where a
// value or the length of a slice is told, where it is not told by the same name. In braces stand the numbers of a row.
// settings: what the run is asked for
// k: the kmer size
// quality: the minimum quality: a base below it is not used
// paths [settings.asked]: paths asked
// graph: the maxima of the graph and its trees
// search: the maxima of the search
// maxima [settings.graph]: the maxima of the graph and its trees
// reference: its bases, k to 1,024 letters of A C G T N
// ends: for each read where it ends in `bases`, exclusive; they never fall, and the last is the number of bases; up to 512
// bases: of all reads, one after the other; up to 32,768
// qualities: one for each base, numbers and not the characters of a text
// column: place n holds log10 of n; 2 to 65,536 places
// sequence: 0 for the reference, else the read, from 1
// place: of the first byte in that sequence, from 0
// edges {from, to, support, is_ref, sequence, place}: all edges, rising by ends; is_ref is 1 for an edge of the reference, else 0
// nodes {from, to, count, depth}: all tree nodes, tree after tree; a root has its vertex as both ends and depth 0
// rows [told.paths]: the paths, best first
// out_bases [told.bases]: the bases of the path in row r, from r * (k + path_edges) on
// sequences [told.origins]: for each edge of the path in row r the sequence of its origin, from r * path_edges on
// places [told.origins]: and the place in that sequence
// row_scores [told.workspace.columns]: the column of the scores
// row_closings [told.workspace.columns]: the column of the closing numbers
// row_edges [told.workspace.columns]: the column of the edge counts

// Writes the rows of edges and of tree nodes.
#[unsafe(no_mangle)]
pub extern "C" fn punelavoh_graph(
    k: u32,
    quality: u8,
    reference: &[u8],
    ends: &[u32],
    bases: &[u8],
    qualities: &[u8],
    maxima: GraphMaxima,
    edges: &mut [u32],
    nodes: &mut [u32],
    w_vertices: &mut [u32],
    w_edges: &mut [u32],
    w_index: &mut [u32],
    w_nodes: &mut [u32],
    w_open: &mut [u32],
) -> GraphAnswer
    ensures { let sample = sample_of k quality reference.now ends.now bases.now qualities.now in
        Graphed sample (graph_maxima_of maxima) result edges.old edges.new nodes.old nodes.new w_vertices.old w_vertices.new w_edges.old w_edges.new w_index.old w_index.new w_nodes.old w_nodes.new w_open.old w_open.new }
{
    punelavoh::punelavoh_graph(
        k, quality, reference, ends, bases, qualities, maxima, edges, nodes, w_vertices, w_edges,
        w_index, w_nodes, w_open,
    )
}

// Tells how many elements each slice needs.
#[unsafe(no_mangle)]
pub extern "C" fn punelavoh_lengths(
    k: u32,
    paths: u32,
    graph: GraphMaxima,
    search: SearchMaxima,
) -> LengthsTold
    ensures { Told k paths (graph_maxima_of graph) (search_maxima_of search) result }
{
    punelavoh::punelavoh_lengths(k, paths, graph, search)
}

// Tells which part of the reference (in_reads 0) or of the read bases (in_reads 1) an origin names.
#[unsafe(no_mangle)]
pub extern "C" fn punelavoh_origin(
    k: u32,
    reference: &[u8],
    ends: &[u32],
    bases: &[u8],
    sequence: u32,
    place: u32,
) -> OriginAnswer
    ensures { Names k reference.now ends.now bases.now (origin sequence place)
        (origin_call k reference.now ends.now bases.now (origin sequence place)) result }
{
    punelavoh::punelavoh_origin(k, reference, ends, bases, sequence, place)
}

// Writes the list. Its rows are first made in three columns, which are cleared like the rest of the workspace.
#[unsafe(no_mangle)]
pub extern "C" fn punelavoh_list(
    settings: Settings,
    reference: &[u8],
    ends: &[u32],
    bases: &[u8],
    qualities: &[u8],
    column: &[f64],
    rows: &mut [PathRow],
    out_bases: &mut [u8],
    sequences: &mut [u32],
    places: &mut [u32],
    w_vertices: &mut [u32],
    w_edges: &mut [u32],
    w_index: &mut [u32],
    w_nodes: &mut [u32],
    w_targets: &mut [u32],
    w_paths: &mut [u32],
    w_scores: &mut [f64],
    w_active: &mut [u16],
    w_queue: &mut [u32],
    w_closed: &mut [u32],
    w_order: &mut [u32],
    w_marks: &mut [u32],
    w_walks: &mut [u32],
    row_scores: &mut [f64],
    row_closings: &mut [u32],
    row_edges: &mut [u32],
) -> ListAnswer
    ensures { let input = input_for settings reference.now ends.now bases.now qualities.now column.now in
        let outputs = outputs_of row_scores.old row_closings.old row_edges.old out_bases.old sequences.old places.old in
        let written = outputs_of row_scores.new row_closings.new row_edges.new out_bases.new sequences.new places.new in
        let tables = tables_of w_vertices.old w_edges.old w_index.old w_nodes.old w_targets.old w_paths.old w_scores.old w_active.old w_queue.old w_closed.old w_order.old w_marks.old w_walks.old in
        let left = tables_of w_vertices.new w_edges.new w_index.new w_nodes.new w_targets.new w_paths.new w_scores.new w_active.new w_queue.new w_closed.new w_order.new w_marks.new w_walks.new in
        ListCalled input result rows.old rows.new outputs written tables left }
{
    punelavoh::punelavoh_list(
        settings,
        reference,
        ends,
        bases,
        qualities,
        column,
        rows,
        out_bases,
        sequences,
        places,
        w_vertices,
        w_edges,
        w_index,
        w_nodes,
        w_targets,
        w_paths,
        w_scores,
        w_active,
        w_queue,
        w_closed,
        w_order,
        w_marks,
        w_walks,
        row_scores,
        row_closings,
        row_edges,
    )
}
