// The calls for the list, each made as told and compared with the answer told.
ghost use Rattle.std.specs.Prelude.{◌≤◌};
ghost use Rattle.replay.specs.Lengths.{Fits};

use agreement::agree::{LENT, LENT_BYTE, LENT_SLOT, left};
use known_answers::calls::{graph_maxima, graph_tables_left, lent, value_left};
use known_answers::column::read_entries;
use known_answers::numbers::{behind, field, split_list};
use known_answers::rows::{bases_agree, columns_agree, origins_agree};
use limits::SearchMaxima;
use list_call::list_columns;
use list_interface::{Input, ListAnswer, Settings};
use list_lent::Lent;
use samples::Sample;
use slice_lengths::{LengthsTold, Workspace};
use std::ops::Range;

// ---- what is handed in: paths, threshold, recovery, maxima, which slice is short, the column

// A maximum that the limits allow is cut to what the arrays have room for: an answer that stays below it is the same.
fn cut(maximum: u32, limit: u32, room: u32) -> u32 {
    if maximum > limit {
        maximum
    } else {
        maximum.min(room)
    }
}

fn search_maxima_cut(call: &[u32]) -> SearchMaxima {
    SearchMaxima {
        path_edges: cut(field(call, 7), 4096, 1024),
        active: field(call, 8),
        pushes: cut(field(call, 9), 32768, 4096),
    }
}

fn list_settings(call: &[u32], k: u32, quality: u8) -> Settings {
    Settings {
        k,
        quality,
        asked: field(call, 1),
        threshold: field(call, 2).cast_signed(),
        recovery: field(call, 3) == 1,
        graph: graph_maxima(call, 4),
        search: search_maxima_cut(call),
    }
}

// The lengths told for a call, slice by slice.
fn slices_told(told: LengthsTold) -> Lent {
    let w = told.workspace;
    Lent {
        rows: told.paths,
        bases: told.bases,
        sequences: told.origins,
        places: told.origins,
        vertices: w.vertices,
        edges: w.edges,
        index: w.index,
        nodes: w.nodes,
        targets: w.targets,
        paths: w.paths,
        scores: w.scores,
        active: w.active,
        queue: w.queue,
        closed: w.closed,
        order: w.order,
        marks: w.marks,
        walks: w.walks,
        row_scores: w.columns,
        row_closings: w.columns,
        row_edges: w.columns,
    }
}

// How much of each slice is lent: as much as told, and one element fewer of the one that is to be short, by its number in `Lent` from 1.
fn lengths_lent(told: Lent, short: u32) -> Lent
    ensures { Fits result 128 128 128 147456 131072 131072 49152 49152 8192 81925 8192 38088 4232 270848 4096 128 8192 8192 131072 }
{
    Lent {
        rows: lent(told.rows, 128, short == 1),
        bases: lent(told.bases, 147456, short == 2),
        sequences: lent(told.sequences, 131072, short == 3),
        places: lent(told.places, 131072, short == 4),
        vertices: lent(told.vertices, 49152, short == 5),
        edges: lent(told.edges, 49152, short == 6),
        index: lent(told.index, 8192, short == 7),
        nodes: lent(told.nodes, 81925, short == 8),
        targets: lent(told.targets, 8192, short == 9),
        paths: lent(told.paths, 38088, short == 10),
        scores: lent(told.scores, 4232, short == 11),
        active: lent(told.active, 270848, short == 12),
        queue: lent(told.queue, 4096, short == 13),
        closed: lent(told.closed, 128, short == 14),
        order: lent(told.order, 8192, short == 15),
        marks: lent(told.marks, 8192, short == 16),
        walks: lent(told.walks, 131072, short == 17),
        row_scores: lent(told.row_scores, 128, short == 18),
        row_closings: lent(told.row_closings, 128, short == 19),
        row_edges: lent(told.row_edges, 128, short == 20),
    }
}

// ---- the answer: refusal, paths, pushes, longest waiting list, rows

// The mark lies from the longest waiting list to the pushes.
fn list_answered(told: &[u32], answer: ListAnswer) -> bool {
    answer.refusal == field(told, 0)
        && answer.paths == field(told, 1)
        && answer.pushes == field(told, 2)
        && field(told, 3) <= answer.mark
        && answer.mark <= answer.pushes
}

fn outputs_agree(
    told: &[u32],
    a: Settings,
    row_scores: &[f64],
    row_closings: &[u32],
    row_edges: &[u32],
    out_bases: &[u8],
    sequences: &[u32],
    places: &[u32],
) -> bool {
    let rows = behind(told, 4);
    let edges = a.search.path_edges as usize;
    columns_agree(
        rows,
        field(told, 1) as usize,
        row_scores,
        row_closings,
        row_edges,
    ) && bases_agree(rows, a.k as usize + edges, out_bases)
        && origins_agree(rows, edges, sequences, places)
}

// The workspace of the paths.
fn path_tables_left(
    refusal: u32,
    told: Workspace,
    w_paths: &[u32],
    w_scores: &[f64],
    w_active: &[u16],
    w_queue: &[u32],
) -> bool {
    let value = value_left::<u32>(refusal);
    left(w_paths, told.paths, value)
        && left(w_scores, told.scores, value_left::<f64>(refusal))
        && left(w_active, told.active, value_left::<u16>(refusal))
        && left(w_queue, told.queue, value)
}

// The rest of the search's workspace.
fn search_tables_left(
    refusal: u32,
    told: Workspace,
    w_closed: &[u32],
    w_order: &[u32],
    w_marks: &[u32],
    w_walks: &[u32],
) -> bool {
    let value = value_left::<u32>(refusal);
    left(w_closed, told.closed, value)
        && left(w_order, told.order, value)
        && left(w_marks, told.marks, value)
        && left(w_walks, told.walks, value)
}

// Each call is made in slices of its own, so that nothing of an earlier one can help it. (Each has a name of its own, as the call takes them one by one.)
fn list_agrees(call: &[u32], told: &[u32], short: u32, sample: Sample, column: &[f64]) -> bool {
    let a = list_settings(call, sample.k, sample.quality);
    let lengths = slice_lengths::lengths(a.k, a.maxima());
    let w = lengths.workspace;
    let mut row_scores = [1.5f64; 128];
    let mut row_closings = [LENT; 128];
    let mut row_edges = [LENT; 128];
    let mut out_bases = [LENT_BYTE; 147456];
    let mut sequences = [LENT; 131072];
    let mut places = [LENT; 131072];
    let mut w_vertices = [LENT; 49152];
    let mut w_edges = [LENT; 49152];
    let mut w_index = [LENT; 8192];
    let mut w_nodes = [LENT; 81925];
    let mut w_targets = [LENT; 8192];
    let mut w_paths = [LENT; 38088];
    let mut w_scores = [1.5f64; 4232];
    let mut w_active = [LENT_SLOT; 270848];
    let mut w_queue = [LENT; 4096];
    let mut w_closed = [LENT; 128];
    let mut w_order = [LENT; 8192];
    let mut w_marks = [LENT; 8192];
    let mut w_walks = [LENT; 131072];
    let l = lengths_lent(slices_told(lengths), short);
    let input = Input {
        settings: a,
        text: sample.text,
        ends: sample.ends,
        qualities: sample.qualities,
        column,
    };
    let answer = list_columns(
        input,
        l.rows,
        &mut row_scores[..l.row_scores],
        &mut row_closings[..l.row_closings],
        &mut row_edges[..l.row_edges],
        &mut out_bases[..l.bases],
        &mut sequences[..l.sequences],
        &mut places[..l.places],
        &mut w_vertices[..l.vertices],
        &mut w_edges[..l.edges],
        &mut w_index[..l.index],
        &mut w_nodes[..l.nodes],
        &mut w_targets[..l.targets],
        &mut w_paths[..l.paths],
        &mut w_scores[..l.scores],
        &mut w_active[..l.active],
        &mut w_queue[..l.queue],
        &mut w_closed[..l.closed],
        &mut w_order[..l.order],
        &mut w_marks[..l.marks],
        &mut w_walks[..l.walks],
    );
    let refusal = answer.refusal;
    list_answered(told, answer)
        && outputs_agree(
            told,
            a,
            &row_scores,
            &row_closings,
            &row_edges,
            &out_bases,
            &sequences,
            &places,
        )
        && graph_tables_left(refusal, w, &w_vertices, &w_edges, &w_index, &w_nodes)
        && left(&w_targets, w.targets, value_left::<u32>(refusal))
        && path_tables_left(refusal, w, &w_paths, &w_scores, &w_active, &w_queue)
        && search_tables_left(refusal, w, &w_closed, &w_order, &w_marks, &w_walks)
}

// ---- which slices are short

// The slices that are to be short, one a call, by their numbers in `Lent` from 1. (No slice has the number 0, so the call with none short is a turn like the
// others.)
fn short_slices(told: u32) -> Range<u32>
    ensures { result.end ≤ 21 }
{
    match told {
        3 => 1..2,
        4 => 2..3,
        5 => 3..5,
        6 => 5..21,
        _ => 0..1,
    }
}

// The call over a column, once for each slice that is to be short.
fn lists_agree(call: &[u32], told: &[u32], sample: Sample, column: &[f64]) -> bool {
    short_slices(field(call, 10)).all(|short| list_agrees(call, told, short, sample, column))
}

// The column is the first places of log10, or given. (How many places is the number behind the column's length, also where that length is 0.)
pub fn list_agrees_over(call: &[u32], sample: Sample, log10: &[f64]) -> bool {
    let (column, told) = split_list(behind(call, 12));
    if field(call, 11) == 0 {
        let n = (field(call, 13) as usize).min(log10.len());
        return lists_agree(call, told, sample, &log10[..n]);
    }
    let mut given = [0.0f64; 512];
    let n = read_entries(column, &mut given).unwrap_or(0);
    lists_agree(call, told, sample, &given[..n])
}
