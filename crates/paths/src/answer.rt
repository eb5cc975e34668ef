// From what was read to what is printed: 14 before all others, then 1 to 5, then the call for the list, then the lines.
// Each function that writes lines asks that the text has room for 2,491 bytes, the most that is printed: it is lent, so no type of this project holds
// that.
ghost use Rattle.std.specs.Prelude.{◌≡◌, ◌≤◌, [], length};
ghost use Rattle.std.proofs.Math.Option.{some};
ghost use Rattle.definition.specs.Listing as definition;
ghost use Rattle.definition.specs.Text.{refused_line, printed_of};
ghost use Rattle.refusals.specs.Numbers.{number};
ghost use Rattle.list_interface.specs.Handed.{handed};
ghost use Rattle.whole_input.specs.Readings.{Within, input_of};
ghost use Rattle.paths_output.specs.Listing.{Columns};
ghost use Rattle.paths_input.specs.Columns.{column_read, EntriesFit};
ghost use Rattle.paths.specs.Printing.{Shown, Answered};
ghost use Rattle.paths.specs.Asking.{Accepted, input_here};
ghost use Rattle.paths.specs.Answering.{lines_of};

use list_call::list_columns;
use list_interface::{Input, ListAnswer};
use paths_input::{check_input, settings_of};
use paths_output::listing::write_list;
use paths_output::writing::write_refused;
use paths_text::source::Source;
use refusals::Refusal;

// The line of a refusal.
fn refuse(text: &mut [u8], refusal: Refusal) -> usize
    requires { 2491 ≤ length text.old }
    ensures { Shown text.new (refused_line (number refusal)) result }
{
    write_refused(text, 0, u32::from(refusal))
}

// The lines of the answer. (A refusal stands in the exported answer as its number, and 0 where there is none.)
fn write_answer(
    text: &mut [u8],
    a: ListAnswer,
    k: u32,
    row_scores: &[f64],
    row_closings: &[u32],
    row_edges: &[u32],
    out_bases: &[u8],
) -> usize
    requires { (2491 ≤ length text.old) × (a.refusal ≤ 0 → Columns row_scores.now row_closings.now row_edges.now out_bases.now k a.paths) }
    ensures { Shown text.new (lines_of row_scores.now row_closings.now row_edges.now out_bases.now k a) result }
{
    if a.refusal > 0 {
        return write_refused(text, 0, a.refusal);
    }
    write_list(
        text,
        row_scores,
        row_closings,
        row_edges,
        out_bases,
        k as usize,
        a.paths as usize,
        a.pushes,
    )
}

// What the call for the list is handed: the parts of the text, the ends of the reads and the column.
fn input_at<'a>(s: Source, text: &'a [u8], ends: &'a [u32], column: &'a [f64]) -> Input<'a>
    requires { Accepted text.now ends.now s }
    ensures { handed result ≡ input_here s text.now ends.now column.now }
{
    let parts = s.sample(text, ends);
    Input {
        settings: settings_of(s.settings),
        text: parts.text,
        ends: parts.ends,
        qualities: parts.qualities,
        column,
    }
}

// The lines of the list for the parts of the text, over fixed arrays. They are written over the text.
fn list_lines(s: Source, text: &mut [u8], ends: &[u32], column: &[f64]) -> usize
    requires { (2491 ≤ length text.old) × Accepted text.old ends.now s }
    ensures { Shown text.new (printed_of (definition.answer (input_here s text.old ends.now column.now) [] [])) result }
{
    let mut row_scores = [0.0f64; 8];
    let mut row_closings = [0u32; 8];
    let mut row_edges = [0u32; 8];
    let mut out_bases = [0u8; 2048];
    let mut sequences = [0u32; 1024];
    let mut places = [0u32; 1024];
    let mut w_vertices = [0u32; 1536];
    let mut w_edges = [0u32; 1536];
    let mut w_index = [0u32; 256];
    let mut w_nodes = [0u32; 1285];
    let mut w_targets = [0u32; 256];
    let mut w_paths = [0u32; 1296];
    let mut w_scores = [0.0f64; 144];
    let mut w_active = [0u16; 1152];
    let mut w_queue = [0u32; 128];
    let mut w_closed = [0u32; 8];
    let mut w_order = [0u32; 256];
    let mut w_marks = [0u32; 256];
    let mut w_walks = [0u32; 1024];
    let input = input_at(s, text, ends, column);
    let found = list_columns(
        input,
        8,
        &mut row_scores,
        &mut row_closings,
        &mut row_edges,
        &mut out_bases,
        &mut sequences,
        &mut places,
        &mut w_vertices,
        &mut w_edges,
        &mut w_index,
        &mut w_nodes,
        &mut w_targets,
        &mut w_paths,
        &mut w_scores,
        &mut w_active,
        &mut w_queue,
        &mut w_closed,
        &mut w_order,
        &mut w_marks,
        &mut w_walks,
    );
    write_answer(
        text,
        found,
        s.settings.k,
        &row_scores,
        &row_closings,
        &row_edges,
        &out_bases,
    )
}

// What is printed for a column that was read and for standard input as it was read into `text`. It is written over the text.
fn answer_text(read: Option<usize>, text: &mut [u8], column: &[f64]) -> usize
    requires { Within read (length text.old) × (2491 ≤ length text.old) }
    ensures { Answered (input_of read text.old) (some column.now) text.new result }
{
    let mut ends = [0u32; 512];
    match check_input(read, text, &mut ends) {
        Ok(s) => list_lines(s, text, &ends, column),
        Err(refusal) => refuse(text, refusal),
    }
}

// What is printed for the column, of which so many entries were read, and for standard input as it was read into `text`. It is written over the text.
pub fn answer(
    entries: Result<usize, Refusal>,
    read: Option<usize>,
    text: &mut [u8],
    column: &[f64],
) -> usize
    requires { Within read (length text.old) × (2491 ≤ length text.old) × EntriesFit entries 512 × (512 ≤ length column.now) }
    ensures { Answered (input_of read text.old) (column_read entries column.now) text.new result }
{
    match entries {
        Ok(m) => answer_text(read, text, &column[..m]),
        Err(refusal) => refuse(text, refusal),
    }
}
