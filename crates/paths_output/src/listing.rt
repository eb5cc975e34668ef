// What an accepted list prints: the first line, and a line for each path.
// The columns stay loose parameters: in one struct the proof did not close, since of a slice in a struct it is not known that its numbers are of 32 bits.
ghost use Rattle.std.specs.Prelude.{◌++◌, ◌+◌, ◌≤◌, length};
ghost use Rattle.definition.specs.Text.{first_line};
ghost use Rattle.paths_output.specs.Written.{Wrote};
ghost use Rattle.paths_output.specs.Listing.{line_at, lines_from, Columns, RowFits};

use crate::writing::{write_first, write_path};

// The line of the path in row i; its bases stand from i times the stride on.
fn write_row(
    out: &mut [u8],
    at: usize,
    scores: &[f64],
    closings: &[u32],
    edges: &[u32],
    bases: &[u8],
    k: usize,
    i: usize,
) -> usize
    requires { RowFits scores.now closings.now edges.now bases.now k i × (at + length (line_at scores.now closings.now edges.now bases.now k i) ≤ length out.old) }
    ensures { Wrote out.old out.new at (line_at scores.now closings.now edges.now bases.now k i) result }
{
    let from = i * (k + 128);
    let count = edges[i];
    let to = from + (k + count as usize);
    write_path(
        out,
        at,
        i as u32 + 1,
        scores[i],
        closings[i],
        count,
        &bases[from..to],
    )
}

// All that an accepted list prints, from the front of `out`.
pub fn write_list(
    out: &mut [u8],
    scores: &[f64],
    closings: &[u32],
    edges: &[u32],
    bases: &[u8],
    k: usize,
    paths: usize,
    pushes: u32,
) -> usize
    requires { Columns scores.now closings.now edges.now bases.now k paths × (2491 ≤ length out.old) }
    ensures { Wrote out.old out.new 0
        (first_line paths pushes ++ lines_from scores.now closings.now edges.now bases.now k 0 paths) result }
{
    let mut at = write_first(out, 0, paths as u32, pushes);
    for i in 0..paths {
        at = write_row(out, at, scores, closings, edges, bases, k, i);
    }
    at
}
