// Whether the rows of a list are as told. A row told is a list: the halves of its score, closing number, edges, flag, then two lists, its bases and
// its origins.
ghost use Rattle.std.specs.Prelude.{◌≡◌, true, ℕ, ◌+◌, ◌<◌, ◌≤◌, length, get_or, drop};
ghost use Rattle.known_answers.specs.Parts.{Parted};

use crate::numbers::{Lists, behind, field, split_list};
use agreement::agree::{all_are, untouched, written};
use agreement::scores::{joined, score_is};

// ---- scores, closing numbers, edges

// The columns have no flag, and every flag of the list is 0.
fn numbers_agree(row: &[u32], score: Option<&f64>, closing: u32, edges: u32) -> bool {
    score.is_some_and(|s| score_is(*s, joined(field(row, 0), field(row, 1))))
        && closing == field(row, 2)
        && edges == field(row, 3)
        && field(row, 4) == 0
}

// The numbers of all rows, which are as many as the answer lists; behind them nothing touched. (`listed` is a number to compare, and the columns are longer.)
pub fn columns_agree(
    rows: &[u32],
    listed: usize,
    scores: &[f64],
    closings: &[u32],
    edges: &[u32],
) -> bool {
    // Counted by hand, since how many rows are told is compared behind the loop, which `enumerate` does not give.
    let mut row: usize = 0;
    for told in Lists(rows) {
        if !numbers_agree(
            told,
            scores.get(row),
            field(closings, row),
            field(edges, row),
        ) {
            return false;
        }
        row += 1;
    }
    row == listed && untouched(scores, row) && untouched(closings, row) && untouched(edges, row)
}

// ---- bases

// The bases told of a row, and what is told behind them.
fn bases_told(row: &[u32]) -> (&[u32], &[u32])
    ensures { Parted (drop 5 row.now) result.0.now result.1.now }
{
    split_list(behind(row, 5))
}

fn row_bases_agree(row: &[u32], bases: &[u8]) -> bool {
    written(bases, bases_told(row).0)
}

// The bases of all rows, each with as much room as the stride; behind them nothing touched.
pub fn bases_agree(rows: &[u32], stride: usize, bases: &[u8]) -> bool {
    let mut left = bases;
    for told in Lists(rows) {
        if stride > left.len() {
            return false;
        }
        let (room, rest) = left.split_at(stride);
        if !row_bases_agree(told, room) {
            return false;
        }
        left = rest;
    }
    untouched(left, 0)
}

// ---- origins

// Whether places rise by one from the first.
fn rises(places: &[u32], first: u32) -> bool
    ensures { result ≡ true → (i : ℕ) → i < length places.now → get_or places.now i 0 ≡ first + i }
{
    places
        .iter()
        .enumerate()
        .all(|(i, place)| *place as usize == first as usize + i)
}

// Whether a run of origins, told as sequence, place and count, stands at the front.
fn run_agrees(sequences: &[u32], places: &[u32], sequence: u32, place: u32, count: usize) -> bool
    ensures { result ≡ true → (count ≤ length sequences.now) × (count ≤ length places.now) }
{
    count <= sequences.len()
        && count <= places.len()
        && all_are(&sequences[..count], u64::from(sequence))
        && rises(&places[..count], place)
}

// The origins of a row, told in runs; behind them nothing touched.
fn runs_agree(runs: &[u32], edges: usize, sequences: &[u32], places: &[u32]) -> bool {
    let mut from: usize = 0;
    for run in runs.chunks(3) {
        let count = field(run, 2) as usize;
        if !run_agrees(
            &sequences[from..],
            &places[from..],
            field(run, 0),
            field(run, 1),
            count,
        ) {
            return false;
        }
        from += count;
    }
    from == edges && untouched(sequences, from) && untouched(places, from)
}

fn row_origins_agree(row: &[u32], sequences: &[u32], places: &[u32]) -> bool {
    let edges = field(row, 3) as usize;
    let (runs, _) = split_list(bases_told(row).1);
    runs_agree(runs, edges, sequences, places)
}

// The origins of all rows, each with as much room as the stride; behind them nothing touched.
pub fn origins_agree(rows: &[u32], stride: usize, sequences: &[u32], places: &[u32]) -> bool
    ensures { result ≡ true → length sequences.now ≡ length places.now }
{
    if sequences.len() != places.len() {
        return false;
    }
    let mut sequences_left = sequences;
    let mut places_left = places;
    for told in Lists(rows) {
        if stride > sequences_left.len() || stride > places_left.len() {
            return false;
        }
        let (row_sequences, more_sequences) = sequences_left.split_at(stride);
        let (row_places, more_places) = places_left.split_at(stride);
        if !row_origins_agree(told, row_sequences, row_places) {
            return false;
        }
        sequences_left = more_sequences;
        places_left = more_places;
    }
    untouched(sequences_left, 0) && untouched(places_left, 0)
}
