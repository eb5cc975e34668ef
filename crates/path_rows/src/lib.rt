// The rows of the list, in the slice of records that a caller lends.
#![tactic(auto)]

ghost use Rattle.std.specs.Prelude.{◌≤◌, length};
ghost use Rattle.path_rows.specs.Rows.{Filled};

// A path of the list. `is_ref` is the Rust's reference flag, which is always false.
#[repr(C)]
#[derive(Clone, Copy)]
pub struct PathRow {
    pub score: f64,
    // its closing number: paths are counted from 1 as they close
    pub closing: u32,
    // it has k + edges bases
    pub edges: u32,
    pub is_ref: bool,
}

// The first n rows are those of the three columns; the others stay, so that n beside the slices is as plain as slices cut at n. Field by field, so that the
// bytes behind the flag, which are no field's, stay too.
pub fn write_rows(rows: &mut [PathRow], n: usize, scores: &[f64], closings: &[u32], edges: &[u32])
    requires { (n ≤ length rows.old) × (n ≤ length scores.now) × (n ≤ length closings.now) × (n ≤ length edges.now) }
    ensures { Filled scores.now closings.now edges.now n rows.old rows.new }
{
    for i in 0..n {
        let row = &mut rows[i];
        row.score = scores[i];
        row.closing = closings[i];
        row.edges = edges[i];
        row.is_ref = false;
    }
}
