// Columns, told as bytes, eight an entry, in runs.
ghost use Rattle.std.specs.Prelude.{◌≤◌, length, IfSome};

use crate::numbers::unpack;
use paths_text::column::read_column;

// Writes the entries to the front, and tells how many there are; none where the column is malformed.
pub fn read_entries(runs: &[u32], column: &mut [f64]) -> Option<usize>
    requires { 512 ≤ length column.old }
    ensures { IfSome result (λ n. n ≤ length column.old) }
{
    let mut bytes = [0u8; 4096];
    let n = unpack(runs, &mut bytes);
    read_column(&bytes[..n], column)
}
