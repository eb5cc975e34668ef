// What the call for the list tells of its columns: how many rows they hold, and how much of them is to be zero.
#![tactic(auto)]

ghost use Rattle.std.specs.Prelude.{◌≡◌};
ghost use Rattle.row_counts.specs.Told.{columns_told};

use limits::workspace_kept;
use list_interface::{ListAnswer, Settings};

// How many rows the columns hold.
pub fn rows_told(r: ListAnswer) -> usize
    ensures { result ≡ r.paths }
{
    r.paths as usize
}

// How much of each column is to be zero: like the rest of the workspace, nothing or the length told, by the number that the answer holds.
pub fn columns_told(a: Settings, r: ListAnswer) -> usize
    ensures { result ≡ columns_told r.refusal a.asked }
{
    if workspace_kept(r.refusal) {
        return 0;
    }
    a.asked as usize
}
