// What the list is made from: the text, the graph, the records of the paths, the closed ones among them and their edges written out.
ghost use Rattle.std.specs.Prelude.{◌≡◌, ◌<◌};
ghost use Rattle.path_store.specs.Cells.{path_at};
ghost use Rattle.path_list.specs.Walked.{record_at};
ghost use Rattle.path_list.specs.Ranks.{lists_of, walk_at};
ghost use Rattle.path_list.specs.Rows.{Known, Kept};

use path_store::records::{PathRecord, Paths};
use samples::Text;

// The first `count` of `closed` are the records of the closed paths, in the order of closing; the edges of the closed path i stand in `walks` from place
// i * most on. `count` beside the slices is as plain as slices cut at it: `closed`, the ranks and the columns all go beyond it. What `Ready` says stays in
// the contracts: as an invariant of the type it would be asked also where less is needed, as of `row` and `write_columns`; and `Placed` speaks of the ranks.
#[derive(Clone, Copy)]
pub struct Lists<'a, 'w> {
    pub text: Text<'a>,
    pub vertices: &'a [u32],
    pub edges: &'a [u32],
    pub paths: Paths<'a, 'a>,
    pub closed: &'a [u32],
    pub count: usize,
    pub walks: &'w [u32],
    pub k: usize,
    pub most: usize,
}

impl<'a, 'w> Lists<'a, 'w> {
    // The record of the closed path i.
    pub fn row(self, i: usize) -> PathRecord
        requires { Known self.paths.records.now self.paths.scores.now self.closed.now self.count × (i < self.count) }
        ensures { result ≡ path_at self.entry.paths.records.now self.entry.paths.scores.now (record_at self.entry.closed.now i) }
    {
        self.paths.at(self.closed[i])
    }

    // The edges of the closed path i.
    pub fn walk(self, i: usize) -> &'w [u32]
        requires { Kept (lists_of self) self.count × (i < self.count) }
        ensures { result.now ≡ walk_at (lists_of self.entry) i }
    {
        let p = i * self.most;
        &self.walks[p..p + self.row(i).edges as usize]
    }
}
