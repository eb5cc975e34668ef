// The record of a path: a struct by value, read from the lent slices by `Paths::at` and written by `path_put`.
ghost use Rattle.std.specs.Prelude.{◌≡◌, ◌<◌};
ghost use Rattle.path_store.specs.Cells.{numbered, path_at, Inside, Stored};

use tables::PATH;

// Where the fields of a path's record stand.
const PARENT: usize = 0;

const CHAIN: usize = 1;

const LAST: usize = 2;

const EDGES: usize = 3;

const END: usize = 4;

const FORK: usize = 5;

const SINCE: usize = 6;

const JOINED: usize = 7;

const MARKS: usize = 8;

// A path: its score, its parent's number + 1 (0: the start path, which has no edges), the piece that it adds to its parent's edges (the length of the
// chain followed from the parent's last vertex, then the last edge + 1, or 0 where it ends with the chain), how many edges it has in all, its last
// vertex, the vertex that the chain leads to, the decisions since guidance, the vertex + 1 whose tree joined when the path was taken (0: none), how
// many active trees it has, and whether it was recovered, so that all its vertices with a tree count as visited. Fields of Option<u32> were tried, and
// slower: each reading of a record then tells of three numbers whether they are there, also where they are not asked for.
#[derive(Clone, Copy)]
pub struct PathRecord {
    pub score: f64,
    pub parent: u32,
    pub chain: u32,
    pub edge: u32,
    pub edges: u32,
    pub end: u32,
    pub fork: u32,
    pub since: u32,
    pub joined: u32,
    pub trees: u32,
    pub recovered: bool,
}

impl PathRecord {
    // The parent's number; the start path has none.
    pub fn above(self) -> Option<u32>
        ensures { result ≡ numbered self.parent }
    {
        self.parent.checked_sub(1)
    }

    // The last edge; a path that ends with its chain has none.
    pub fn last(self) -> Option<u32>
        ensures { result ≡ numbered self.edge }
    {
        self.edge.checked_sub(1)
    }
}

// The records of the paths, and beside them their scores, since a table of u32 has no place for an f64. Who writes them takes two `&mut`: held in a struct,
// each contract would have to say of each which slice was lent.
#[derive(Clone, Copy)]
pub struct Paths<'r, 's> {
    pub records: &'r [u32],
    pub scores: &'s [f64],
}

impl<'r, 's> Paths<'r, 's> {
    // The record r.
    pub fn at(self, r: u32) -> PathRecord
        requires { Inside self.records.now self.scores.now r }
        ensures { result ≡ path_at self.entry.records.now self.entry.scores.now r }
    {
        let i = r as usize;
        let at = i * PATH;
        let marks = self.records[at + MARKS];
        PathRecord {
            score: self.scores[i],
            parent: self.records[at + PARENT],
            chain: self.records[at + CHAIN],
            edge: self.records[at + LAST],
            edges: self.records[at + EDGES],
            end: self.records[at + END],
            fork: self.records[at + FORK],
            since: self.records[at + SINCE],
            joined: self.records[at + JOINED],
            trees: marks / 2,
            recovered: marks % 2 == 1,
        }
    }
}

// The record r becomes `row`. The mark of a recovered path stands in the lowest bit beside the number of trees.
pub fn path_put(paths: &mut [u32], scores: &mut [f64], r: u32, row: PathRecord)
    requires { Inside paths.old scores.old r × (row.trees < 2147483648) }
    ensures { Stored paths.old scores.old r row paths.new scores.new }
{
    let i = r as usize;
    let at = i * PATH;
    let marks = row.trees * 2 + u32::from(row.recovered);
    scores[i] = row.score;
    paths[at + PARENT] = row.parent;
    paths[at + CHAIN] = row.chain;
    paths[at + LAST] = row.edge;
    paths[at + EDGES] = row.edges;
    paths[at + END] = row.end;
    paths[at + FORK] = row.fork;
    paths[at + SINCE] = row.since;
    paths[at + JOINED] = row.joined;
    paths[at + MARKS] = marks;
}
