// The rows of the list: scores, closing numbers and edge counts as columns, and beside them the bases and the origins.
ghost use Rattle.std.specs.Prelude.{◌+◌, ◌*◌, ◌≤◌, length};
ghost use Rattle.assembly.specs.Fields.{IsEdgeField};
ghost use Rattle.path_list.specs.Laid.{Laid};
ghost use Rattle.path_list.specs.Ranks.{lists_of, Ready};
ghost use Rattle.path_list.specs.Rows.{Placed, Known, Columns, Filed, bases_at, fields_at};

use crate::lists::Lists;
use closed_paths::writing::write_field;
use graph_kmers::path_bases;
use tables::EDGE;

// Row r tells of the closed path whose number stands at rank r. Closings are numbered from 1.
pub fn write_columns(
    lists: Lists,
    rank: &[u16],
    row_scores: &mut [f64],
    row_closings: &mut [u32],
    row_edges: &mut [u32],
)
    requires { Placed lists.count rank.now × Known lists.paths.records.now lists.paths.scores.now lists.closed.now lists.count × (lists.count ≤ length row_scores.old) × (lists.count ≤ length row_closings.old) × (lists.count ≤ length row_edges.old) }
    ensures { Columns lists.entry.paths.records.now lists.entry.paths.scores.now lists.entry.closed.now rank.now lists.entry.count row_scores.old row_closings.old row_edges.old row_scores.new row_closings.new row_edges.new }
{
    for r in 0..lists.count {
        let i = rank[r];
        let row = lists.row(usize::from(i));
        row_scores[r] = row.score;
        row_closings[r] = u32::from(i) + 1;
        row_edges[r] = row.edges;
    }
}

// The bases of row r from place r * (k + most) on.
pub fn write_spellings(lists: Lists, rank: &[u16], out: &mut [u8])
    requires { Placed lists.count rank.now × Ready (lists_of lists) lists.count × (lists.count * (lists.k + lists.most) ≤ length out.old) }
    ensures { Laid (lists.entry.k + lists.entry.most) (bases_at (lists_of lists.entry) rank.now) out.old lists.entry.count out.new }
{
    for r in 0..lists.count {
        let walk = lists.walk(usize::from(rank[r]));
        let from = r * (lists.k + lists.most);
        path_bases(
            lists.text,
            lists.vertices,
            lists.edges,
            lists.k,
            walk,
            out,
            from,
        );
    }
}

// A field of each edge of row r, from place r * most on: the sequences or the places of the origins.
pub fn write_origins(lists: Lists, rank: &[u16], field: usize, out: &mut [u32])
    requires { Placed lists.count rank.now × Filed lists.edges.now lists.paths.records.now lists.paths.scores.now lists.closed.now lists.walks.now lists.most lists.count × (IsEdgeField field) × (lists.count * lists.most ≤ length out.old) }
    ensures { Laid lists.entry.most (fields_at lists.entry.edges.now lists.entry.paths.records.now lists.entry.closed.now lists.entry.walks.now lists.entry.most field rank.now) out.old lists.entry.count out.new }
{
    for r in 0..lists.count {
        let walk = lists.walk(usize::from(rank[r]));
        write_field(walk, lists.edges, EDGE, field, out, r * lists.most);
    }
}
