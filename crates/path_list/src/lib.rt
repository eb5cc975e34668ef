// The list: the closed paths of the search in the list's order, as columns of rows, bases and origins.
#![tactic(auto)]

pub mod walks; // walks.rt: the edges of the closed paths, written out
pub mod lists; // lists.rt: what the list is made from: the closed paths, each with its record and its edges
pub mod order; // order.rt: which of two closed paths stands above the other, and all of them sorted
pub mod rows; // rows.rt: the rows of the list as columns, and their bases and origins

ghost use Rattle.std.specs.Prelude.{length};
ghost use Rattle.samples.specs.Handed.{text_of};
ghost use Rattle.path_list.specs.List.{Listable, Listed};

use crate::lists::Lists;
use crate::order::rank_paths;
use crate::rows::{write_columns, write_origins, write_spellings};
use crate::walks::write_walks;
use assembly::{PLACE, SEQUENCE};
use path_store::chains::Chains;
use path_store::records::Paths;
use samples::Text;

// The list of the closed paths, whose records stand in `closed` in the order of closing: the columns of its rows, for path_rows to copy, and beside
// them the bases and the origins. `walks` and `rank` are workspace: the edges of the closed paths, and their numbers in the list's order. The slices that
// are written stay parameters one by one: held in a struct, each contract would have to say of each which slice was lent.
pub fn write_list(
    text: Text,
    vertices: &[u32],
    edges: &[u32],
    chains: Chains,
    paths: Paths,
    closed: &[u32],
    count: usize,
    k: usize,
    most: usize,
    walks: &mut [u32],
    rank: &mut [u16],
    row_scores: &mut [f64],
    row_closings: &mut [u32],
    row_edges: &mut [u32],
    out_bases: &mut [u8],
    sequences: &mut [u32],
    places: &mut [u32],
)
    requires { let lengths = Listable (text_of text) vertices.now edges.now chains.index.now chains.targets.now paths.records.now paths.scores.now closed.now k most count (length walks.old) (length rank.old) in
        lengths (length row_scores.old) (length row_closings.old) (length row_edges.old) (length out_bases.old) (length sequences.old) (length places.old) }
    ensures { let list = Listed (text_of text.entry) vertices.now edges.now chains.entry.index.now chains.entry.targets.now paths.entry.records.now paths.entry.scores.now closed.now k most count in
        let rows = list row_scores.old row_closings.old row_edges.old row_scores.new row_closings.new row_edges.new in
        rows out_bases.old sequences.old places.old out_bases.new sequences.new places.new }
{
    write_walks(paths, chains, closed, count, most, walks);
    let lists = Lists {
        text,
        vertices,
        edges,
        paths,
        closed,
        count,
        walks: &*walks,
        k,
        most,
    };
    rank_paths(lists, rank);
    write_columns(lists, rank, row_scores, row_closings, row_edges);
    write_spellings(lists, rank, out_bases);
    write_origins(lists, rank, SEQUENCE, sequences);
    write_origins(lists, rank, PLACE, places);
}
