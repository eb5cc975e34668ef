// The order of the list: falling score, then falling bases, then earlier closing. (Rust: the sort at the end of find_junction_best_haplotypes)
ghost use Rattle.std.specs.Prelude.{◌≡◌, map, ◌<◌, ◌≤◌, length};
ghost use Rattle.laws.specs.Numbers.{compare_list, is_gt};
ghost use Rattle.graph_kmers.specs.Paths.{end_base, Spells};
ghost use Rattle.samples.specs.Handed.{text_of};
ghost use Rattle.path_list.specs.Tails.{Spelt};
ghost use Rattle.path_list.specs.Ranks.{lists_of, Ready, above_at, Inserts, Inserted, Ranked};

use crate::lists::Lists;
use assembly::{edge_to, kmer_place};

impl<'a, 'w> Lists<'a, 'w> {
    // The base that an edge adds to a path: the last of its target's kmer. (`path_base` of graph_kmers reads the same byte, but is told the bounds of a
    // whole path; one function for both would ask them of each edge anew.)
    fn end_base(self, e: u32) -> u8
        requires { Spelt self.k (text_of self.text) self.vertices.now self.edges.now e }
        ensures { result ≡ end_base self.entry.k (text_of self.entry.text) self.entry.vertices.now self.entry.edges.now e }
    {
        let v = edge_to(self.edges, e as usize);
        self.text.byte_at(kmer_place(self.vertices, v) + self.k - 1)
    }

    // Whether the bases of the first path are the greater: both begin with the same kmer, so the bases that their edges add are compared, a front
    // being less than what it begins. A loop: `gt` of two iterators that map each edge to its base was tried, and the proof did not close.
    fn greater_bases(self, a: &[u32], b: &[u32]) -> bool
        requires { Spells self.k (text_of self.text) self.vertices.now self.edges.now a.now (length a.now) × Spells self.k (text_of self.text) self.vertices.now self.edges.now b.now (length b.now) }
        ensures { let tell = end_base self.entry.k (text_of self.entry.text) self.entry.vertices.now self.entry.edges.now in
            result ≡ is_gt (compare_list (map tell a.now) (map tell b.now)) }
    {
        for (d, e) in a.iter().zip(b) {
            let x = self.end_base(*d);
            let y = self.end_base(*e);
            if x != y {
                return y < x;
            }
        }
        b.len() < a.len()
    }

    // Whether the closed path i stands above the closed path j, whatever their closing. Two comparisons are as plain as `partial_cmp`, whose Option has
    // four cases for the same three ways.
    fn stands_above(self, i: usize, j: usize) -> bool
        requires { Ready (lists_of self) self.count × (i < self.count) × (j < self.count) }
        ensures { result ≡ above_at (lists_of self.entry) i j }
    {
        let a = self.row(i);
        let b = self.row(j);
        if b.score < a.score {
            return true;
        }
        if a.score < b.score {
            return false;
        }
        self.greater_bases(self.walk(i), self.walk(j))
    }
}

// The closed path x goes in front of the first that does not stand above it, among those from place x + 1 on; those passed move up by one.
fn insert_path(lists: Lists, x: usize, rank: &mut [u16])
    requires { Ready (lists_of lists) lists.count × Inserts lists.count x rank.old }
    ensures { Inserted (above_at (lists_of lists.entry)) lists.entry.count x rank.old rank.new }
{
    for j in x + 1..lists.count {
        let y = rank[j];
        if !lists.stands_above(usize::from(y), x) {
            rank[j - 1] = x as u16;
            return;
        }
        rank[j - 1] = y;
    }
    rank[lists.count - 1] = x as u16;
}

// The numbers of the closed paths, from 0, in the list's order. By insertion: std's sorts take memory or are not stable.
pub fn rank_paths(lists: Lists, rank: &mut [u16])
    requires { Ready (lists_of lists) lists.count × (lists.count ≤ length rank.old) }
    ensures { Ranked (above_at (lists_of lists.entry)) lists.entry.count 0 rank.new }
{
    for x in (0..lists.count).rev() {
        insert_path(lists, x, rank);
    }
}
