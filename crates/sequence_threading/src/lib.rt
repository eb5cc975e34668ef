// Threading of one stretch: its start, with the counting backwards, then kmer after kmer.
// The tables are lent one by one: a struct of `&mut` slices would need in each contract a clause on which slice it lends.
// Each function asks for the rows that it reads or writes: the tables are lent slices of numbers, so no type of this project holds that they are there.
#![tactic(auto)]

ghost use Rattle.std.specs.Prelude.{◌+◌, eqb, not};
ghost use Rattle.definition.specs.Threading.{start_at, thread};
ghost use Rattle.samples.specs.Handed.{text_of};
ghost use Rattle.assembly.specs.Store.{graph_of};
ghost use Rattle.assembly.specs.Kmers.{part};
ghost use Rattle.kmer_threading.specs.Steps.{Stepped};
ghost use Rattle.kmer_threading.specs.Indexes.{Indexes, Keeps};
ghost use Rattle.sequence_threading.specs.Backs.{Backs, Backed};
ghost use Rattle.sequence_threading.specs.Starts.{Starts};
ghost use Rattle.sequence_threading.specs.Stretches.{Threads, Threaded, stretch_at};

use assembly::{Origin, edge_from, inc_edge, incoming_count, incoming_edge};
use kmer_threading::{At, Ground, extend_chain_by_one, get_or_create_kmer_vertex};
use refusals::Refusal;

// Counting backwards: while v has just one predecessor that edge gains 1, for at most `left` edges.
fn increase_counts_backwards(vertices: &[u32], edges: &mut [u32], s: At, v: usize, left: usize)
    requires { Backs vertices.now edges.old s v left }
    ensures { Backed edges.old edges.new s v left }
{
    if left == 0 {
        return;
    }
    if incoming_count(vertices, v) != 1 {
        return;
    }
    let i = incoming_edge(vertices, v).unwrap();
    let from = edge_from(edges, i);
    // With the mark 0 an edge that the reference walks keeps its mark.
    inc_edge(edges, i, 0);
    let t = At {
        steps: s.steps + 1,
        ..s
    };
    increase_counts_backwards(vertices, edges, t, from, left - 1);
}

// The start of a stretch whose first kmer stands at place q of the text.
fn start_sequence(
    d: &Ground,
    vertices: &mut [u32],
    edges: &mut [u32],
    index: &mut [u32],
    s: At,
    q: usize,
) -> Result<At, Refusal>
    requires { Starts d.now.sample.k (text_of d.now.sample.text) vertices.old edges.old d.now.most s q × Indexes d.now.sample.k (text_of d.now.sample.text) vertices.old index.old d.now.most s.vertices }
    ensures { Stepped d.now.sample.k (text_of d.now.sample.text) vertices.new edges.new d.now.most (s.steps + d.now.sample.k) result (start_at d.now.sample.k (part d.now.sample.k (text_of d.now.sample.text) q) (graph_of d.now.sample.k (text_of d.now.sample.text) vertices.old s.vertices edges.old s.edges)) × Keeps d.now.sample.k (text_of d.now.sample.text) vertices.new index.new d.now.most result }
{
    let k = d.sample.k as usize;
    let r = get_or_create_kmer_vertex(d, vertices, index, s, q);
    let Ok(t) = r else {
        return r;
    };
    increase_counts_backwards(vertices, edges, t, t.here, k - 1);
    Ok(At {
        steps: t.steps + k,
        ..t
    })
}

// The stretch of `len` bytes at place a of the text, whose first kmer has the origin.
// The mark is 1 for the reference, 0 for a read.
pub fn thread_sequence(
    d: &Ground,
    vertices: &mut [u32],
    edges: &mut [u32],
    index: &mut [u32],
    s0: At,
    a: usize,
    len: usize,
    mark: u32,
    origin: Origin,
) -> Result<At, Refusal>
    requires { Threads d.now.sample.k (text_of d.now.sample.text) vertices.old edges.old d.now.most s0 a len origin.place × Indexes d.now.sample.k (text_of d.now.sample.text) vertices.old index.old d.now.most s0.vertices }
    ensures { Threaded d.now.sample.k (text_of d.now.sample.text) vertices.new edges.new d.now.most (s0.steps + d.now.sample.k + len) result (thread (not (eqb mark 0)) d.now.sample.k (stretch_at (text_of d.now.sample.text) a len origin.sequence origin.place) (graph_of d.now.sample.k (text_of d.now.sample.text) vertices.old s0.vertices edges.old s0.edges)) × Keeps d.now.sample.k (text_of d.now.sample.text) vertices.new index.new d.now.most result }
{
    let r0 = start_sequence(d, vertices, edges, index, s0, a);
    let Ok(s1) = r0 else {
        return r0;
    };
    let mut s = s1;
    for j in 0..len - d.sample.k as usize {
        let left = Origin {
            place: origin.place + j as u32,
            ..origin
        };
        let q = a + j + 1;
        let r = extend_chain_by_one(d, vertices, edges, index, s, q, mark, left);
        let Ok(t) = r else {
            return r;
        };
        s = t;
    }
    Ok(s)
}
