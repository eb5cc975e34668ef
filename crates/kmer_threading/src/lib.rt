// Threading, one kmer at a time: the vertex of a kmer, and the step to it from the vertex reached.
// The tables are lent one by one: a struct of `&mut` slices would need in each contract a clause on which slice it lends.
// Each function asks for the rows that it reads or writes: the tables are lent slices of numbers, so no type of this project holds that they are there.
#![tactic(auto)]

ghost use Rattle.std.specs.Prelude.{◌+◌, eqb, not};
ghost use Rattle.definition.specs.Threading.{step};
ghost use Rattle.samples.specs.Handed.{text_of};
ghost use Rattle.assembly.specs.Moves.{origin_of};
ghost use Rattle.assembly.specs.Kmers.{part};
ghost use Rattle.kmer_threading.specs.Steps.{Gets, Got, Extends, Stepped, threading_of};
ghost use Rattle.kmer_threading.specs.Indexes.{Indexes, Keeps};

use assembly::{Origin, add_edge, create_vertex, edge_to, inc_edge, out_edge};
use graph_kmers::{enter_kmer, find_in_bucket, kmer_bucket};
use refusals::Refusal;
use samples::Sample;

// The most vertices and edges: of the caller's maxima the symbolic vertex and edge count, of those that threading keeps to they do not.
#[derive(Clone, Copy)]
pub struct Most {
    pub vertices: usize,
    pub edges: usize,
}

// What threading goes by and never changes: the sample, of which a kmer's step takes the text and k, and the most vertices and edges. The steps are lent
// it: by value, which was tried, it was copied for each base, and the build took longer.
#[derive(Clone, Copy)]
pub struct Ground<'a> {
    pub sample: Sample<'a>,
    pub most: Most,
}

// How much of the tables is used, the vertex reached, and a bound of the counts made: no support is above it, so that all fit.
#[derive(Clone, Copy)]
pub struct At {
    pub vertices: usize,
    pub edges: usize,
    pub here: usize,
    pub steps: usize,
}

// The vertex of the kmer at place q of the text, made where the kmer has none.
pub fn get_or_create_kmer_vertex(
    d: &Ground,
    vertices: &mut [u32],
    index: &mut [u32],
    s: At,
    q: usize,
) -> Result<At, Refusal>
    requires { Gets d.now.sample.k (text_of d.now.sample.text) vertices.old d.now.most s q × Indexes d.now.sample.k (text_of d.now.sample.text) vertices.old index.old d.now.most s.vertices }
    ensures { Got d.now.sample.k (text_of d.now.sample.text) vertices.old vertices.new d.now.most s q result × Keeps d.now.sample.k (text_of d.now.sample.text) vertices.new index.new d.now.most result }
{
    let text = d.sample.text;
    let k = d.sample.k as usize;
    let n = s.vertices;
    let h = kmer_bucket(text, k, q, index.len() / 2);
    if let Some(here) = find_in_bucket(text, vertices, index, n, k, q, h) {
        return Ok(At { here, ..s });
    }
    if n >= d.most.vertices {
        return Err(Refusal::GraphSize);
    }
    create_vertex(vertices, n, q);
    enter_kmer(index, n, h);
    Ok(At {
        vertices: n + 1,
        here: n,
        ..s
    })
}

// One step: from the vertex reached to the kmer at place q of the text, whose left neighbour has the origin.
// The mark is 1 for the reference, 0 for a read.
pub fn extend_chain_by_one(
    d: &Ground,
    vertices: &mut [u32],
    edges: &mut [u32],
    index: &mut [u32],
    s: At,
    q: usize,
    mark: u32,
    origin: Origin,
) -> Result<At, Refusal>
    requires { Extends d.now.sample.k (text_of d.now.sample.text) vertices.old edges.old d.now.most s q × Indexes d.now.sample.k (text_of d.now.sample.text) vertices.old index.old d.now.most s.vertices }
    ensures { Stepped d.now.sample.k (text_of d.now.sample.text) vertices.new edges.new d.now.most (s.steps + 1) result (step (not (eqb mark 0)) (origin_of origin) (part d.now.sample.k (text_of d.now.sample.text) q) (threading_of d.now.sample.k (text_of d.now.sample.text) vertices.old edges.old s)) × Keeps d.now.sample.k (text_of d.now.sample.text) vertices.new index.new d.now.most result }
{
    let k = d.sample.k as usize;
    let b = usize::from(d.sample.text.byte_at(q + k - 1));
    // The code of a base, as the head of `assembly` tells it: one expression, for which a function of its own is no plainer.
    let c = b / 2 % 8;
    if let Some(i) = out_edge(vertices, s.here, c) {
        let here = edge_to(edges, i);
        inc_edge(edges, i, mark);
        return Ok(At {
            here,
            steps: s.steps + 1,
            ..s
        });
    }
    let m = s.edges;
    if m >= d.most.edges {
        return Err(Refusal::GraphSize);
    }
    let r = get_or_create_kmer_vertex(d, vertices, index, s, q);
    let Ok(t) = r else {
        return r;
    };
    add_edge(vertices, edges, s.here, c, t.here, m, mark, origin);
    Ok(At {
        edges: m + 1,
        steps: s.steps + 1,
        ..t
    })
}
