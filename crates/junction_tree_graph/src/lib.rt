// The graph of a sample: the reference is threaded first, then the reads; the symbolic vertex and edge come last.
// The tables are lent one by one: a struct of `&mut` slices would need in each contract a clause on which slice it lends.
#![tactic(auto)]

ghost use Rattle.std.specs.Prelude.{◌+◌, ◌*◌, length};
ghost use Rattle.definition.specs.Threading.{threaded};
ghost use Rattle.samples.specs.Handed.{text_of, sample_of};
ghost use Rattle.kmer_threading.specs.Indexes.{Keeps, Fresh};
ghost use Rattle.sequence_threading.specs.Stretches.{Threaded};
ghost use Rattle.junction_tree_graph.specs.Built.{Begins, Builds};
ghost use Rattle.junction_tree_graph.specs.Answers.{BuiltOf, FoundOf};

use assembly::{Origin, add_symbolic_edge};
use graph_kmers::find_kmer;
use kmer_threading::{At, Ground, Most};
use read_threading::thread_reads;
use refusals::Refusal;
use samples::Sample;
use sequence_threading::thread_sequence;

// A graph in the tables: how many kmers and threaded edges it has. The symbolic vertex has the next number, and the symbolic edge is the next row.
#[derive(Clone, Copy)]
pub struct Built {
    pub vertices: usize,
    pub edges: usize,
    pub sink: usize,
}

// The reference first, then the reads in order.
fn build(
    d: &Ground,
    vertices: &mut [u32],
    edges: &mut [u32],
    index: &mut [u32],
) -> Result<At, Refusal>
    requires { Begins (sample_of d.now.sample) vertices.old edges.old d.now.most × Fresh (d.now.most.vertices + 1) index.old }
    ensures { Threaded d.now.sample.k (text_of d.now.sample.text) vertices.new edges.new d.now.most (2 * length (text_of d.now.sample.text)) result (threaded (sample_of d.now.sample)) × Keeps d.now.sample.k (text_of d.now.sample.text) vertices.new index.new d.now.most result }
{
    let s0 = At {
        vertices: 0,
        edges: 0,
        here: 0,
        steps: 0,
    };
    // The mark: 1 for the reference, 0 for a read.
    let r = thread_sequence(
        d,
        vertices,
        edges,
        index,
        s0,
        0,
        d.sample.text.reference.len(),
        1,
        Origin {
            sequence: 0,
            place: 0,
        },
    );
    let Ok(s) = r else {
        return r;
    };
    thread_reads(d, vertices, edges, index, s)
}

// The graph of a sample, with the symbolic edge, in tables of exactly the lengths told; `GraphSize` is refused just where it does not fit the maxima.
pub fn build_graph(
    sample: Sample,
    vertices: &mut [u32],
    edges: &mut [u32],
    index: &mut [u32],
    maxima: Most,
) -> Result<Built, Refusal>
    requires { Builds (sample_of sample) maxima.vertices maxima.edges vertices.old edges.old × Fresh maxima.vertices index.old }
    ensures { BuiltOf (sample_of sample.entry) maxima.vertices maxima.edges vertices.new edges.new result × FoundOf sample.entry.k (text_of sample.entry.text) vertices.new index.new result }
{
    let most = Most {
        vertices: maxima.vertices - 1,
        edges: maxima.edges - 1,
    };
    let r = build(&Ground { sample, most }, vertices, edges, index);
    let Ok(s) = r else {
        return Err(r.unwrap_err());
    };
    let k = sample.k as usize;
    let n = s.vertices;
    let place = sample.text.reference.len() - k;
    let sink = find_kmer(sample.text, vertices, index, n, k, place).unwrap();
    add_symbolic_edge(edges, s.edges, sink, n, place);
    Ok(Built {
        vertices: n,
        edges: s.edges,
        sink,
    })
}
