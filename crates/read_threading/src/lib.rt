// Threading of the reads in order: of each its usable runs, one after the other, where they are long enough.
// The tables are lent one by one: a struct of `&mut` slices would need in each contract a clause on which slice it lends.
// Each function asks for the rows that it reads or writes: the tables are lent slices of numbers, so no type of this project holds that they are there.
#![tactic(auto)]

ghost use Rattle.std.specs.Prelude.{◌+◌, ◌*◌, length};
ghost use Rattle.definition.specs.Threading.{thread_all};
ghost use Rattle.samples.specs.Handed.{text_of, sample_of};
ghost use Rattle.assembly.specs.Store.{graph_of};
ghost use Rattle.kmer_threading.specs.Indexes.{Indexes, Keeps};
ghost use Rattle.sequence_threading.specs.Stretches.{Threaded, stretch_at};
ghost use Rattle.read_threading.specs.ThreadRuns.{thread_run};
ghost use Rattle.read_threading.specs.Reads.{RunThreads, ReadOf, ReadsOf, read_in, reads_in};

use assembly::Origin;
use kmer_threading::{At, Ground};
use refusals::Refusal;
use sequence_threading::thread_sequence;
use usable_stretches::usable_runs;

// A usable run of `len` bytes at place a of the text: only runs of at least k bytes are threaded.
fn thread_run(
    d: &Ground,
    vertices: &mut [u32],
    edges: &mut [u32],
    index: &mut [u32],
    s: At,
    a: usize,
    len: usize,
    origin: Origin,
) -> Result<At, Refusal>
    requires { RunThreads d.now.sample.k (text_of d.now.sample.text) vertices.old edges.old d.now.most s a len origin.place × Indexes d.now.sample.k (text_of d.now.sample.text) vertices.old index.old d.now.most s.vertices }
    ensures { Threaded d.now.sample.k (text_of d.now.sample.text) vertices.new edges.new d.now.most (s.steps + 2 * len) result (thread_run d.now.sample.k (stretch_at (text_of d.now.sample.text) a len origin.sequence origin.place) (graph_of d.now.sample.k (text_of d.now.sample.text) vertices.old s.vertices edges.old s.edges)) × Keeps d.now.sample.k (text_of d.now.sample.text) vertices.new index.new d.now.most result }
{
    let k = d.sample.k as usize;
    if len < k {
        return Ok(s);
    }
    // The mark: 1 for the reference, 0 for a read.
    thread_sequence(d, vertices, edges, index, s, a, len, 0, origin)
}

// The read that lies from `start` to `end` of the bases: one usable run after the other.
fn thread_read(
    d: &Ground,
    vertices: &mut [u32],
    edges: &mut [u32],
    index: &mut [u32],
    s0: At,
    start: usize,
    end: usize,
    sequence: u32,
) -> Result<At, Refusal>
    requires { ReadOf (sample_of d.now.sample) vertices.old edges.old d.now.most s0 start end × Indexes d.now.sample.k (text_of d.now.sample.text) vertices.old index.old d.now.most s0.vertices }
    ensures { Threaded d.now.sample.k (text_of d.now.sample.text) vertices.new edges.new d.now.most (2 * (length d.now.sample.text.reference.now + end)) result (thread_all d.now.sample.k (read_in (sample_of d.now.sample) sequence start end) (graph_of d.now.sample.k (text_of d.now.sample.text) vertices.old s0.vertices edges.old s0.edges)) × Keeps d.now.sample.k (text_of d.now.sample.text) vertices.new index.new d.now.most result }
{
    let n = d.sample.text.reference.len();
    let mut s = s0;
    for run in usable_runs(d.sample, start, end) {
        let origin = Origin {
            sequence,
            place: (run.from - start) as u32,
        };
        let len = run.to - run.from;
        let r = thread_run(d, vertices, edges, index, s, n + run.from, len, origin);
        let Ok(t) = r else {
            return r;
        };
        s = t;
    }
    Ok(s)
}

// All reads in order, numbered from 1.
pub fn thread_reads(
    d: &Ground,
    vertices: &mut [u32],
    edges: &mut [u32],
    index: &mut [u32],
    s0: At,
) -> Result<At, Refusal>
    requires { ReadsOf (sample_of d.now.sample) vertices.old edges.old d.now.most s0 × Indexes d.now.sample.k (text_of d.now.sample.text) vertices.old index.old d.now.most s0.vertices }
    ensures { Threaded d.now.sample.k (text_of d.now.sample.text) vertices.new edges.new d.now.most (2 * length (text_of d.now.sample.text)) result (thread_all d.now.sample.k (reads_in (sample_of d.now.sample)) (graph_of d.now.sample.k (text_of d.now.sample.text) vertices.old s0.vertices edges.old s0.edges)) × Keeps d.now.sample.k (text_of d.now.sample.text) vertices.new index.new d.now.most result }
{
    let mut s = s0;
    let mut start: usize = 0;
    for (j, e) in d.sample.ends.iter().enumerate() {
        let end = *e as usize;
        let sequence = (j + 1) as u32;
        let r = thread_read(d, vertices, edges, index, s, start, end, sequence);
        let Ok(t) = r else {
            return r;
        };
        s = t;
        start = end;
    }
    Ok(s)
}
