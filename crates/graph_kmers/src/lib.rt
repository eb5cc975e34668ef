// The kmers of the graph as bytes of the text, the reference with the read bases after it: how one is found, and the bases of a path.
// index, by which a kmer is found: its first half holds for each bucket the last vertex of it, its second half for each vertex the last before it of
// its bucket; each a vertex's number plus 1, or 0.
// Each function asks for the rows and the bytes that it reads: the tables and the text are lent slices, so no type of this project holds that they are there.
// `text` and `k` stand one by one: a caller has k in a struct of its own, beside other things, so that a struct of the two would be made at each call.
#![tactic(auto)]

ghost use Rattle.std.specs.Prelude.{◌≡◌, ◌+◌, ◌^◌, ◌<◌, ◌≤◌, length, get_or};
ghost use Rattle.std.proofs.Math.Seq.{paste};
ghost use Rattle.laws.specs.Numbers.{eq_list};
ghost use Rattle.definition.specs.Threading.{number_of};
ghost use Rattle.samples.specs.Handed.{text_of};
ghost use Rattle.assembly.specs.Store.{kmers_of};
ghost use Rattle.assembly.specs.Kmers.{part};
ghost use Rattle.graph_kmers.specs.Index.{bucket_of, size_of, Finds, Found, entered};
ghost use Rattle.graph_kmers.specs.Paths.{bases_of, Spells};

use assembly::{edge_to, kmer_place};
use samples::Text;

// Whether the k bytes at p are those at q.
// (Byte by byte: the text is two slices, and the contract does not keep a kmer to one of them. With `all` in place of the `for` it was not proved that the
// answer is the equality of the two parts.)
fn same_kmer(text: Text, k: usize, p: usize, q: usize) -> bool
    requires { (p + k ≤ length (text_of text)) × (q + k ≤ length (text_of text)) }
    ensures { result ≡ eq_list (part k (text_of text.entry) p) (part k (text_of text.entry) q) }
{
    for j in 0..k {
        if text.byte_at(p + j) != text.byte_at(q + j) {
            return false;
        }
    }
    true
}

// The bucket, of `size`, of the kmer at q.
pub fn kmer_bucket(text: Text, k: usize, q: usize, size: usize) -> usize
    requires { (q + k ≤ length (text_of text)) × (0 < size) }
    ensures { result ≡ bucket_of k size (part k (text_of text.entry) q) }
{
    let mut h: usize = 0;
    for j in 0..k {
        let b = usize::from(text.byte_at(q + j));
        h = (h * 31 + b) % 4294967296;
    }
    h % size
}

// The number of the kmer at q, of bucket h: only vertices of that bucket are compared, the last first.
// (A `while let`: it steps by the links of the bucket and counts no index. `n`, how many vertices there are, stands in the contract alone. As a ghost
// parameter it was tried, and the proof did not close: a call may make it of its other arguments only, and they do not tell it.)
// (`h` stands beside k and q, so that the bucket, a pass over k bases, is worked out once for the search and for a kmer that is added.)
pub fn find_in_bucket(
    text: Text,
    vertices: &[u32],
    index: &[u32],
    n: usize,
    k: usize,
    q: usize,
    h: usize,
) -> Option<usize>
    requires { Finds k (text_of text) vertices.now index.now n q × (h ≡ bucket_of k (size_of index.now) (part k (text_of text) q)) }
    ensures { Found n (number_of (kmers_of k (text_of text.entry) vertices.now n) (part k (text_of text.entry) q)) result }
{
    let size = index.len() / 2;
    let mut next = (index[h] as usize).checked_sub(1);
    while let Some(v) = next {
        let p = kmer_place(vertices, v);
        if same_kmer(text, k, p, q) {
            return Some(v);
        }
        next = (index[size + v] as usize).checked_sub(1);
    }
    None
}

// The number of the kmer at q.
pub fn find_kmer(
    text: Text,
    vertices: &[u32],
    index: &[u32],
    n: usize,
    k: usize,
    q: usize,
) -> Option<usize>
    requires { Finds k (text_of text) vertices.now index.now n q }
    ensures { Found n (number_of (kmers_of k (text_of text.entry) vertices.now n) (part k (text_of text.entry) q)) result }
{
    let h = kmer_bucket(text, k, q, index.len() / 2);
    find_in_bucket(text, vertices, index, n, k, q, h)
}

// Vertex n enters the bucket h: it is its head, and the head so far comes next.
pub fn enter_kmer(index: &mut [u32], n: usize, h: usize)
    requires { (n < size_of index.old) × (h < size_of index.old) × (n + 1 < 2 ^ 32) }
    ensures { index.new ≡ entered index.old n h }
{
    let size = index.len() / 2;
    index[size + n] = index[h];
    index[h] = (n + 1) as u32;
}

// Byte i of the path that leaves vertex 0 over the edges that `path` names.
fn path_base(text: Text, vertices: &[u32], edges: &[u32], k: usize, path: &[u32], i: usize) -> u8
    requires { Spells k (text_of text) vertices.now edges.now path.now (length path.now) × (i < k + length path.now) }
    ensures { result ≡ get_or (bases_of k (text_of text.entry) vertices.now edges.now path.now) i 0 }
{
    if i < k {
        return text.byte_at(kmer_place(vertices, 0) + i);
    }
    let j = path[i - k] as usize;
    let v = edge_to(edges, j);
    text.byte_at(kmer_place(vertices, v) + k - 1)
}

// The bases of a path, k and one for each edge, written from place `at` of `out` on.
// (`at` stands beside `out`, since what is written is told of the whole slice, as in the definition; a part of it would have to be put back by a law.)
pub fn path_bases(
    text: Text,
    vertices: &[u32],
    edges: &[u32],
    k: usize,
    path: &[u32],
    out: &mut [u8],
    at: usize,
)
    requires { Spells k (text_of text) vertices.now edges.now path.now (length path.now) × (at + (k + length path.now) ≤ length out.old) }
    ensures { out.new ≡ paste out.old at (bases_of k (text_of text.entry) vertices.now edges.now path.now) (k + length path.now) }
{
    for i in 0..k + path.len() {
        out[at + i] = path_base(text, vertices, edges, k, path, i);
    }
}
