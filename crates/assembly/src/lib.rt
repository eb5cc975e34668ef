// The graph in two lent tables of numbers, zero where not used yet; a kmer is its place in the text, the reference with the read bases after it.
// vertices, 12 numbers each: 0 to 7 the out-edges, by the code b / 2 % 8 of the base b that the target ends in (A 0, C 1, T 2, G 3, N 7), each an
// edge's number plus 1, or 0; 8 the kmer's place; 9 how many edges enter; 10 one of those, plus 1; 11 for the slot of its tree's root, written by the
// evidence walk. Slot 4, which no base has, is for the symbolic edge.
// edges, in the order of birth, 6 numbers each: from, to, support, mark, the origin's sequence and place.
// How many rows are used stands beside a table: it is lent as long as its maximum allows, and rows are added to it.
// Each function asks for the rows that it reads or writes: the tables are lent slices of numbers, so no type of this project holds that they are there.
#![tactic(auto)]

ghost use Rattle.std.specs.Prelude.{◌≡◌, ◌+◌, ◌^◌, ◌<◌, eqb, not};
ghost use Rattle.assembly.specs.Fields.{HasVertex, slot_of, out_edge, kmer_place, incoming_count, incoming_edge, HasEdge, edge_from, edge_to, edge_support};
ghost use Rattle.assembly.specs.Store.{edge_at};
ghost use Rattle.assembly.specs.Kmers.{born};
ghost use Rattle.assembly.specs.Moves.{gained, added_e, added_v, edge_of, new_edge, origin_of};
ghost use Rattle.assembly.specs.Symbolic.{symbolic, linked};

use tables::{EDGE, VERTEX};

// Where the fields of a vertex stand; the evidence walk writes the slot of its tree's root.
pub const ROOT: usize = 11;

const SYMBOLIC: usize = 4;

const AT: usize = 8;

const INS: usize = 9;

const INTO: usize = 10;

// Where the fields of an edge stand: its ends, its support and its mark, which is a number, since the table is lent as one flat slice of numbers.
pub const FROM: usize = 0;

pub const TO: usize = 1;

pub const SUPPORT: usize = 2;

pub const MARK: usize = 3;

// Where an edge's origin stands.
pub const SEQUENCE: usize = 4;

pub const PLACE: usize = 5;

// What made an edge first: its sequence, 0 for the reference, and the place of the edge's left kmer in it. (A sequence is one number for both, as document
// 01 has it: the rows of the edges and the call for an origin's bytes tell it so.)
#[derive(Clone, Copy)]
pub struct Origin {
    pub sequence: u32,
    pub place: u32,
}

// ---- reading a vertex, a function for each field: one for all would be told by number which field to read

// The number of the out-edge of v whose target's last base has the code c.
pub fn out_edge(vertices: &[u32], v: usize, c: usize) -> Option<usize>
    requires { (HasVertex vertices.now v) × (c < 8) }
    ensures { slot_of result ≡ out_edge vertices.now v c }
{
    (vertices[v * VERTEX + c] as usize).checked_sub(1)
}

// The place of v's kmer in the text.
pub fn kmer_place(vertices: &[u32], v: usize) -> usize
    requires { HasVertex vertices.now v }
    ensures { result ≡ kmer_place vertices.now v }
{
    vertices[v * VERTEX + AT] as usize
}

// How many edges enter v.
pub fn incoming_count(vertices: &[u32], v: usize) -> usize
    requires { HasVertex vertices.now v }
    ensures { result ≡ incoming_count vertices.now v }
{
    vertices[v * VERTEX + INS] as usize
}

// The number of an edge that enters v.
pub fn incoming_edge(vertices: &[u32], v: usize) -> Option<usize>
    requires { HasVertex vertices.now v }
    ensures { slot_of result ≡ incoming_edge vertices.now v }
{
    (vertices[v * VERTEX + INTO] as usize).checked_sub(1)
}

// ---- reading an edge

pub fn edge_from(edges: &[u32], i: usize) -> usize
    requires { HasEdge edges.now i }
    ensures { result ≡ edge_from edges.now i }
{
    edges[i * EDGE + FROM] as usize
}

pub fn edge_to(edges: &[u32], i: usize) -> usize
    requires { HasEdge edges.now i }
    ensures { result ≡ edge_to edges.now i }
{
    edges[i * EDGE + TO] as usize
}

pub fn edge_support(edges: &[u32], i: usize) -> usize
    requires { HasEdge edges.now i }
    ensures { result ≡ edge_support edges.now i }
{
    edges[i * EDGE + SUPPORT] as usize
}

pub fn edge_is_ref(edges: &[u32], i: usize) -> bool
    requires { HasEdge edges.now i }
    ensures { result ≡ (edge_at edges.now i).is_ref }
{
    edges[i * EDGE + MARK] != 0
}

// ---- writing

// Vertex n, with the kmer at place q of the text.
pub fn create_vertex(vertices: &mut [u32], n: usize, q: usize)
    requires { (HasVertex vertices.old n) × (q < 2 ^ 32) }
    ensures { vertices.new ≡ born vertices.old n q }
{
    vertices[n * VERTEX + AT] = q as u32;
}

// One more support for edge i, and the mark where there is one: 1 for the reference, 0 for a read, and any other number is kept as it is given.
pub fn inc_edge(edges: &mut [u32], i: usize, mark: u32)
    requires { (HasEdge edges.old i) × (edge_support edges.old i + 1 < 2 ^ 32) }
    ensures { edges.new ≡ gained edges.old i mark }
{
    edges[i * EDGE + SUPPORT] += 1;
    if mark != 0 {
        edges[i * EDGE + MARK] = mark;
    }
}

// Row m, with all that an edge has.
fn write_edge(
    edges: &mut [u32],
    m: usize,
    from: usize,
    to: usize,
    support: u32,
    mark: u32,
    origin: Origin,
)
    requires { (HasEdge edges.old m) × (from < 2 ^ 32) × (to < 2 ^ 32) }
    ensures { edges.new ≡ added_e edges.old m (edge_of from to support (not (eqb mark 0)) (origin_of origin)) mark }
{
    edges[m * EDGE + FROM] = from as u32;
    edges[m * EDGE + TO] = to as u32;
    edges[m * EDGE + SUPPORT] = support;
    edges[m * EDGE + MARK] = mark;
    edges[m * EDGE + SEQUENCE] = origin.sequence;
    edges[m * EDGE + PLACE] = origin.place;
}

// Edge m, from a vertex whose slot c is empty, with support 1 and the mark as it is given: 1 for the reference, 0 for a read.
pub fn add_edge(
    vertices: &mut [u32],
    edges: &mut [u32],
    from: usize,
    c: usize,
    to: usize,
    m: usize,
    mark: u32,
    origin: Origin,
)
    requires { (HasVertex vertices.old from) × (HasVertex vertices.old to) × (HasEdge edges.old m) × (c < 8) × (from < 8192) × (to < 8192) × (m < 8192) × (incoming_count vertices.old to + 1 < 2 ^ 32) }
    ensures { (vertices.new ≡ added_v vertices.old from c to m) × (edges.new ≡ added_e edges.old m (new_edge mark (origin_of origin) from to) mark) }
{
    write_edge(edges, m, from, to, 1, mark, origin);
    let ins = vertices[to * VERTEX + INS];
    let number = (m + 1) as u32;
    vertices[from * VERTEX + c] = number;
    vertices[to * VERTEX + INS] = ins + 1;
    vertices[to * VERTEX + INTO] = number;
}

// Row m becomes the symbolic edge, from the sink to vertex n: of support 0 and mark 1, with the place of the reference's last kmer as its origin.
pub fn add_symbolic_edge(edges: &mut [u32], m: usize, sink: usize, n: usize, place: usize)
    requires { (HasEdge edges.old m) × (sink < 2 ^ 32) × (n < 2 ^ 32) × (place < 2 ^ 32) }
    ensures { edges.new ≡ added_e edges.old m (symbolic sink n place) 1 }
{
    let origin = Origin {
        sequence: 0,
        place: place as u32,
    };
    write_edge(edges, m, sink, n, 0, 1, origin);
}

// The sink's slot 4, which no base has, names the symbolic edge: from here on it is among the out-edges.
pub fn link_symbolic_edge(vertices: &mut [u32], sink: usize, m: usize)
    requires { (HasVertex vertices.old sink) × (m < 8192) }
    ensures { vertices.new ≡ linked vertices.old sink m }
{
    vertices[sink * VERTEX + SYMBOLIC] = (m + 1) as u32;
}
