// How long each slice must be: the call for lengths, and the lengths that rule 7 compares with.
#![tactic(auto)]

ghost use Rattle.std.specs.Prelude.{◌≡◌, ◌≤◌};
ghost use Rattle.definition.specs.Refusal.{first_broken};
ghost use Rattle.definition.specs.Limits.{lengths_rules};
ghost use Rattle.refusals.specs.Numbers.{number, refusal_of};
ghost use Rattle.limits.specs.Handed.{graph_maxima_of, search_maxima_of};
ghost use Rattle.slice_lengths.specs.Workspaces.{path_walks};
ghost use Rattle.slice_lengths.specs.Lengths.{workspace_told, refused_lengths, accepted_lengths, Told};
ghost use Rattle.slice_lengths.specs.Bounds.{InLimits};

use bio_ids::KmerSize;
use limits::{Maxima, settings_fit};
use refusals::Refusal;
use tables::{EDGE, EDGE_ROW, FORK, KMER, NODE, NODE_ROW, OPEN, PATH, QUEUED, VERTEX};

// How many elements each workspace slice needs: numbers of 32 bits, but for `active`, of 16, and `scores`, of f64. The call for edges and trees is lent
// the first five; the call for the list is lent all but `open`, and three slices of `columns`, the first of them f64.
#[repr(C)]
#[derive(Clone, Copy, Default)]
pub struct Workspace {
    // the graph's vertices
    pub vertices: usize,
    // the graph's edges
    pub edges: usize,
    // by which a kmer's vertex is found; then the only edge that leaves a vertex
    pub index: usize,
    // the nodes of the trees
    pub nodes: usize,
    // the open trees of a walk
    pub open: usize,
    // where each edge leads
    pub targets: usize,
    // the records of the paths
    pub paths: usize,
    // scores of the paths
    pub scores: usize,
    // active trees of the paths
    pub active: usize,
    // the waiting paths, as a heap
    pub queue: usize,
    // the closed paths
    pub closed: usize,
    // the pivotal edges in their order
    pub order: usize,
    // marks by edge, for the pivotal ones
    pub marks: usize,
    // open trees, then edges to look at, then offers of a fork, then edges of the closed paths
    pub walks: usize,
    // each of three columns that the rows are made in
    pub columns: usize,
}

// The answer of `lengths`, for C: the number of a refusal, or 0 and how many elements each slice needs; there are two slices of `origins` numbers.
#[repr(C)]
#[derive(Clone, Copy, Default)]
pub struct LengthsTold {
    pub refusal: u32,
    pub edges: usize,
    pub nodes: usize,
    pub paths: usize,
    pub bases: usize,
    pub origins: usize,
    pub workspace: Workspace,
}

// 1 and 5, of the call for lengths.
fn check_lengths(k: u32, m: Maxima) -> Result<(), Refusal>
    ensures { refusal_of result ≡ first_broken (lengths_rules k m.asked (graph_maxima_of m.graph) (search_maxima_of m.search)) }
{
    KmerSize::try_from(k)?;
    if !settings_fit(m) {
        return Err(Refusal::Maximum);
    }
    Ok(())
}

// A refused answer holds 0 in every other field.
impl From<Refusal> for LengthsTold {
    ghost from_gives = { λ refusal answer. answer ≡ refused_lengths (number refusal) };

    fn from(refusal: Refusal) -> LengthsTold {
        LengthsTold {
            refusal: u32::from(refusal),
            ..LengthsTold::default()
        }
    }
}

// ---- `InLimits` is asked by each function and no invariant of `Maxima`, since a caller may hand in maxima that are refused

// As much as the largest of the tables that share a slice needs.
fn walks_told(m: Maxima) -> usize
    requires { InLimits m.asked (graph_maxima_of m.graph) (search_maxima_of m.search) }
    ensures { result ≡ path_walks m.asked (graph_maxima_of m.graph) (search_maxima_of m.search) }
{
    let open = m.graph.nodes as usize * OPEN;
    let queued = m.graph.edges as usize * QUEUED;
    let walks = m.asked as usize * m.search.path_edges as usize;
    open.max(queued).max(FORK).max(walks)
}

// The workspace of settings within limits; a path is made by a push, by closing, or as the extension of a fork.
pub fn workspace_told(m: Maxima) -> Workspace
    requires { InLimits m.asked (graph_maxima_of m.graph) (search_maxima_of m.search) }
    ensures { result ≡ workspace_told m.asked (graph_maxima_of m.graph) (search_maxima_of m.search) }
{
    let asked = m.asked as usize;
    let g = m.graph;
    let s = m.search;
    let paths = s.pushes as usize + asked + 8;
    let walks = walks_told(m);
    Workspace {
        vertices: g.vertices as usize * VERTEX,
        edges: g.edges as usize * EDGE,
        index: g.vertices as usize * KMER,
        nodes: (g.nodes as usize + 1) * NODE,
        open: g.nodes as usize * OPEN,
        targets: g.edges as usize,
        paths: paths * PATH,
        scores: paths,
        active: paths * s.active as usize,
        queue: s.pushes as usize,
        closed: asked,
        order: g.edges as usize,
        marks: g.edges as usize,
        walks,
        columns: asked,
    }
}

// The lengths for settings within limits: what rule 7 compares with.
pub fn lengths_within(k: u32, m: Maxima) -> LengthsTold
    requires { (k ≤ 128) × InLimits m.asked (graph_maxima_of m.graph) (search_maxima_of m.search) }
    ensures { result ≡ accepted_lengths k m.asked (graph_maxima_of m.graph) (search_maxima_of m.search) }
{
    let workspace = workspace_told(m);
    let asked = m.asked as usize;
    let path_edges = m.search.path_edges as usize;
    let stride = k as usize + path_edges;
    LengthsTold {
        refusal: 0,
        edges: m.graph.edges as usize * EDGE_ROW,
        nodes: m.graph.nodes as usize * NODE_ROW,
        paths: asked,
        bases: asked * stride,
        origins: asked * path_edges,
        workspace,
    }
}

// The call for lengths: what each slice must hold for these settings, so that a caller can lend it.
pub fn lengths(k: u32, m: Maxima) -> LengthsTold
    ensures { Told k m.asked (graph_maxima_of m.graph) (search_maxima_of m.search) result }
{
    match check_lengths(k, m) {
        Ok(()) => lengths_within(k, m),
        Err(refusal) => LengthsTold::from(refusal),
    }
}
