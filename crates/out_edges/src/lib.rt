// The edges that leave a vertex, by the slots of the table of vertices, in rising target.
// Each function asks for the rows that it reads or writes: the tables are lent slices of numbers, so no type of this project holds that they are there.
#![tactic(auto)]

ghost use Rattle.std.specs.Prelude.{ℕ, ◌+◌, ◌-◌, ◌^◌, ◌<◌, ◌≤◌, ◌≡◌, IfSome};
ghost use Rattle.std.specs.Iterator.{at_most};
ghost use Rattle.assembly.specs.Fields.{HasEdge, edge_to};
ghost use Rattle.out_edges.specs.Outs.{Slots, Nexts};
ghost use Rattle.out_edges.specs.Walked.{Named, Begun, Steps};

use assembly::TO;
use tables::{EDGE, VERTEX};

// The graph's tables of vertices and edges, and how many edges there are.
#[derive(Clone, Copy)]
pub struct Graph<'v, 'e> {
    pub vertices: &'v [u32],
    pub edges: &'e [u32],
    pub count: usize,
}

impl<'v, 'e> Graph<'v, 'e> {
    // The out-edges of v.
    pub fn out_edges(self, v: usize) -> OutEdges<'v, 'e>
        requires { Named self.vertices.now self.edges.now v }
        ensures { Begun self.entry v result }
    {
        OutEdges {
            graph: self,
            vertex: v,
            from: 0,
        }
    }
}

// The out-edge of v of least target from t on. The target of the best is kept beside it, so that no edge is read twice. (Of the slices, and of a slot as the
// number that it holds: a method of `Graph` over the `Option` of `assembly::out_edge` was tried, and took twice the instructions.)
pub fn next_out(vertices: &[u32], edges: &[u32], v: usize, t: usize) -> Option<usize>
    requires { Named vertices.now edges.now v }
    ensures least { (m : ℕ) → Slots vertices.now edges.now m v → Nexts edges.now m v t result }
    ensures there { IfSome result (λ i. HasEdge edges.now i × (t ≤ edge_to edges.now i)) }
{
    let mut best = None;
    let mut least = usize::MAX;
    for c in 0..8 {
        let slot = vertices[v * VERTEX + c] as usize;
        if slot > 0 {
            let to = edges[(slot - 1) * EDGE + TO] as usize;
            if t <= to && to < least {
                best = Some(slot - 1);
                least = to;
            }
        }
    }
    best
}

// The out-edges of a vertex that are left, by number: those of a target from `from` on.
#[derive(Clone, Drop)]
pub struct OutEdges<'v, 'e> {
    pub graph: Graph<'v, 'e>,
    pub vertex: usize,
    pub from: usize,
}

impl<'v, 'e> Iterator for OutEdges<'v, 'e> {
    type Item = usize;

    ghost can_next = { λ s. Named s.graph.vertices.now s.graph.edges.now s.vertex };

    ghost next_gives = { Steps };

    ghost remaining = { λ s. at_most (2 ^ 32 - s.from) };

    fn next(&mut self) -> Option<usize> {
        let i = next_out(
            self.graph.vertices,
            self.graph.edges,
            self.vertex,
            self.from,
        )?;
        self.from = self.graph.edges[i * EDGE + TO] as usize + 1;
        Some(i)
    }
}
