// The nodes of the junction trees of a run, in one lent table. (Rust: ThreadingNode)
//
// `nodes` has five numbers a slot: the two ends of a node's edge, its count, its first child, its next sibling; a link is a slot, 0 for none. Slots 1 to n
// are the nodes in order of birth, at most `cap` of them, so the table has a row more than that. Slot 0 is no node: its children are the roots, each
// with its vertex as both ends, so that they stand in vertex order. Siblings rise by their edges. The slot of a vertex's root is kept by the caller, with
// the vertex.
// The number n stands beside the table, which is lent as long as its maximum allows, since nodes are added to it.
// Each function asks for the rows that it reads or writes: the tables are lent slices of numbers, so no type of this project holds that they are there.
#![tactic(auto)]

ghost use Rattle.std.specs.Prelude.{◌≡◌, ◌+◌, ◌^◌, ◌<◌};
ghost use Rattle.std.specs.Iterator.{at_most};
ghost use Rattle.definition.specs.Threading.{compare_ends};
ghost use Rattle.threading_node.specs.Ends.{ends, ends_of, ordering_of, is_before};
ghost use Rattle.threading_node.specs.Links.{slot_at, link_to, Linked};
ghost use Rattle.threading_node.specs.Slots.{cols, Slot, raised, placed, linked};
ghost use Rattle.threading_node.specs.Cells.{Rowed, Sought, above-all, left};
ghost use Rattle.threading_node.specs.Turns.{Begun, Steps};
ghost use Rattle.threading_node.specs.Take.{Ready, Taken};
ghost use Rattle.threading_node.specs.Open.{Openable, OpenedAt};

use refusals::Refusal;
use std::cmp::Ordering;
use tables::NODE;

// Where the fields of a node stand: the ends of its edge, its count, its first child, its next sibling.
const FROM: usize = 0;

const TO: usize = 1;

const COUNT: usize = 2;

const CHILD: usize = 3;

const SIBLING: usize = 4;

// An edge by its two ends. Edges are ordered by the vertex that they leave, then by their target, as siblings stand.
#[derive(Clone, Copy, PartialEq, Eq, PartialOrd, Ord)]
pub struct Edge {
    pub from: u32,
    pub to: u32,
}

// Where an edge is to stand in a row of siblings: after which slot, none where it is to be the first, and before which, none where it is to be the last.
#[derive(Clone, Copy)]
pub struct Gap {
    pub after: Option<usize>,
    pub before: Option<usize>,
}

// ---- links

// The slot that a link leads to.
pub fn slot_at(link: u32) -> Option<usize>
    ensures { result ≡ slot_at link }
{
    if link == 0 {
        return None;
    }
    Some(link as usize)
}

// The link that leads to a slot.
pub fn link_to(slot: Option<usize>) -> u32
    requires { link_to slot < 2 ^ 32 }
    ensures { result ≡ link_to slot }
{
    match slot {
        Some(s) => s as u32,
        None => 0,
    }
}

// ---- the fields of a node; the two ends of its edge are read here and written by put_node, and nowhere else

pub fn edge_of(nodes: &[u32], s: usize) -> Edge
    requires { Slot s nodes.now }
    ensures { ends_of result ≡ ends ((cols nodes.now).from s) ((cols nodes.now).to s) }
{
    Edge {
        from: nodes[s * NODE + FROM],
        to: nodes[s * NODE + TO],
    }
}

pub fn evidence_count(nodes: &[u32], s: usize) -> u32
    requires { Slot s nodes.now }
    ensures { result ≡ (cols nodes.now).count s }
{
    nodes[s * NODE + COUNT]
}

pub fn first_child(nodes: &[u32], s: usize) -> Option<usize>
    requires { Slot s nodes.now }
    ensures { result ≡ slot_at ((cols nodes.now).kid s) }
{
    slot_at(nodes[s * NODE + CHILD])
}

pub fn next_sibling(nodes: &[u32], s: usize) -> Option<usize>
    requires { Slot s nodes.now }
    ensures { result ≡ slot_at ((cols nodes.now).next s) }
{
    slot_at(nodes[s * NODE + SIBLING])
}

// The count of slot s rises by m.
fn increment_count(nodes: &mut [u32], s: usize, m: u32)
    requires { Slot s nodes.old × ((cols nodes.old).count s + m < 2 ^ 32) }
    ensures { nodes.new ≡ raised nodes.old s m }
{
    nodes[s * NODE + COUNT] += m;
}

// A node without children in slot k. Ends are below 2 ^ 16, so that they can be packed.
fn put_node(nodes: &mut [u32], k: usize, edge: Edge, m: u32, next: Option<usize>)
    requires { Slot k nodes.old × (edge.from < 2 ^ 16) × (edge.to < 2 ^ 16) × (link_to next < 2 ^ 32) }
    ensures { nodes.new ≡ placed nodes.old k edge.from edge.to m (link_to next) }
{
    nodes[k * NODE + FROM] = edge.from;
    nodes[k * NODE + TO] = edge.to;
    nodes[k * NODE + COUNT] = m;
    nodes[k * NODE + CHILD] = 0;
    nodes[k * NODE + SIBLING] = link_to(next);
}

// The new child k of slot s stands after the slot `after`, or is the first where that is none.
fn link_node(nodes: &mut [u32], s: usize, after: Option<usize>, k: usize)
    requires { Slot s nodes.old × Slot (link_to after) nodes.old × Linked after × (k < 2 ^ 32) }
    ensures { nodes.new ≡ linked nodes.old s (link_to after) k }
{
    match after {
        Some(u) => nodes[u * NODE + SIBLING] = k as u32,
        None => nodes[s * NODE + CHILD] = k as u32,
    }
}

// ---- the children of a node

// The siblings of a row that are left, by slot: those from `at` on.
#[derive(Clone, Drop)]
pub struct Siblings<'a> {
    pub nodes: &'a [u32],
    pub at: Option<usize>,
}

// The row of siblings that begins at `start`.
pub fn siblings_from<'a>(nodes: &'a [u32], start: Option<usize>) -> Siblings<'a>
    ensures { Begun nodes.entry.now start result }
{
    Siblings { nodes, at: start }
}

impl<'a> Iterator for Siblings<'a> {
    type Item = usize;

    ghost can_next = { λ s. Rowed s.nodes.now s.at };

    ghost next_gives = { Steps };

    ghost remaining = { λ s. at_most (left (above-all s.nodes.now) s.nodes.now (link_to s.at)) };

    fn next(&mut self) -> Option<usize> {
        let s = self.at?;
        self.at = next_sibling(self.nodes, s);
        Some(s)
    }
}

// The order of two edges: by the vertex that they leave, then by their target.
pub fn order(a: Edge, b: Edge) -> Ordering
    ensures { result ≡ ordering_of (compare_ends (ends_of a) (ends_of b)) }
{
    a.cmp(&b)
}

// The edge a comes before b among siblings. (By hand: a derived order was tried, and slower, since it compares both ends and takes no jump.)
fn precedes(a: Edge, b: Edge) -> bool
    ensures { result ≡ is_before (ends_of a) (ends_of b) }
{
    a.from < b.from || a.from == b.from && a.to < b.to
}

// The slot of the edge in the row of siblings that begins at `start`, or the gap where it is to stand.
pub fn find_child(nodes: &[u32], start: Option<usize>, edge: Edge) -> Result<usize, Gap>
    requires { Rowed nodes.now start }
    ensures { Sought nodes.now start (ends_of edge) result }
{
    let mut after = None;
    for s in siblings_from(nodes, start) {
        let sibling = edge_of(nodes, s);
        if precedes(sibling, edge) {
            after = Some(s);
        } else if sibling == edge {
            return Ok(s);
        } else {
            return Err(Gap {
                after,
                before: Some(s),
            });
        }
    }
    Err(Gap {
        after,
        before: None,
    })
}

// How many nodes there are, and the slot where an open tree stands.
#[derive(Clone, Copy)]
pub struct Reached {
    pub nodes: usize,
    pub at: usize,
}

// The node in slot `s` takes the edge with the multiplicity m: it gains m, and so does its child for that edge, which is made where it is not there. The
// answer is the child's slot; where the table has no room for it nothing has changed.
// (`n` and `cap` stand one by one: the answer tells n anew and cap stays, so a struct of both would be made again at each call.)
pub fn add_edge(
    nodes: &mut [u32],
    n: usize,
    cap: usize,
    s: usize,
    edge: Edge,
    m: u32,
) -> Result<Reached, Refusal>
    requires { Ready cap n s m (ends_of edge) nodes.old }
    ensures { Taken cap n s m (ends_of edge) nodes.old nodes.new result }
{
    match find_child(nodes, first_child(nodes, s), edge) {
        Ok(j) => {
            increment_count(nodes, s, m);
            increment_count(nodes, j, m);
            Ok(Reached { nodes: n, at: j })
        }
        Err(gap) => {
            let k = n + 1;
            if k > cap {
                return Err(Refusal::TreeNodes);
            }
            put_node(nodes, k, edge, m, gap.before);
            increment_count(nodes, s, m);
            link_node(nodes, s, gap.after, k);
            Ok(Reached { nodes: k, at: k })
        }
    }
}

// The tree of the vertex v is opened: its root, in the slot `root` or made where that is none, gains 1. The answer is the root's slot.
pub fn get_and_increment_root(
    nodes: &mut [u32],
    n: usize,
    cap: usize,
    v: u32,
    root: Option<usize>,
) -> Result<Reached, Refusal>
    requires { Openable cap n v root nodes.old }
    ensures { OpenedAt cap n v root nodes.old nodes.new result }
{
    if let Some(r) = root {
        increment_count(nodes, r, 1);
        return Ok(Reached { nodes: n, at: r });
    }
    add_edge(nodes, n, cap, 0, Edge { from: v, to: v }, 1)
}
