// The junction trees of a run, and the active trees of one walk. (Rust: ThreadingTree, JunctionThreadingState)
//
// `nodes` is the table of threading_node.
// `active` has two numbers a pair: the slot where active trees of the walk stand, and how many stand there. Pairs differ in their slots, so there are
// never more than nodes. It is lent memory of fixed size (a rule of the project), so a number beside it says how many of its pairs a walk uses.
//
// Callers use the relation HeldWalk of specs/Held: the tables hold a walk of the definition.
//
// The tables are lent one by one: a struct of `&mut` slices would need in each contract a clause on which slice it lends.
// Each function asks for the rows that it reads or writes: the tables are lent slices of numbers, so no type of this project holds that they are there.
#![tactic(auto)]

ghost use Rattle.std.specs.Prelude.{◌≡◌, ◌+◌, ◌*◌, ◌^◌, ◌<◌, ◌≤◌, length, [], ◌∷◌};
ghost use Rattle.laws.specs.Records.{field, put_field, put_from};
ghost use Rattle.threading_node.specs.Ends.{ends, ends_of};
ghost use Rattle.threading_node.specs.Links.{link_to, Linked};
ghost use Rattle.threading_tree.specs.All.{Walking, TookAll};
ghost use Rattle.threading_tree.specs.Join.{Sited, joined, Joinable, JoinedTo};
ghost use Rattle.threading_tree.specs.Pass.{open_where, take_unless, Stepping, Steps, opening, taking, passing};
ghost use Rattle.threading_tree.specs.Write.{Writable, Written};
ghost use Rattle.threading_tree.specs.Read.{Readable, ChildSlot, Summed};

use refusals::Refusal;
use tables::{NODE_ROW, OPEN};
use threading_node::{
    Edge, add_edge, edge_of, evidence_count, find_child, first_child, get_and_increment_root,
    link_to, next_sibling, siblings_from, slot_at,
};

// Where the fields of an output row stand.
const FROM: usize = 0;

const TO: usize = 1;

const COUNT: usize = 2;

const DEPTH: usize = 3;

// Where the fields of a pair of `active` stand.
const SLOT: usize = 0;

const STANDING: usize = 1;

// ---- the active trees of a walk: where they stand, and how many stand there; a function for each field, so that no caller tells it by number

fn active_slot(active: &[u32], i: usize) -> usize
    requires { i * 2 + 2 ≤ length active.now }
    ensures { result ≡ field active.now 2 i 0 }
{
    active[i * OPEN + SLOT] as usize
}

fn active_count(active: &[u32], i: usize) -> u32
    requires { i * 2 + 2 ≤ length active.now }
    ensures { result ≡ field active.now 2 i 1 }
{
    active[i * OPEN + STANDING]
}

// The pair i: one active tree stands at the slot.
fn put_pair(active: &mut [u32], i: usize, slot: usize)
    requires { (i * 2 + 2 ≤ length active.old) × (slot < 2 ^ 32) }
    ensures { active.new ≡ joined active.old i slot }
{
    active[i * OPEN + SLOT] = slot as u32;
    active[i * OPEN + STANDING] = 1;
}

// One more active tree stands at the slot of the pair i.
fn raise_pair(active: &mut [u32], i: usize)
    requires { (i * 2 + 2 ≤ length active.old) × (field active.old 2 i 1 + 1 < 2 ^ 32) }
    ensures { active.new ≡ put_field active.old 2 i 1 (field active.old 2 i 1 + 1) }
{
    active[i * OPEN + STANDING] += 1;
}

// Every active tree of a walk takes the edge: the first `w` pairs of `active` are the slots where active trees stand, and how many stand there. (`w`, `n`
// and `cap` stand one by one: the symbolic edge is taken by a walk that has no `ThreadingState`, which would hold a root too.)
pub fn add_edge_to_junction_tree_nodes(
    nodes: &mut [u32],
    active: &mut [u32],
    w: usize,
    n: usize,
    cap: usize,
    edge: Edge,
) -> Result<usize, Refusal>
    requires { Walking cap n w (ends_of edge) nodes.old active.old }
    ensures { TookAll cap n w (ends_of edge) nodes.old nodes.new active.old active.new result }
{
    let mut k = n;
    for i in 0..w {
        let s = active_slot(active, i);
        let m = active_count(active, i);
        let r = add_edge(nodes, k, cap, s, edge, m);
        let Ok(st) = r else {
            return Err(r.unwrap_err());
        };
        active[i * OPEN + SLOT] = st.at as u32;
        k = st.nodes;
    }
    Ok(k)
}

// How many nodes there are and how many there may be, how many pairs of `active` are used, and the slot of the root of the vertex where the walk
// stands, if it has a tree.
#[derive(Clone, Copy)]
pub struct ThreadingState {
    pub nodes: usize,
    pub cap: usize,
    pub groups: usize,
    pub root: Option<usize>,
}

// The first of the first `w` pairs of `active` that stands at slot `at`.
// (A `for`: with `find` it was not proved that no pair stands there where it gives none.)
fn find_active(active: &[u32], w: usize, at: usize) -> Option<usize>
    requires { w * 2 ≤ length active.now }
    ensures { Sited active.now w at result }
{
    for i in 0..w {
        if active_slot(active, i) == at {
            return Some(i);
        }
    }
    None
}

// The tree of v is opened in a walk: its root joins the pairs, or its pair gains one. `held.root` is the slot of its root, if there is one.
pub fn add_tree_if_necessary(
    nodes: &mut [u32],
    active: &mut [u32],
    held: ThreadingState,
    v: u32,
) -> Result<ThreadingState, Refusal>
    requires { Joinable held.cap held.nodes v held.root held.groups nodes.old active.old }
    ensures { JoinedTo held.cap held.nodes v held.root held.groups nodes.old nodes.new active.old active.new result }
{
    let w = held.groups;
    let r = get_and_increment_root(nodes, held.nodes, held.cap, v, held.root);
    let Ok(st) = r else {
        return Err(r.unwrap_err());
    };
    let opened = ThreadingState {
        nodes: st.nodes,
        root: Some(st.at),
        ..held
    };
    if let Some(i) = find_active(active, w, st.at) {
        raise_pair(active, i);
        return Ok(opened);
    }
    put_pair(active, w, st.at);
    Ok(ThreadingState {
        groups: w + 1,
        ..opened
    })
}

// ---- one edge of a walk
// `warrants` and `only` are the flags of the steps in specs/Pass, of which the definition's step over an edge is made: each step is a function here too,
// which does nothing where its flag says so.

// The tree of v is opened, where the vertex warrants a tree.
pub fn open_where(
    nodes: &mut [u32],
    active: &mut [u32],
    held: ThreadingState,
    v: u32,
    warrants: bool,
) -> Result<ThreadingState, Refusal>
    requires { Stepping held.cap (ends v v) 1 held nodes.old active.old }
    ensures { Steps (open_where warrants v) opening held.cap v held nodes.old nodes.new active.old active.new result }
{
    if warrants {
        return add_tree_if_necessary(nodes, active, held, v);
    }
    Ok(held)
}

// Every active tree takes the edge, unless it is the only one that leaves its vertex.
pub fn take_unless(
    nodes: &mut [u32],
    active: &mut [u32],
    held: ThreadingState,
    edge: Edge,
    only: bool,
) -> Result<ThreadingState, Refusal>
    requires { Stepping held.cap (ends_of edge) 0 held nodes.old active.old }
    ensures { Steps (take_unless only (ends_of edge)) taking held.cap edge.from held nodes.old nodes.new active.old active.new result }
{
    if only {
        return Ok(held);
    }
    let r = add_edge_to_junction_tree_nodes(nodes, active, held.groups, held.nodes, held.cap, edge);
    let Ok(k) = r else {
        return Err(r.unwrap_err());
    };
    Ok(ThreadingState { nodes: k, ..held })
}

// The walk passes the edge: `held.root` is the slot of the root of the vertex that it leaves, before and after.
pub fn pass_edge(
    nodes: &mut [u32],
    active: &mut [u32],
    held: ThreadingState,
    edge: Edge,
    warrants: bool,
    only: bool,
) -> Result<ThreadingState, Refusal>
    requires { Stepping held.cap (ends_of edge) 2 held nodes.old active.old }
    ensures { Steps (λ w. take_unless only (ends_of edge) (open_where warrants edge.from w)) passing held.cap edge.from held nodes.old nodes.new active.old active.new result }
{
    let r = open_where(nodes, active, held, edge.from, warrants);
    let Ok(h) = r else {
        return r;
    };
    take_unless(nodes, active, h, edge, only)
}

// ---- the rows of the nodes

fn put_row(out: &mut [u32], row: usize, edge: Edge, count: u32, depth: u32)
    requires { row * 4 + 4 ≤ length out.old }
    ensures { out.new ≡ put_from out.old 4 row 0 (edge.from ∷ edge.to ∷ count ∷ depth ∷ []) }
{
    out[row * NODE_ROW + FROM] = edge.from;
    out[row * NODE_ROW + TO] = edge.to;
    out[row * NODE_ROW + COUNT] = count;
    out[row * NODE_ROW + DEPTH] = depth;
}

// ---- reading the finished trees

// The trees of all walks: the table of nodes, how many nodes it has, and for how many it has room; the table is lent longer than it is filled.
// (No invariant of the type: `Readable` and `Linked` speak of the row that begins at `start`, which each method is told, and not of the table alone.)
#[derive(Clone, Copy)]
pub struct Trees<'a> {
    pub nodes: &'a [u32],
    pub count: usize,
    pub cap: usize,
}

impl<'a> Trees<'a> {
    // All nodes, depth first in edge order, a row each: edge, count, depth. `stack` holds, for each depth above, the link to the sibling to go on with.
    // (A `loop` over a lent stack and no recursion: a tree may be as deep as it has nodes, for which the machine's stack need not have room.)
    pub fn write_nodes(self, stack: &mut [u32], out: &mut [u32])
        requires { Writable self.cap self.count self.nodes.now stack.old out.old }
        ensures { Written self.entry.count self.entry.nodes.now stack.old stack.new out.old out.new }
    {
        let mut at = first_child(self.nodes, 0);
        let mut depth: usize = 0;
        let mut row: usize = 0;
        // Each turn goes down to a child, to a sibling, or up by one.
        loop {
            let Some(s) = at else {
                if depth == 0 {
                    return;
                }
                depth -= 1;
                at = slot_at(stack[depth]);
                continue;
            };
            put_row(
                out,
                row,
                edge_of(self.nodes, s),
                evidence_count(self.nodes, s),
                depth as u32,
            );
            stack[depth] = link_to(next_sibling(self.nodes, s));
            at = first_child(self.nodes, s);
            depth += 1;
            row += 1;
        }
    }

    // The slot of the child for the edge in the row of siblings that begins at `start`.
    pub fn child_slot(self, start: Option<usize>, edge: Edge) -> Option<usize>
        requires { Readable self.cap self.count self.nodes.now (link_to start) × Linked start }
        ensures { ChildSlot self.entry.count self.entry.nodes.now (link_to start) (ends_of edge) result }
    {
        find_child(self.nodes, start, edge).ok()
    }

    // The counts of the row of siblings that begins at `start`, added. (As a loop: `sum` asks that every sum along the iterator fits, and `map` that its
    // closure may be called at each turn; the loop's invariant says both.)
    pub fn total_out_for_branch(self, start: Option<usize>) -> usize
        requires { Readable self.cap self.count self.nodes.now (link_to start) × Linked start }
        ensures { Summed self.entry.count self.entry.nodes.now (link_to start) result }
    {
        let mut total: usize = 0;
        for s in siblings_from(self.nodes, start) {
            total += evidence_count(self.nodes, s) as usize;
        }
        total
    }
}
