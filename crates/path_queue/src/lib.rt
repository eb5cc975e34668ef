// The steps of the search over the queue of waiting paths: paths are pushed, the first is taken, and where none waits a pivotal edge is tried.
// The slices that a step writes stay parameters one by one: held in a struct, each contract would have to say of each which slice was lent.
#![tactic(auto)]

ghost use Rattle.std.specs.Prelude.{◌≡◌, ◌≤◌, length};
ghost use Rattle.assembly.specs.Fields.{HasEdge, edge_from};
ghost use Rattle.path_edges.specs.Path.{edges};
ghost use Rattle.closed_paths.specs.Split.{split_of};
ghost use Rattle.search_state.specs.Settings.{setting_of};
ghost use Rattle.path_queue.specs.Begin.{ListsPivotal, PivotalListed, Begins, Begun};
ghost use Rattle.path_queue.specs.Next.{Marked, NextIs};
ghost use Rattle.path_queue.specs.Recover.{Splits, Leaves, Left};
ghost use Rattle.path_queue.specs.Try.{TriesEdge, EdgeTried};
ghost use Rattle.path_queue.specs.Enqueue.{TriesNext, Tried};
ghost use Rattle.path_queue.specs.Push.{Pushes, OnePushes, OnePushed, AllPushed};
ghost use Rattle.path_queue.specs.Take.{Takes, Taken};

use assembly::edge_from;
use closed_paths::pivotal::{best_through, split_place};
use path_edges::write_path;
use path_growth::{recover_path, start_path};
use path_heap::{heap_pop, heap_push};
use path_store::chains::Chains;
use path_store::records::Paths;
use pivotal_edges::create_pivotal_edges_in_topological_order;
use refusals::Refusal;
use search_state::{Progress, Setting};

// The path that was taken, and how far the search is without it.
#[derive(Clone, Copy)]
pub struct Taking {
    pub path: u32,
    pub left: Progress,
}

// The path joins those that wait, unless as many have been pushed as the caller allows: Pushes.
fn push_path(
    scores: &[f64],
    queue: &mut [u32],
    g: &Setting,
    p: Progress,
    path: u32,
) -> Result<Progress, Refusal>
    requires { OnePushes scores.now queue.old (setting_of g.now) p path }
    ensures { OnePushed scores.now queue.old (setting_of g.now) p path queue.new result }
{
    if p.pushes >= g.pushes {
        return Err(Refusal::Pushes);
    }
    heap_push(queue, p.waiting, scores, path);
    let waiting = p.waiting + 1;
    Ok(Progress {
        waiting,
        pushes: p.pushes + 1,
        mark: p.mark.max(waiting),
        ..p
    })
}

// The paths from `from` on join those that wait, in order.
pub fn push_paths(
    scores: &[f64],
    queue: &mut [u32],
    g: &Setting,
    p: Progress,
    from: u32,
) -> Result<Progress, Refusal>
    requires { Pushes scores.now queue.old (setting_of g.now) p from }
    ensures { AllPushed scores.now queue.old (setting_of g.now) p from queue.new result }
{
    let mut at = p;
    for path in from..p.records {
        let r = push_path(scores, queue, g, at, path);
        let Ok(next) = r else {
            return r;
        };
        at = next;
    }
    Ok(at)
}

// The waiting path of greatest score is taken; of equal scores the earlier push.
pub fn take_first(scores: &[f64], queue: &mut [u32], p: Progress) -> Taking
    requires { Takes scores.now queue.old p }
    ensures { Taken scores.now queue.old p result queue.new }
{
    let path = heap_pop(queue, p.waiting, scores);
    let left = Progress {
        waiting: p.waiting - 1,
        ..p
    };
    Taking { path, left }
}

// With recovery the pivotal edges, all of them marked as not yet visited; without it none: how many. A mark is a number, since the marks lie in a lent
// slice of numbers. The flag is looked at here and nowhere else, so that `begin` has no branch.
fn list_pivotal(
    walks: &mut [u32],
    order: &mut [u32],
    marks: &mut [u32],
    g: &Setting,
    recovery: bool,
) -> usize
    requires { ListsPivotal (setting_of g.now) g.now.graph.vertices.now g.now.graph.edges.now walks.old order.old marks.old }
    ensures { PivotalListed (setting_of g.now) g.now.graph.vertices.now g.now.graph.edges.now order.new marks.new result recovery }
{
    if !recovery {
        return 0;
    }
    marks[..g.graph.count].fill(0);
    let n = create_pivotal_edges_in_topological_order(g.graph, walks, marks, order);
    marks[..g.graph.count].fill(1);
    n
}

// The start path waits alone, and the pivotal edges are listed where recovery is asked for.
pub fn begin(
    paths: &mut [u32],
    scores: &mut [f64],
    queue: &mut [u32],
    walks: &mut [u32],
    order: &mut [u32],
    marks: &mut [u32],
    g: &Setting,
    recovery: bool,
) -> Progress
    requires { Begins (setting_of g.now) g.now.graph.vertices.now g.now.graph.edges.now paths.old scores.old queue.old walks.old order.old marks.old }
    ensures { Begun (setting_of g.now) g.now.graph.vertices.now g.now.graph.edges.now paths.new scores.new queue.new order.new marks.new recovery result }
{
    start_path(paths, scores, 0);
    heap_push(queue, 0, scores, 0);
    let pivotal = list_pivotal(walks, order, marks, g, recovery);
    Progress {
        records: 1,
        waiting: 1,
        closed: 0,
        next: 0,
        pivotal,
        pushes: 1,
        mark: 1,
    }
}

// The first place from `next` on whose edge is still marked. A `for` that ends at the first is as plain as `position`, which would count from `next`.
fn next_pivotal(order: &[u32], marks: &[u32], next: usize) -> Option<usize>
    requires { Marked order.now marks.now (length order.now) × (next ≤ length order.now) }
    ensures { NextIs order.now marks.now (length order.now) next result }
{
    for i in next..order.len() {
        let e = order[i] as usize;
        if marks[e] != 0 {
            return Some(i);
        }
    }
    None
}

// How many edges of the path are kept by one that leaves it at v, where an edge enters v.
fn split_at(paths: Paths, chains: Chains, walks: &mut [u32], path: u32, v: u32) -> Option<usize>
    requires { Splits chains.index.now chains.targets.now paths.records.now paths.scores.now walks.old path }
    ensures { result ≡ split_of chains.entry.targets.now v (edges chains.entry.index.now chains.entry.targets.now paths.entry.records.now path) }
{
    let n = paths.at(path).edges as usize;
    write_path(paths, chains, walks, 0, path);
    split_place(&walks[..n], chains.targets, v)
}

// The path is left at v by the edge e: its front and the edge become a new record, or nothing is made where no edge enters v.
fn leave_path(
    paths: &mut [u32],
    scores: &mut [f64],
    walks: &mut [u32],
    g: &Setting,
    p: Progress,
    path: u32,
    v: u32,
    e: u32,
) -> Result<Progress, Refusal>
    requires { Leaves g.now.chains.index.now g.now.chains.targets.now paths.old scores.old walks.old (setting_of g.now) p path e }
    ensures { Left g.now.chains.index.now g.now.chains.targets.now paths.old scores.old (setting_of g.now) p path v e paths.new scores.new result }
{
    let held = Paths {
        records: paths,
        scores,
    };
    let Some(k) = split_at(held, g.chains, walks, path, v) else {
        return Ok(p);
    };
    let r = recover_path(
        paths, scores, g.chains, p.records, path, k as u32, e, g.most,
    );
    let Ok(_) = r else {
        return Err(r.unwrap_err());
    };
    Ok(Progress {
        records: p.records + 1,
        ..p
    })
}

// The vertex that the edge e leaves.
fn vertex_before(edges: &[u32], e: u32) -> u32
    requires { HasEdge edges.now e }
    ensures { result ≡ edge_from edges.now e }
{
    edge_from(edges, e as usize) as u32
}

// The edge e is tried: the best closed path through the vertex that it leaves goes on by it.
fn try_edge(
    paths: &mut [u32],
    scores: &mut [f64],
    closed: &[u32],
    walks: &mut [u32],
    g: &Setting,
    p: Progress,
    e: u32,
) -> Result<Progress, Refusal>
    requires { TriesEdge g.now.graph.edges.now g.now.chains.index.now g.now.chains.targets.now paths.old scores.old closed.now walks.old (setting_of g.now) p e }
    ensures { EdgeTried g.now.graph.edges.now g.now.chains.index.now g.now.chains.targets.now paths.old scores.old closed.now (setting_of g.now) p e paths.new scores.new result }
{
    let v = vertex_before(g.graph.edges, e);
    let held = Paths {
        records: paths,
        scores,
    };
    let Some(best) = best_through(held, g.chains, 0, &closed[..p.closed], v) else {
        return Ok(p);
    };
    leave_path(paths, scores, walks, g, p, best, v, e)
}

// Where nothing waits, the next pivotal edge that no path has visited is tried, and the search goes on, with a path more or without; None where there is
// no such edge.
pub fn enqueue_next_pivotal_edge(
    paths: &mut [u32],
    scores: &mut [f64],
    closed: &[u32],
    order: &[u32],
    marks: &[u32],
    walks: &mut [u32],
    g: &Setting,
    p: Progress,
) -> Result<Option<Progress>, Refusal>
    requires { TriesNext g.now.graph.edges.now g.now.chains.index.now g.now.chains.targets.now paths.old scores.old closed.now order.now marks.now walks.old (setting_of g.now) p }
    ensures { Tried g.now.graph.edges.now g.now.chains.index.now g.now.chains.targets.now paths.old scores.old closed.now order.now marks.now (setting_of g.now) p paths.new scores.new result }
{
    let Some(place) = next_pivotal(&order[..p.pivotal], marks, p.next) else {
        return Ok(None);
    };
    let after = Progress {
        next: place + 1,
        ..p
    };
    let r = try_edge(paths, scores, closed, walks, g, after, order[place]);
    let Ok(q) = r else {
        return Err(r.unwrap_err());
    };
    Ok(Some(q))
}
