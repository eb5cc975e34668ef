// Best-path search over a built graph with its trees. (Rust: junction_kbest.rs)
// The slices that a step writes stay parameters one by one: held in a struct, each contract would have to say of each which slice was lent.
#![tactic(auto)]

ghost use Rattle.path_queue.specs.Push.{Pushes};
ghost use Rattle.search_state.specs.Settings.{setting_of};
ghost use Rattle.junction_kbest.specs.Extend.{ExtendsTaken, TakenExtended};
ghost use Rattle.junction_kbest.specs.Take.{TakesPath, PathTaken};
ghost use Rattle.junction_kbest.specs.Between.{PushedTurn, NextTurn, TurnMade, TurnAsks};
ghost use Rattle.junction_kbest.specs.Pivot.{PivotTurn, PivotMade, TurnMadeIn};
ghost use Rattle.junction_kbest.specs.Find.{Finds, Found};

use path_closing::{add_junction_tree, close_at_sink};
use path_extensions::process_vertex;
use path_growth::{Taken, follow_chain};
use path_queue::{begin, enqueue_next_pivotal_edge, push_paths, take_first};
use path_store::records::Paths;
use refusals::Refusal;
use search_state::{Progress, Setting};
use turn_rules::{all_closed, first_new, is_dropped, too_many};

// The taken path is extended: the tree at the end of its chain joins, then it may close, then all its extensions are made. (process_vertex)
fn extend_taken(
    paths: &mut [u32],
    scores: &mut [f64],
    active: &mut [u16],
    closed: &mut [u32],
    marks: &mut [u32],
    walks: &mut [u32],
    g: &Setting,
    taken: Taken,
    p: Progress,
) -> Result<Progress, Refusal>
    requires { ExtendsTaken (setting_of g.now) g.now.graph.vertices.now g.now.graph.edges.now g.now.trees.nodes.now g.now.chains.index.now g.now.chains.targets.now g.now.column.now paths.old scores.old active.old closed.old marks.old walks.old p taken }
    ensures { TakenExtended (setting_of g.now) g.now.graph.vertices.now g.now.graph.edges.now g.now.trees.nodes.now g.now.chains.index.now g.now.chains.targets.now g.now.column.now paths.old scores.old active.old closed.old marks.old p taken result paths.new scores.new active.new closed.new marks.new }
{
    let a = add_junction_tree(paths, scores, active, g, taken);
    let Ok(_) = a else {
        return Err(a.unwrap_err());
    };
    let c = close_at_sink(paths, scores, active, closed, marks, g, taken, p);
    let Ok(q) = c else {
        return c;
    };
    let e = process_vertex(paths, scores, active, walks, g, taken, q.records);
    let Ok(records) = e else {
        return Err(e.unwrap_err());
    };
    Ok(Progress { records, ..q })
}

// A taken path with more than 5 decisions since guidance is dropped; another goes along its chain and is extended.
fn take_path(
    paths: &mut [u32],
    scores: &mut [f64],
    active: &mut [u16],
    closed: &mut [u32],
    marks: &mut [u32],
    walks: &mut [u32],
    g: &Setting,
    p: Progress,
    path: u32,
) -> Result<Progress, Refusal>
    requires { TakesPath (setting_of g.now) g.now.graph.vertices.now g.now.graph.edges.now g.now.trees.nodes.now g.now.chains.index.now g.now.chains.targets.now g.now.column.now paths.old scores.old active.old closed.old marks.old walks.old p path }
    ensures { PathTaken (setting_of g.now) g.now.graph.vertices.now g.now.graph.edges.now g.now.trees.nodes.now g.now.chains.index.now g.now.chains.targets.now g.now.column.now paths.old scores.old active.old closed.old marks.old p path result paths.new scores.new active.new closed.new marks.new }
{
    let held = Paths {
        records: paths,
        scores,
    };
    if is_dropped(held.at(path).since) {
        return Ok(p);
    }
    let taken = follow_chain(held, g.chains, path);
    extend_taken(paths, scores, active, closed, marks, walks, g, taken, p)
}

// The paths from `from` on are pushed, and the turn is over.
fn push_turn(
    scores: &[f64],
    queue: &mut [u32],
    g: &Setting,
    q: Progress,
    from: u32,
) -> Result<Option<Progress>, Refusal>
    requires { Pushes scores.now queue.old (setting_of g.now) q from }
    ensures { PushedTurn scores.now queue.old (setting_of g.now) q from queue.new result }
{
    let d = push_paths(scores, queue, g, q, from);
    let Ok(n) = d else {
        return Err(d.unwrap_err());
    };
    Ok(Some(n))
}

// A turn where paths wait: the first is taken, and what is made of it is pushed; None where the search ends as it is.
fn next_path(
    paths: &mut [u32],
    scores: &mut [f64],
    active: &mut [u16],
    queue: &mut [u32],
    closed: &mut [u32],
    marks: &mut [u32],
    walks: &mut [u32],
    g: &Setting,
    p: Progress,
) -> Result<Option<Progress>, Refusal>
    requires { NextTurn (setting_of g.now) g.now.graph.vertices.now g.now.graph.edges.now g.now.trees.nodes.now g.now.chains.index.now g.now.chains.targets.now g.now.column.now paths.old scores.old active.old queue.old closed.old marks.old walks.old p }
    ensures { TurnMade (setting_of g.now) g.now.graph.vertices.now g.now.graph.edges.now g.now.trees.nodes.now g.now.chains.index.now g.now.chains.targets.now g.now.column.now paths.old scores.old active.old queue.old closed.old marks.old p result paths.new scores.new active.new queue.new closed.new marks.new }
{
    if too_many(p) {
        return Ok(None);
    }
    let t = take_first(scores, queue, p);
    let r = take_path(
        paths, scores, active, closed, marks, walks, g, t.left, t.path,
    );
    let Ok(q) = r else {
        return Err(r.unwrap_err());
    };
    push_turn(scores, queue, g, q, first_new(t.left, q))
}

// A turn where nothing waits: the next pivotal edge is tried, and what is recovered is pushed; None where the search ends as it is.
fn try_pivotal(
    paths: &mut [u32],
    scores: &mut [f64],
    queue: &mut [u32],
    closed: &[u32],
    order: &[u32],
    marks: &[u32],
    walks: &mut [u32],
    g: &Setting,
    p: Progress,
) -> Result<Option<Progress>, Refusal>
    requires { PivotTurn g.now.graph.edges.now g.now.chains.index.now g.now.chains.targets.now paths.old scores.old queue.old closed.now order.now marks.now walks.old (setting_of g.now) p }
    ensures { PivotMade g.now.graph.edges.now g.now.chains.index.now g.now.chains.targets.now paths.old scores.old queue.old closed.now order.now marks.now (setting_of g.now) p result paths.new scores.new queue.new }
{
    let r = enqueue_next_pivotal_edge(paths, scores, closed, order, marks, walks, g, p);
    let Ok(recovered) = r else {
        return r;
    };
    let Some(q) = recovered else {
        return Ok(None);
    };
    push_turn(scores, queue, g, q, p.records)
}

// One turn: a waiting path is taken; where none waits, the next pivotal edge is tried. None where the search ends as it is.
fn turn(
    paths: &mut [u32],
    scores: &mut [f64],
    active: &mut [u16],
    queue: &mut [u32],
    closed: &mut [u32],
    order: &[u32],
    marks: &mut [u32],
    walks: &mut [u32],
    g: &Setting,
    p: Progress,
) -> Result<Option<Progress>, Refusal>
    requires { TurnAsks (setting_of g.now) g.now.graph.vertices.now g.now.graph.edges.now g.now.trees.nodes.now g.now.chains.index.now g.now.chains.targets.now g.now.column.now paths.old scores.old active.old queue.old closed.old order.now marks.old walks.old p }
    ensures { TurnMadeIn order.now (setting_of g.now) g.now.graph.vertices.now g.now.graph.edges.now g.now.trees.nodes.now g.now.chains.index.now g.now.chains.targets.now g.now.column.now paths.old scores.old active.old queue.old closed.old marks.old p result paths.new scores.new active.new queue.new closed.new marks.new }
{
    if p.waiting > 0 {
        return next_path(paths, scores, active, queue, closed, marks, walks, g, p);
    }
    try_pivotal(paths, scores, queue, closed, order, marks, walks, g, p)
}

// Turn after turn, until as many paths have closed as are asked for, the search ends, or a turn is refused: how far the search has come when it ends.
// `walks` serves the pivotal edges that are still to be looked at, the offers of a fork, and the edges of a path that is split, one after the other.
pub fn find_junction_best_haplotypes(
    paths: &mut [u32],
    scores: &mut [f64],
    active: &mut [u16],
    queue: &mut [u32],
    closed: &mut [u32],
    order: &mut [u32],
    marks: &mut [u32],
    walks: &mut [u32],
    g: &Setting,
    recovery: bool,
) -> Result<Progress, Refusal>
    requires { Finds (setting_of g.now) g.now.graph.vertices.now g.now.graph.edges.now g.now.trees.nodes.now g.now.chains.index.now g.now.chains.targets.now g.now.column.now paths.old scores.old active.old queue.old closed.old order.old marks.old walks.old }
    ensures { Found (setting_of g.now) g.now.graph.vertices.now g.now.graph.edges.now g.now.trees.nodes.now g.now.chains.index.now g.now.chains.targets.now g.now.column.now recovery result paths.new scores.new active.new queue.new closed.new order.new marks.new }
{
    let mut p = begin(paths, scores, queue, walks, order, marks, g, recovery);
    while !all_closed(p.closed, g.asked) {
        let r = turn(
            paths, scores, active, queue, closed, order, marks, walks, g, p,
        );
        let Ok(more) = r else {
            return Err(r.unwrap_err());
        };
        let Some(q) = more else {
            return Ok(p);
        };
        p = q;
    }
    Ok(p)
}
