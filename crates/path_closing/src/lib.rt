// Two steps of a path that is taken, over the stores: the tree at its vertex joins it, and at the sink it may close. (Rust: junction_kbest.rs)
// The slices that a step writes stay parameters one by one: held in a struct, each contract would have to say of each which slice was lent.
#![tactic(auto)]

ghost use Rattle.std.specs.Prelude.{◌≡◌, ◌+◌, ◌*◌, ◌<◌, length, set};
ghost use Rattle.search_state.specs.Settings.{setting_of};
ghost use Rattle.path_closing.specs.Joins.{Joins, TreeAdded, Rootable, Rooted};
ghost use Rattle.path_closing.specs.ClosesTaken.{ClosesTaken, ClosingTaken};
ghost use Rattle.path_closing.specs.Closes.{Closes, ClosedAt};

use closed_paths::pivotal::cross_off;
use fork_offers::has_stopping_evidence;
use junction_trees::root_slot;
use path_edges::has_visited;
use path_growth::{Taken, close_path, join_tree};
use path_store::records::Paths;
use refusals::Refusal;
use search_state::{Progress, Setting};
use threading_node::{Edge, first_child};

// ---- a tree joins

// The slot of the root of v's tree, where that has a branch.
fn joining_slot(vertices: &[u32], nodes: &[u32], v: usize) -> Option<usize>
    requires { Rootable vertices.now nodes.now v }
    ensures { Rooted vertices.now nodes.now v result }
{
    let s = root_slot(vertices, v)?;
    first_child(nodes, s)?;
    Some(s)
}

// The slot s is stored as the next of the active trees of a path that has `trees` of them; each path has places for `most`.
fn store_tree(active: &mut [u16], path: u32, most: usize, trees: u32, s: usize)
    requires { (path * most + trees < length active.old) × (s < 65536) }
    ensures { active.new ≡ set active.old (path * most + trees) s }
{
    active[path as usize * most + trees as usize] = s as u16;
}

// The tree at the vertex that the path leads to joins it, unless the path has visited it or it has no branch; more active trees than the maximum is PathSize.
pub fn add_junction_tree(
    paths: &mut [u32],
    scores: &mut [f64],
    active: &mut [u16],
    g: &Setting,
    taken: Taken,
) -> Result<u32, Refusal>
    requires { Joins (setting_of g.now) g.now.graph.vertices.now g.now.trees.nodes.now g.now.chains.index.now g.now.chains.targets.now paths.old scores.old active.old taken }
    ensures { TreeAdded (setting_of g.now) g.now.graph.vertices.now g.now.trees.nodes.now g.now.chains.index.now g.now.chains.targets.now paths.old scores.old active.old taken result paths.new scores.new active.new }
{
    let Some(s) = joining_slot(g.graph.vertices, g.trees.nodes, taken.vertex as usize) else {
        return Ok(taken.path);
    };
    let held = Paths {
        records: paths,
        scores,
    };
    if has_visited(held, g.chains, 0, taken.path, taken.vertex) {
        return Ok(taken.path);
    }
    let row = held.at(taken.path);
    let r = join_tree(paths, scores, taken.path, taken.vertex, g.active as u32);
    let Ok(m) = r else {
        return r;
    };
    store_tree(active, taken.path, g.active, row.trees, s);
    Ok(m)
}

// ---- a path closes

// A path at the sink closes where its active trees let it: with its chain it becomes the next record, whose number stands next in `closed`.
fn close_taken(
    paths: &mut [u32],
    scores: &mut [f64],
    active: &[u16],
    closed: &mut [u32],
    g: &Setting,
    taken: Taken,
    p: Progress,
) -> Result<Progress, Refusal>
    requires { ClosesTaken (setting_of g.now) g.now.trees.nodes.now active.now paths.old scores.old closed.old taken p }
    ensures { ClosingTaken (setting_of g.now) g.now.trees.nodes.now active.now paths.old scores.old closed.old taken p result paths.new scores.new closed.new }
{
    let held = Paths {
        records: paths,
        scores,
    };
    let at = taken.path as usize * g.active;
    let count = held.at(taken.path).trees as usize;
    let symbolic = Edge {
        from: g.sink,
        to: g.symbolic,
    };
    if !has_stopping_evidence(g.trees, active, at, count, symbolic, g.least) {
        return Ok(p);
    }
    let r = close_path(paths, scores, p.records, taken, g.most);
    let Ok(n) = r else {
        return Err(r.unwrap_err());
    };
    closed[p.closed] = n;
    Ok(Progress {
        records: p.records + 1,
        closed: p.closed + 1,
        ..p
    })
}

// At the sink a path may close, which more edges than the maximum refuse with PathSize; closed or not, its edges before the chain are no longer pivotal.
pub fn close_at_sink(
    paths: &mut [u32],
    scores: &mut [f64],
    active: &[u16],
    closed: &mut [u32],
    marks: &mut [u32],
    g: &Setting,
    taken: Taken,
    p: Progress,
) -> Result<Progress, Refusal>
    requires { Closes (setting_of g.now) g.now.trees.nodes.now g.now.chains.index.now g.now.chains.targets.now paths.old scores.old active.now closed.old marks.old p taken }
    ensures { ClosedAt (setting_of g.now) g.now.trees.nodes.now g.now.chains.index.now g.now.chains.targets.now paths.old scores.old active.now closed.old marks.old p taken result paths.new scores.new closed.new marks.new }
{
    if taken.vertex != g.sink {
        return Ok(p);
    }
    let r = close_taken(paths, scores, active, closed, g, taken, p);
    let Ok(q) = r else {
        return r;
    };
    let held = Paths {
        records: paths,
        scores,
    };
    cross_off(held, g.chains, marks, taken.path);
    Ok(q)
}
