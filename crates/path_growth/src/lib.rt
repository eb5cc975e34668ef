// Paths are made: the start path, an extension, a closed path, a recovered path; and a tree joins a path that is taken.
// The slices that a step writes stay parameters one by one: held in a struct, each contract would have to say of each which slice was lent.
#![tactic(auto)]

ghost use Rattle.std.specs.Prelude.{◌≡◌, ◌+◌, ◌<◌, ◌≤◌, length, IsSomeAnd};
ghost use Rattle.path_store.specs.Walk.{after};
ghost use Rattle.path_store.specs.Cells.{Inside, Stored, count_of, end_of};
ghost use Rattle.path_edges.specs.Path.{Table};
ghost use Rattle.path_growth.specs.Cut.{Owns, cut_of, Links};
ghost use Rattle.path_growth.specs.Extend.{Ends};
ghost use Rattle.path_growth.specs.Grow.{start_row, Following, Growable, Grown, extended_row, closed_row, recovered_row, Joined};

use path_store::chains::Chains;
use path_store::records::{PathRecord, Paths, path_put};
use path_store::upward::Link;
use refusals::Refusal;

// A taken path, the length of the chain after it, and the vertex that the chain leads to.
#[derive(Clone, Copy)]
pub struct Taken {
    pub path: u32,
    pub chain: u32,
    pub vertex: u32,
}

// What an extension adds beyond the chain: an edge; and what it comes to: its score, the decisions since guidance, the number of active trees.
#[derive(Clone, Copy)]
pub struct Extension {
    pub edge: u32,
    pub score: f64,
    pub since: u32,
    pub trees: u32,
}

// A front of a path's edges: those of the path `parent`, an ancestor or the path itself, and then a chain of this length.
#[derive(Clone, Copy)]
pub struct Cut {
    pub parent: u32,
    pub chain: u32,
}

// The start path is record 0. (JtPath::new)
pub fn start_path(paths: &mut [u32], scores: &mut [f64], source: u32)
    requires { Inside paths.old scores.old 0 }
    ensures { Stored paths.old scores.old 0 (start_row source) paths.new scores.new }
{
    let row = PathRecord {
        score: 0.0,
        parent: 0,
        chain: 0,
        edge: 0,
        edges: 0,
        end: source,
        fork: source,
        since: 0,
        joined: 0,
        trees: 0,
        recovered: false,
    };
    path_put(paths, scores, 0, row);
}

// The chain after a path.
pub fn follow_chain(paths: Paths, chains: Chains, path: u32) -> Taken
    requires { Table chains.index.now chains.targets.now paths.records.now paths.scores.now (path + 1) }
    ensures { Following chains.entry.index.now chains.entry.targets.now paths.entry.records.now path result }
{
    let c = chains.chain_from(paths.at(path).end);
    Taken {
        path,
        chain: c.steps as u32,
        vertex: c.vertex,
    }
}

// The taken path with its chain and an edge more becomes the record n; more edges than the maximum is PathSize. (extend_with_edges)
pub fn extend_path(
    paths: &mut [u32],
    scores: &mut [f64],
    targets: &[u32],
    n: u32,
    taken: Taken,
    x: Extension,
    most: u32,
) -> Result<u32, Refusal>
    requires { Growable paths.old scores.old n taken.path × (x.edge < length targets.now) × (x.edge + 1 < 4294967296) × (x.trees < 2147483648) }
    ensures { Grown paths.old scores.old n (extended_row paths.old targets.now taken x) most result paths.new scores.new }
{
    let held = Paths {
        records: paths,
        scores,
    };
    let k = held.at(taken.path).edges as usize + taken.chain as usize + 1;
    if k > most as usize {
        return Err(Refusal::PathSize);
    }
    let row = PathRecord {
        score: x.score,
        parent: taken.path + 1,
        chain: taken.chain,
        edge: x.edge + 1,
        edges: k as u32,
        end: targets[x.edge as usize],
        fork: taken.vertex,
        since: x.since,
        joined: 0,
        trees: x.trees,
        recovered: false,
    };
    path_put(paths, scores, n, row);
    Ok(n)
}

// The taken path with its chain becomes the record n: a closed path, with the score of the path; more edges than the maximum is PathSize.
pub fn close_path(
    paths: &mut [u32],
    scores: &mut [f64],
    n: u32,
    taken: Taken,
    most: u32,
) -> Result<u32, Refusal>
    requires { Growable paths.old scores.old n taken.path }
    ensures { Grown paths.old scores.old n (closed_row paths.old scores.old taken) most result paths.new scores.new }
{
    let held = Paths {
        records: paths,
        scores,
    };
    let parent = held.at(taken.path);
    let k = parent.edges as usize + taken.chain as usize;
    if k > most as usize {
        return Err(Refusal::PathSize);
    }
    let row = PathRecord {
        score: parent.score,
        parent: taken.path + 1,
        chain: taken.chain,
        edge: 0,
        edges: k as u32,
        end: taken.vertex,
        fork: taken.vertex,
        since: 0,
        joined: 0,
        trees: 0,
        recovered: false,
    };
    path_put(paths, scores, n, row);
    Ok(n)
}

// The path, or the ancestor of it, whose own piece holds the path's edge k - 1; and its parent.
fn cut_owner(paths: Paths, path: u32, k: u32) -> Option<Link>
    requires { Links paths.records.now paths.scores.now (path + 1) × (0 < k) × (k ≤ count_of paths.records.now path) }
    ensures { IsSomeAnd result (Owns paths.entry.records.now k path) }
{
    for link in paths.upward(path) {
        if paths.at(link.parent).edges < k {
            return Some(link);
        }
    }
    None
}

// The first k edges of a path, as one of its ancestors, or itself, and a front of the chain after that.
pub fn cut_path(paths: Paths, path: u32, k: u32) -> Cut
    requires { Links paths.records.now paths.scores.now (path + 1) × (0 < k) × (k ≤ count_of paths.records.now path) }
    ensures { result ≡ cut_of paths.entry.records.now k path }
{
    let owner = cut_owner(paths, path, k).unwrap();
    let own = paths.at(owner.path);
    let parent = owner.parent;
    let chain = k - paths.at(parent).edges;
    if chain <= own.chain {
        return Cut { parent, chain };
    }
    Cut {
        parent: owner.path,
        chain: 0,
    }
}

// The vertex that a cut leads to.
fn cut_end(paths: Paths, chains: Chains, cut: Cut) -> u32
    requires { Ends chains.index.now chains.targets.now paths.records.now paths.scores.now cut }
    ensures { result ≡ after chains.entry.index.now chains.entry.targets.now (end_of paths.entry.records.now cut.parent) cut.chain }
{
    chains.walk(paths.at(cut.parent).end, cut.chain as usize)
}

// The first k edges of a path and then the edge e become the record n, with the whole score of the path; more edges than the maximum is PathSize.
// (enqueue_next_pivotal_edge)
pub fn recover_path(
    paths: &mut [u32],
    scores: &mut [f64],
    chains: Chains,
    n: u32,
    path: u32,
    k: u32,
    e: u32,
    most: u32,
) -> Result<u32, Refusal>
    requires { Growable paths.old scores.old n path × Table chains.index.now chains.targets.now paths.old scores.old (path + 1) × (0 < k) × (k ≤ count_of paths.old path) × (e < length chains.targets.now) × (e + 1 < 4294967296) }
    ensures { Grown paths.old scores.old n (recovered_row chains.entry.index.now paths.old scores.old chains.entry.targets.now path k e) most result paths.new scores.new }
{
    if k >= most {
        return Err(Refusal::PathSize);
    }
    let held = Paths {
        records: paths,
        scores,
    };
    let best = held.at(path);
    let cut = cut_path(held, path, k);
    let row = PathRecord {
        score: best.score,
        parent: cut.parent + 1,
        chain: cut.chain,
        edge: e + 1,
        edges: k + 1,
        end: chains.targets[e as usize],
        fork: cut_end(held, chains, cut),
        since: 0,
        joined: 0,
        trees: 0,
        recovered: true,
    };
    path_put(paths, scores, n, row);
    Ok(n)
}

// The tree at the vertex v joins the path; more active trees than the maximum is PathSize. (add_junction_tree)
pub fn join_tree(
    paths: &mut [u32],
    scores: &mut [f64],
    path: u32,
    v: u32,
    most: u32,
) -> Result<u32, Refusal>
    requires { Inside paths.old scores.old path × (v + 1 < 4294967296) × (most ≤ 65536) }
    ensures { Joined paths.old scores.old path v most result paths.new scores.new }
{
    let held = Paths {
        records: paths,
        scores,
    };
    let row = held.at(path);
    if row.trees >= most {
        return Err(Refusal::PathSize);
    }
    let with = PathRecord {
        since: 0,
        joined: v + 1,
        trees: row.trees + 1,
        ..row
    };
    path_put(paths, scores, path, with);
    Ok(path)
}
