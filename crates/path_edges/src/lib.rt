// Walks up the parents of a path: how often a vertex stands in it, and its edges in order.
// `Table` stays in the contracts, since it speaks of the records, of the chains and of the path that is asked for, and of no one type alone.
// `paths` and `chains` stand one by one: the records are written between two readings while the chains stay, so a struct of both would be made again each
// time.
#![tactic(auto)]

ghost use Rattle.std.specs.Prelude.{◌≡◌, true, ◌+◌, ◌-◌, ◌<◌, ◌≤◌, length, get_or, eqb, option_to_list, IfSome};
ghost use Rattle.std.proofs.lemmas.List.Edits.{sets};
ghost use Rattle.path_store.specs.Walk.{hits, times};
ghost use Rattle.path_store.specs.Cells.{Inside, edge_of, count_of};
ghost use Rattle.laws.specs.Lists.{any};
ghost use Rattle.path_edges.specs.Visit.{seen, keeps};
ghost use Rattle.path_edges.specs.Path.{Piece, piece_of, Table, edges};
ghost use Rattle.path_edges.specs.Stop.{fork_hits, stop_hits};

use path_store::chains::Chains;
use path_store::records::Paths;
use path_store::upward::Link;

// How often v is the target of a last edge, where there is one.
fn count_last(targets: &[u32], edge: Option<u32>, v: u32) -> usize
    requires { IfSome edge (λ e. e < length targets.now) }
    ensures { result ≡ hits targets.now v (option_to_list edge) }
{
    match edge {
        Some(e) => usize::from(v == targets[e as usize]),
        None => 0,
    }
}

// Whether every chain that comes to v ends there. (Not by `Chains::sole`, which asks that v has a place in the table; here v may lie beyond it.)
fn stops_at(index: &[u32], v: u32) -> bool
    ensures { result ≡ true → get_or index.now v 0 ≡ 0 }
{
    index.get(v as usize).is_some_and(|e| *e == 0)
}

// How often v, where chains stop, stands in a chain of this length that leads to `fork`: nowhere but at its end.
fn count_fork(chain: u32, fork: u32, v: u32) -> usize
    ensures { result ≡ fork_hits v chain fork }
{
    let has_edges = chain != 0;
    usize::from(has_edges && v == fork)
}

// How often v, where chains stop, is the target of an edge that the path adds to its parent.
fn count_stop(paths: Paths, targets: &[u32], path: u32, v: u32) -> usize
    requires { Inside paths.records.now paths.scores.now path × (edge_of paths.records.now path ≤ length targets.now) }
    ensures { result ≡ stop_hits targets.now v paths.entry.records.now path }
{
    let row = paths.at(path);
    count_fork(row.chain, row.fork, v) + count_last(targets, row.last(), v)
}

// How often v is the target of an edge that the link's path adds to its parent; where chains stop at v the chain is not walked, which is told
// once for the whole path, so that it is not looked up again for each record.
fn count_piece(paths: Paths, chains: Chains, link: Link, v: u32, stops: bool) -> usize
    requires { Piece chains.index.now chains.targets.now paths.records.now paths.scores.now link × (stops ≡ true → get_or chains.index.now v 0 ≡ 0) }
    ensures { result ≡ hits chains.entry.targets.now v (piece_of chains.entry.index.now chains.entry.targets.now paths.entry.records.now link.path) }
{
    if stops {
        return count_stop(paths, chains.targets, link.path, v);
    }
    let row = paths.at(link.path);
    let parent = paths.at(link.parent);
    chains.count_chain(parent.end, row.chain, v) + count_last(chains.targets, row.last(), v)
}

// How often v stands among the vertices of a path. (As a loop: `sum` asks that every sum along the iterator fits, and `map` that its closure may be called
// at each turn; the loop's invariant says both.)
pub fn count_in_path(paths: Paths, chains: Chains, source: u32, path: u32, v: u32) -> usize
    requires { Table chains.index.now chains.targets.now paths.records.now paths.scores.now (path + 1) }
    ensures { result ≡ times chains.entry.targets.now source v (edges chains.entry.index.now chains.entry.targets.now paths.entry.records.now path) }
{
    let stops = stops_at(chains.index, v);
    let mut k: usize = 0;
    for link in paths.upward(path) {
        k += count_piece(paths, chains, link, v, stops);
    }
    k + usize::from(v == source)
}

// A last edge is written, where there is one.
fn write_last(out: &mut [u32], at: usize, edge: Option<u32>)
    requires { at + length (option_to_list edge) ≤ length out.old }
    ensures { out.new ≡ sets out.old at (option_to_list edge) }
{
    if let Some(e) = edge {
        out[at] = e;
    }
}

// The edges that the link's path adds are written behind its parent's, which start at the place at.
fn write_piece(paths: Paths, chains: Chains, out: &mut [u32], at: usize, link: Link)
    requires { Piece chains.index.now chains.targets.now paths.records.now paths.scores.now link × (at + count_of paths.records.now link.parent + length (piece_of chains.index.now chains.targets.now paths.records.now link.path) ≤ length out.old) }
    ensures { out.new ≡ sets out.old (at + count_of paths.entry.records.now link.parent) (piece_of chains.entry.index.now chains.entry.targets.now paths.entry.records.now link.path) }
{
    let row = paths.at(link.path);
    let parent = paths.at(link.parent);
    let from = at + parent.edges as usize;
    chains.write_chain(out, from, parent.end, row.chain);
    write_last(out, from + row.chain as usize, row.last());
}

// The edges of a path, in order, from the place at on: filled from the back.
pub fn write_path(paths: Paths, chains: Chains, out: &mut [u32], at: usize, path: u32)
    requires { Table chains.index.now chains.targets.now paths.records.now paths.scores.now (path + 1) × (at + count_of paths.records.now path ≤ length out.old) }
    ensures { out.new ≡ sets out.old at (edges chains.entry.index.now chains.entry.targets.now paths.entry.records.now path) }
{
    for link in paths.upward(path) {
        write_piece(paths, chains, out, at, link);
    }
}

// Whether the tree at v counts as visited by a path: it joined the path or an ancestor, or it stands on the nearest recovered path above. A loop of its own,
// since a tree may have joined the start path, which has no link.
pub fn has_visited(paths: Paths, chains: Chains, source: u32, path: u32, v: u32) -> bool
    requires { Table chains.index.now chains.targets.now paths.records.now paths.scores.now (path + 1) × (v + 1 < 4294967296) }
    ensures { result ≡ any (eqb v) (seen chains.entry.index.now chains.entry.targets.now source paths.entry.records.now path) }
{
    let mut up = Some(path);
    while let Some(r) = up {
        let row = paths.at(r);
        if row.joined == v + 1 {
            return true;
        }
        if row.recovered {
            return count_in_path(paths, chains, source, r, v) > 0;
        }
        up = row.above();
    }
    false
}

// The repeat rule: a path is kept if it has guidance, or its last vertex stands in it once.
pub fn repeat_rule(paths: Paths, chains: Chains, source: u32, path: u32) -> bool
    requires { Table chains.index.now chains.targets.now paths.records.now paths.scores.now (path + 1) }
    ensures { result ≡ keeps chains.entry.index.now chains.entry.targets.now source paths.entry.records.now path }
{
    let row = paths.at(path);
    row.since == 0 || count_in_path(paths, chains, source, path, row.end) <= 1
}
