// Pivotal edges: those of a path are struck out, the best closed path through a vertex is found, and the place where it is split.
ghost use Rattle.std.specs.Prelude.{◌≡◌, ℕ, ◌+◌, ◌<◌, ◌≤◌, length, get_or, eqb, position, option_to_list, IfSome};
ghost use Rattle.path_store.specs.Cells.{numbered};
ghost use Rattle.path_edges.specs.Path.{Table, edges};
ghost use Rattle.closed_paths.specs.Cross.{clears, Struck};
ghost use Rattle.closed_paths.specs.Best.{outscores, later, best_of, ClosedIn};
ghost use Rattle.closed_paths.specs.Split.{found, last_into, split_of};

use path_edges::count_in_path;
use path_store::chains::Chains;
use path_store::records::Paths;

// The mark of a last edge is cleared, where there is one. A mark is a number, since the marks lie in a lent slice of numbers.
fn clear_last(marks: &mut [u32], edge: Option<u32>)
    requires { IfSome edge (λ e. e < length marks.old) }
    ensures { marks.new ≡ clears marks.old (option_to_list edge) }
{
    if let Some(e) = edge {
        marks[e as usize] = 0;
    }
}

// The edges of a path are no longer pivotal: the mark of the last edge of each of its records is cleared. The edges of chains are never pivotal, so they
// are not looked at; `chains` says which they are.
pub fn cross_off(paths: Paths, chains: Chains, marks: &mut [u32], path: u32)
    requires { Table chains.index.now chains.targets.now paths.records.now paths.scores.now (path + 1) × (length chains.targets.now ≤ length marks.old) }
    ensures { Struck chains.entry.index.now marks.old (edges chains.entry.index.now chains.entry.targets.now paths.entry.records.now path) marks.new }
{
    for link in paths.upward(path) {
        clear_last(marks, paths.at(link.path).last());
    }
}

// Whether the best path so far, if there is one, has a greater score.
fn outscored(scores: &[f64], path: u32, best: Option<u32>) -> bool
    requires { (path < length scores.now) × IfSome best (λ b. b < length scores.now) }
    ensures { result ≡ outscores scores.now best path }
{
    match best {
        Some(b) => scores[path as usize] < scores[b as usize],
        None => false,
    }
}

// Of the best path so far, if there is one, and one that closed later: ties go to the later. A path that is outscored is not walked.
fn later(
    paths: Paths,
    chains: Chains,
    source: u32,
    path: u32,
    v: u32,
    best: Option<u32>,
) -> Option<u32>
    requires { Table chains.index.now chains.targets.now paths.records.now paths.scores.now (path + 1) × IfSome best (λ b. b < length paths.scores.now) }
    ensures { result ≡ later chains.entry.index.now chains.entry.targets.now source paths.entry.records.now paths.entry.scores.now v best path }
{
    if outscored(paths.scores, path, best) || count_in_path(paths, chains, source, path, v) == 0 {
        return best;
    }
    Some(path)
}

// The best of the closed paths that go through v: the greatest score, ties to the later closed.
pub fn best_through(
    paths: Paths,
    chains: Chains,
    source: u32,
    closed: &[u32],
    v: u32,
) -> Option<u32>
    requires { ClosedIn chains.index.now chains.targets.now source paths.records.now paths.scores.now v closed.now }
    ensures { result ≡ best_of chains.entry.index.now chains.entry.targets.now source paths.entry.records.now paths.entry.scores.now v closed.now }
{
    let mut best = None;
    for path in closed {
        best = later(paths, chains, source, *path, v, best);
    }
    best
}

// The last edge of a walk that enters v. A loop: `rev().find` was tried, and the proof did not close.
fn last_into(walk: &[u32], targets: &[u32], v: u32) -> Option<u32>
    requires { (i : ℕ) → i < length walk.now → get_or walk.now i 0 < length targets.now }
    ensures { result ≡ numbered (found (last_into targets.now v walk.now)) }
{
    let mut last = None;
    for e in walk {
        if targets[*e as usize] == v {
            last = Some(*e);
        }
    }
    last
}

// The first place of the edge e in a walk.
fn first_place(walk: &[u32], e: u32) -> Option<usize>
    ensures { result ≡ position (eqb e) walk.now }
{
    walk.iter().position(|d| e == *d)
}

// How many edges of a walk a recovered path keeps: those up to the first place of the last edge into v, where one enters v.
pub fn split_place(walk: &[u32], targets: &[u32], v: u32) -> Option<usize>
    requires { (i : ℕ) → i < length walk.now → get_or walk.now i 0 < length targets.now }
    ensures { result ≡ split_of targets.now v walk.now }
{
    let e = last_into(walk, targets, v)?;
    let i = first_place(walk, e)?;
    Some(i + 1)
}
