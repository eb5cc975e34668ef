// The paths that a taken path is extended to, all made before any is pushed. (Rust: process_vertex, junction_kbest.rs)
// The slices that a step writes stay parameters one by one: held in a struct, each contract would have to say of each which slice was lent.
// `g`, `taken` and `n` stand one by one too: n is another for each extension, and a struct of the other two would be made for this crate alone.
#![tactic(auto)]

ghost use Rattle.std.specs.Prelude.{◌≡◌, ◌+◌, ◌≤◌};
ghost use Rattle.assembly.specs.Fields.{HasEdge};
ghost use Rattle.threading_node.specs.Ends.{ends_of};
ghost use Rattle.fork_offers.specs.Fields.{HasOffer};
ghost use Rattle.path_edges.specs.Path.{Table};
ghost use Rattle.search_state.specs.Settings.{setting_of};
ghost use Rattle.search_state.specs.Ground.{name_of};
ghost use Rattle.path_extensions.specs.One.{decisions, Lengthens, lengthened, Gives};
ghost use Rattle.path_extensions.specs.Offer.{OfferStands, offered, tried};
ghost use Rattle.path_extensions.specs.Each.{OffersStand, all_tried};
ghost use Rattle.path_extensions.specs.Alone.{goes_on, AloneStands, alone};
ghost use Rattle.path_extensions.specs.Vertex.{Lists, Listed, Extends, Extensions};

use assembly::{FROM, TO};
use fork_offers::{Junction, Offer, offer_at, walk_trees};
use kbest_haplotype::log_penalty;
use path_edges::{count_in_path, repeat_rule};
use path_growth::{Extension, Taken, extend_path};
use path_store::chains::Chains;
use path_store::records::Paths;
use refusals::Refusal;
use search_state::Setting;
use tables::EDGE;
use threading_node::Edge;

// A way on from a taken path beyond its chain: the edge, the score of the extension, whether a tree offers the edge, and whether it is the only way on,
// which costs no decision.
#[derive(Clone, Copy)]
struct Way {
    pub edge: u32,
    pub score: f64,
    pub guided: bool,
    pub free: bool,
}

impl Way {
    // The decisions since guidance of an extension with this many trees left, by those of its parent.
    fn decisions_since(self, trees: usize, since: u32) -> u32
        requires { since ≤ 5 }
        ensures { result ≡ decisions trees self.guided self.free since }
    {
        if trees > 0 || self.guided {
            return 0;
        }
        if self.free {
            return since;
        }
        since + 1
    }
}

// The two ends of the edge i.
fn edge_ends(edges: &[u32], i: usize) -> Edge
    requires { HasEdge edges.now i }
    ensures { ends_of result ≡ name_of edges.now i }
{
    Edge {
        from: edges[i * EDGE + FROM],
        to: edges[i * EDGE + TO],
    }
}

// The taken path with its chain and one edge more becomes the record n; its active trees are walked by that edge. More edges than the maximum is PathSize.
fn extend_with_edges(
    paths: &mut [u32],
    scores: &mut [f64],
    active: &mut [u16],
    g: &Setting,
    taken: Taken,
    n: u32,
    way: Way,
) -> Result<u32, Refusal>
    requires { Lengthens (setting_of g.now) g.now.graph.edges.now g.now.trees.nodes.now g.now.chains.index.now g.now.chains.targets.now paths.old scores.old active.old n taken way }
    ensures { Gives (setting_of g.now) g.now.graph.edges.now g.now.trees.nodes.now g.now.chains.index.now g.now.chains.targets.now paths.old scores.old active.old n taken 1 (lengthened g.now.graph.edges.now way) result paths.new scores.new active.new }
{
    let held = Paths {
        records: paths,
        scores,
    };
    let parent = held.at(taken.path);
    let at = taken.path as usize * g.active;
    let to = n as usize * g.active;
    let edge = edge_ends(g.graph.edges, way.edge as usize);
    let left = walk_trees(g.trees, active, at, parent.trees as usize, to, edge);
    let x = Extension {
        edge: way.edge,
        score: way.score,
        since: way.decisions_since(left, parent.since),
        trees: left as u32,
    };
    let made = extend_path(paths, scores, g.chains.targets, n, taken, x, g.most);
    let Ok(m) = made else {
        return made;
    };
    Ok(m + 1)
}

// The extension by an offer, whose penalty the path's score takes. A count or a total without a place in the column is NoPlace, which comes before PathSize.
fn extend_by_offer(
    paths: &mut [u32],
    scores: &mut [f64],
    active: &mut [u16],
    offer: Offer,
    g: &Setting,
    taken: Taken,
    n: u32,
) -> Result<u32, Refusal>
    requires { OfferStands (setting_of g.now) g.now.graph.edges.now g.now.trees.nodes.now g.now.chains.index.now g.now.chains.targets.now g.now.column.now paths.old scores.old active.old n taken offer }
    ensures { Gives (setting_of g.now) g.now.graph.edges.now g.now.trees.nodes.now g.now.chains.index.now g.now.chains.targets.now paths.old scores.old active.old n taken 1 (offered g.now.column.now g.now.graph.edges.now offer) result paths.new scores.new active.new }
{
    let p = log_penalty(g.column, offer.count, offer.total);
    let Ok(penalty) = p else {
        return Err(p.unwrap_err());
    };
    let way = Way {
        edge: offer.edge,
        score: scores[taken.path as usize] + penalty,
        guided: offer.guided,
        free: false,
    };
    extend_with_edges(paths, scores, active, g, taken, n, way)
}

// The same, but an extension that the repeat rule does not keep is given up: the next one takes its number.
fn try_offer(
    paths: &mut [u32],
    scores: &mut [f64],
    active: &mut [u16],
    offer: Offer,
    g: &Setting,
    taken: Taken,
    n: u32,
) -> Result<u32, Refusal>
    requires { OfferStands (setting_of g.now) g.now.graph.edges.now g.now.trees.nodes.now g.now.chains.index.now g.now.chains.targets.now g.now.column.now paths.old scores.old active.old n taken offer }
    ensures { Gives (setting_of g.now) g.now.graph.edges.now g.now.trees.nodes.now g.now.chains.index.now g.now.chains.targets.now paths.old scores.old active.old n taken 1 (tried g.now.column.now g.now.graph.edges.now offer) result paths.new scores.new active.new }
{
    let step = extend_by_offer(paths, scores, active, offer, g, taken, n);
    let Ok(m) = step else {
        return step;
    };
    let held = Paths {
        records: paths,
        scores,
    };
    if repeat_rule(held, g.chains, 0, n) {
        return Ok(m);
    }
    Ok(n)
}

// The extensions by the offers of the first `rows` rows, as records from n on. The rows are told by their number, as `applicable_next_edges` answers it.
fn extend_by_offers(
    paths: &mut [u32],
    scores: &mut [f64],
    active: &mut [u16],
    offers: &[u32],
    g: &Setting,
    taken: Taken,
    n: u32,
    rows: usize,
) -> Result<u32, Refusal>
    requires { OffersStand (setting_of g.now) g.now.graph.edges.now g.now.trees.nodes.now g.now.chains.index.now g.now.chains.targets.now g.now.column.now paths.old scores.old active.old offers.now n taken rows }
    ensures { Gives (setting_of g.now) g.now.graph.edges.now g.now.trees.nodes.now g.now.chains.index.now g.now.chains.targets.now paths.old scores.old active.old n taken 6 (all_tried g.now.column.now g.now.graph.edges.now offers.now rows) result paths.new scores.new active.new }
{
    let mut next = n;
    for row in 0..rows {
        let offer = offer_at(offers, row);
        let step = try_offer(paths, scores, active, offer, g, taken, next);
        let Ok(m) = step else {
            return step;
        };
        next = m;
    }
    Ok(next)
}

// Whether a taken path goes on by its only edge: it has an active tree, or the vertex stands in it at most once.
fn goes_on(held: Paths, chains: Chains, path: u32, v: u32) -> bool
    requires { Table chains.index.now chains.targets.now held.records.now held.scores.now (path + 1) }
    ensures { result ≡ goes_on chains.entry.index.now chains.entry.targets.now held.entry.records.now path v }
{
    held.at(path).trees > 0 || count_in_path(held, chains, 0, path, v) <= 1
}

// The extension by the only edge that leaves the vertex. The repeat rule comes first, and the score stays.
fn extend_by_only_edge(
    paths: &mut [u32],
    scores: &mut [f64],
    active: &mut [u16],
    g: &Setting,
    taken: Taken,
    n: u32,
    edge: u32,
) -> Result<u32, Refusal>
    requires { AloneStands (setting_of g.now) g.now.graph.edges.now g.now.trees.nodes.now g.now.chains.index.now g.now.chains.targets.now paths.old scores.old active.old n taken edge }
    ensures { Gives (setting_of g.now) g.now.graph.edges.now g.now.trees.nodes.now g.now.chains.index.now g.now.chains.targets.now paths.old scores.old active.old n taken 6 (alone g.now.graph.edges.now taken.vertex edge) result paths.new scores.new active.new }
{
    let held = Paths {
        records: paths,
        scores,
    };
    if !goes_on(held, g.chains, taken.path, taken.vertex) {
        return Ok(n);
    }
    let way = Way {
        edge,
        score: scores[taken.path as usize],
        guided: false,
        free: true,
    };
    extend_with_edges(paths, scores, active, g, taken, n, way)
}

// What the fork offers the taken path, as rows; the answer is how many.
fn list_offers(held: Paths, active: &[u16], offers: &mut [u32], g: &Setting, taken: Taken) -> usize
    requires { Lists (setting_of g.now) g.now.graph.vertices.now g.now.graph.edges.now g.now.trees.nodes.now held.records.now held.scores.now active.now offers.old taken }
    ensures { Listed (setting_of g.now) g.now.graph.vertices.now g.now.graph.edges.now g.now.trees.nodes.now held.entry.records.now held.entry.scores.now active.now taken offers.new result }
{
    let at = taken.path as usize * g.active;
    let count = held.at(taken.path).trees as usize;
    let fork = Junction {
        graph: g.graph,
        trees: g.trees,
        vertex: taken.vertex as usize,
        symbolic: Edge {
            from: g.sink,
            to: g.symbolic,
        },
    };
    fork.applicable_next_edges(active, at, count, g.least, offers)
}

// The extensions of the taken path at the vertex that its chain leads to, as records from n on: none where no edge leaves it, else by its only edge, or
// by what the fork offers. A refusal is NoPlace or PathSize, of the first offer that meets one.
pub fn process_vertex(
    paths: &mut [u32],
    scores: &mut [f64],
    active: &mut [u16],
    offers: &mut [u32],
    g: &Setting,
    taken: Taken,
    n: u32,
) -> Result<u32, Refusal>
    requires { Extends (setting_of g.now) g.now.graph.vertices.now g.now.graph.edges.now g.now.trees.nodes.now g.now.chains.index.now g.now.chains.targets.now g.now.column.now paths.old scores.old active.old offers.old n taken }
    ensures { Extensions (setting_of g.now) g.now.graph.vertices.now g.now.graph.edges.now g.now.trees.nodes.now g.now.chains.index.now g.now.chains.targets.now g.now.column.now paths.old scores.old active.old n taken result paths.new scores.new active.new }
{
    let mut outs = g.graph.out_edges(taken.vertex as usize);
    let Some(first) = outs.next() else {
        return Ok(n);
    };
    if outs.next().is_none() {
        return extend_by_only_edge(paths, scores, active, g, taken, n, first as u32);
    }
    let held = Paths {
        records: paths,
        scores,
    };
    let rows = list_offers(held, active, offers, g, taken);
    extend_by_offers(paths, scores, active, offers, g, taken, n, rows)
}
