// What the search of the call for the list is set up with: the numbers that it goes by, and the tables of the chains.
// The slices that are written stay parameters one by one: held in a struct, each contract would have to say of each which slice was lent.
#![tactic(auto)]

ghost use Rattle.search_state.specs.Settings.{setting_of};
ghost use Rattle.search_setup.specs.Chains.{Chains, Chained, Small, SettingFor, Reads};

use assembly::link_symbolic_edge;
use fork_offers::least_total;
use graph_work::Raise;
use list_interface::Settings;
use out_edges::Graph;
use path_store::chains;
use search_ground::chain_tables;
use search_state::Setting;
use threading_tree::Trees;

// What the search goes by: the raised graph and its trees, the chains, the column, and the caller's numbers.
pub fn search_setting<'a>(
    a: Settings,
    b: Raise,
    vertices: &'a [u32],
    edges: &'a [u32],
    nodes: &'a [u32],
    index: &'a [u32],
    targets: &'a [u32],
    column: &'a [f64],
) -> Setting<'a>
    requires { Small b }
    ensures numbers { SettingFor a b (setting_of result) }
    ensures slices { Reads result vertices.now edges.now nodes.now index.now targets.now column.now }
{
    Setting {
        graph: Graph {
            vertices,
            edges,
            count: b.built.edges + 1,
        },
        trees: Trees {
            nodes,
            count: b.nodes,
            cap: a.graph.nodes as usize,
        },
        chains: chains::Chains { index, targets },
        column,
        sink: b.built.sink as u32,
        symbolic: b.built.vertices as u32,
        least: least_total(a.threshold),
        most: a.search.path_edges,
        active: a.search.active as usize,
        pushes: a.search.pushes as usize,
        asked: a.asked as usize,
    }
}

// The symbolic edge joins the out-edges, and the tables of the chains are filled.
pub fn lay_chains(
    b: Raise,
    vertices: &mut [u32],
    edges: &[u32],
    index: &mut [u32],
    targets: &mut [u32],
)
    requires { Chains vertices.old edges.now index.old targets.old b }
    ensures { Chained vertices.old edges.now b vertices.new index.new targets.new }
{
    link_symbolic_edge(vertices, b.built.sink, b.built.edges);
    let graph = Graph {
        vertices,
        edges,
        count: b.built.edges + 1,
    };
    chain_tables(graph, b.built.sink, index, targets);
}
