// The edges of the closed paths, written out once: what compares paths and what spells them reads them there.
ghost use Rattle.std.specs.Prelude.{length};
ghost use Rattle.path_list.specs.Walked.{Walkable, Walked};

use path_edges::write_path;
use path_store::chains::Chains;
use path_store::records::Paths;

// The edges of the closed path i from place i * most on, for each of the first `count`.
pub fn write_walks(
    paths: Paths,
    chains: Chains,
    closed: &[u32],
    count: usize,
    most: usize,
    walks: &mut [u32],
)
    requires { Walkable chains.index.now chains.targets.now paths.records.now paths.scores.now closed.now count most (length walks.old) }
    ensures { Walked chains.entry.index.now chains.entry.targets.now paths.entry.records.now closed.now most count walks.old walks.new }
{
    for i in 0..count {
        write_path(paths, chains, walks, i * most, closed[i]);
    }
}
