// Refusals 1 to 7 of the call for the list: the rules in their order, and whether each slice lent is as long as told.
#![tactic(auto)]

ghost use Rattle.std.specs.Prelude.{◌≡◌};
ghost use Rattle.definition.specs.Refusal.{first_broken};
ghost use Rattle.definition.specs.Limits.{is_long_enough, list_rules};
ghost use Rattle.refusals.specs.Numbers.{refusal_of};
ghost use Rattle.list_interface.specs.Handed.{handed};
ghost use Rattle.list_lent.specs.Lent.{told_of, lent_of, outputs_told, outputs_lent, graph_told, graph_lent, search_told, search_lent};

use limits::check_list;
use list_interface::Input;
use refusals::Refusal;
use slice_lengths::{LengthsTold, Workspace, lengths_within};

// The lengths of the slices lent. (No field `workspace: Workspace`, since three columns are lent, each at a length of its own, where one is told, and no open
// trees.)
#[derive(Clone, Copy)]
pub struct Lent {
    pub rows: usize,
    pub bases: usize,
    pub sequences: usize,
    pub places: usize,
    pub vertices: usize,
    pub edges: usize,
    pub index: usize,
    pub nodes: usize,
    pub targets: usize,
    pub paths: usize,
    pub scores: usize,
    pub active: usize,
    pub queue: usize,
    pub closed: usize,
    pub order: usize,
    pub marks: usize,
    pub walks: usize,
    pub row_scores: usize,
    pub row_closings: usize,
    pub row_edges: usize,
}

// ---- 7: whether each lent slice is as long as told

fn outputs_fit(told: LengthsTold, l: Lent) -> bool
    ensures { result ≡ is_long_enough (outputs_told told) (outputs_lent l) }
{
    told.paths <= l.rows
        && told.bases <= l.bases
        && told.origins <= l.sequences
        && told.origins <= l.places
}

fn graph_fits(told: Workspace, l: Lent) -> bool
    ensures { result ≡ is_long_enough (graph_told told) (graph_lent l) }
{
    told.vertices <= l.vertices
        && told.edges <= l.edges
        && told.index <= l.index
        && told.nodes <= l.nodes
        && told.targets <= l.targets
}

fn search_fits(told: Workspace, l: Lent) -> bool
    ensures { result ≡ is_long_enough (search_told told) (search_lent l) }
{
    told.paths <= l.paths
        && told.scores <= l.scores
        && told.active <= l.active
        && told.queue <= l.queue
        && told.closed <= l.closed
        && told.order <= l.order
        && told.marks <= l.marks
        && told.walks <= l.walks
        && told.columns <= l.row_scores
        && told.columns <= l.row_closings
        && told.columns <= l.row_edges
}

// 1 to 7; `check_list` is told `true`, since the lengths told are known only once the settings are, and so 7 is tested behind it.
pub fn check(input: Input, l: Lent) -> Result<(), Refusal>
    ensures { refusal_of result ≡ first_broken (list_rules (handed input.entry) (told_of (handed input.entry)) (lent_of l)) }
{
    let maxima = input.settings.maxima();
    check_list(input.sample(), maxima, input.column, true)?;
    let told = lengths_within(input.settings.k, maxima);
    if !outputs_fit(told, l) {
        return Err(Refusal::ShortSlice);
    }
    if !graph_fits(told.workspace, l) {
        return Err(Refusal::ShortSlice);
    }
    if !search_fits(told.workspace, l) {
        return Err(Refusal::ShortSlice);
    }
    Ok(())
}
