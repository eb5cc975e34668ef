// Refusals 1 to 7 of document 01 in the table's order, and after which numbers the workspace is unchanged.
#![tactic(auto)]

ghost use Rattle.std.specs.Prelude.{◌≡◌, ◌&&◌, Bool, true, List, ℕ, ℤ, eqb, length};
ghost use Rattle.laws.specs.Lists.{last_or};
ghost use Rattle.laws.specs.Numbers.{within};
ghost use Rattle.definition.specs.Refusal.{keeps_workspace, first_broken};
ghost use Rattle.definition.specs.Limits.{reference_fits, reference_bases, rising, ends_fit, graph_maxima_fit, search_maxima_fit, settings_fit, origin_rules, sample_rules, graph_rules, list_rules, is_long_enough};
ghost use Rattle.refusals.specs.Numbers.{refusal_of};
ghost use Rattle.samples.specs.Handed.{sample_of};
ghost use Rattle.limits.specs.Handed.{graph_maxima_of, search_maxima_of, input_of};
ghost use Rattle.limits.specs.Rules.{reference_rules, or_short};

use bio_ids::KmerSize;
use kbest_haplotype::column_fits;
use refusals::Refusal;
use samples::{Sample, Text, is_base};

// The caller's maxima for the graph and its trees; the symbolic vertex and edge count, and so do the roots.
#[repr(C)]
#[derive(Clone, Copy)]
pub struct GraphMaxima {
    pub vertices: u32,
    pub edges: u32,
    pub nodes: u32,
}

// The caller's maxima for the search: edges in a path, active trees in a path, pushes.
#[repr(C)]
#[derive(Clone, Copy)]
pub struct SearchMaxima {
    pub path_edges: u32,
    pub active: u32,
    pub pushes: u32,
}

// How many paths are asked, and the maxima of the graph and of the search: what the lengths of the slices go by, beside k.
#[derive(Clone, Copy)]
pub struct Maxima {
    pub asked: u32,
    pub graph: GraphMaxima,
    pub search: SearchMaxima,
}

// k, and the sequences that an origin may name: the reference, and the reads, by where each ends in the bases. (The ends have a lifetime of their own, since a
// part of the text may be held for longer than they are lent.)
#[derive(Clone, Copy)]
pub struct Sequences<'t, 'e> {
    pub k: u32,
    pub text: Text<'t>,
    pub ends: &'e [u32],
}

// A limit of the paper, both ends included.
fn in_range(low: u32, high: u32, n: u32) -> bool
    ensures { result ≡ within low high n }
{
    low <= n && n <= high
}

// "Workspace after", by the number returned: whether the table says that it is unchanged. (By the number, since that is all of a refusal that an exported
// answer holds, and who asks has only the answer.)
pub fn workspace_kept(number: u32) -> bool
    ensures { result ≡ keeps_workspace number }
{
    matches!(number, 1..=7)
}

// 2: a reference shorter than k has no kmer.
pub fn reference_fits(k: u32, reference: &[u8]) -> bool
    ensures { result ≡ reference_fits k reference.now }
{
    k as usize <= reference.len() && reference.len() <= 1024
}

// 3: unlike a read, the reference must be bases throughout, since it is threaded whole.
pub fn reference_bases(reference: &[u8]) -> bool
    ensures { result ≡ reference_bases reference.now }
{
    reference.iter().all(|letter| is_base(*letter))
}

// 4: a read that ended before the one ahead of it would have a negative length.
pub fn ends_rise(ends: &[u32]) -> bool
    ensures { result ≡ rising 0 ends.now }
{
    ends.is_sorted()
}

// Where the last read ends, which is the number of bases that the ends divide.
fn last_end(ends: &[u32]) -> u32
    ensures { result ≡ last_or 0 ends.now }
{
    ends.last().copied().unwrap_or(0)
}

// 4, of a call that is given no qualities: the ends divide all the bases, and neither reads nor bases are too many.
pub fn ends_fit(ends: &[u32], bases: &[u8]) -> bool
    ensures { result ≡ ends_fit ends.now bases.now }
{
    ends_rise(ends)
        && last_end(ends) as usize == bases.len()
        && ends.len() <= 512
        && bases.len() <= 32768
}

// 4, of a call that is given qualities: one for each base.
pub fn reads_fit(ends: &[u32], bases: &[u8], qualities: &[u8]) -> bool
    ensures { result ≡ (ends_fit ends.now bases.now
        && eqb (length qualities.now) (length bases.now)) }
{
    ends_fit(ends, bases) && qualities.len() == bases.len()
}

// 5, of the call for edges and trees.
pub fn graph_maxima_fit(g: GraphMaxima) -> bool
    ensures { result ≡ graph_maxima_fit (graph_maxima_of g) }
{
    in_range(2, 4096, g.vertices) && in_range(1, 8192, g.edges) && in_range(1, 16384, g.nodes)
}

// 5, the search's part.
pub fn search_maxima_fit(s: SearchMaxima) -> bool
    ensures { result ≡ search_maxima_fit (search_maxima_of s) }
{
    in_range(1, 4096, s.path_edges) && in_range(1, 64, s.active) && in_range(1, 32768, s.pushes)
}

// 5, of the calls that are given the paths asked.
pub fn settings_fit(m: Maxima) -> bool
    ensures { result ≡ settings_fit m.asked (graph_maxima_of m.graph) (search_maxima_of m.search) }
{
    m.asked <= 128 && graph_maxima_fit(m.graph) && search_maxima_fit(m.search)
}

// 1 to 3, which every call that is given a reference checks first.
pub fn check_reference(k: u32, reference: &[u8]) -> Result<(), Refusal>
    ensures { refusal_of result ≡ first_broken (reference_rules k reference.now) }
{
    KmerSize::try_from(k)?;
    if !reference_fits(k, reference) {
        return Err(Refusal::ReferenceLength);
    }
    if !reference_bases(reference) {
        return Err(Refusal::ReferenceByte);
    }
    Ok(())
}

// 1 to 4, of the call for the bytes at an origin.
pub fn check_origin(s: Sequences) -> Result<(), Refusal>
    ensures { refusal_of result ≡ first_broken (origin_rules s.entry.k s.entry.text.reference.now s.entry.ends.now s.entry.text.bases.now) }
{
    check_reference(s.k, s.text.reference)?;
    if !ends_fit(s.ends, s.text.bases) {
        return Err(Refusal::Reads);
    }
    Ok(())
}

// 1 to 4, of a call that threads the sample; the minimum quality may be any byte.
pub fn check_sample(sample: Sample) -> Result<(), Refusal>
    ensures { refusal_of result ≡ first_broken (sample_rules (sample_of sample.entry)) }
{
    check_reference(sample.k, sample.text.reference)?;
    if !reads_fit(sample.ends, sample.text.bases, sample.qualities) {
        return Err(Refusal::Reads);
    }
    Ok(())
}

// 1 to 7 of the call for edges and trees, which is given no column; `long_enough` says that no lent slice is shorter than told. (It is `true` for a caller that
// is told the lengths only of maxima within the limits, and so tests 7 after this call.)
pub fn check_graph(sample: Sample, g: GraphMaxima, long_enough: bool) -> Result<(), Refusal>
    ensures rules { (told lent : List ℕ) → is_long_enough told lent ≡ long_enough
        → refusal_of result ≡ first_broken (graph_rules (sample_of sample.entry) (graph_maxima_of g) told lent) }
    ensures early { long_enough ≡ true → (told lent : List ℕ) → or_short (refusal_of result) (is_long_enough told lent)
        ≡ first_broken (graph_rules (sample_of sample.entry) (graph_maxima_of g) told lent) }
{
    check_sample(sample)?;
    if !graph_maxima_fit(g) {
        return Err(Refusal::Maximum);
    }
    if !long_enough {
        return Err(Refusal::ShortSlice);
    }
    Ok(())
}

// 1 to 7 of the call for the list, with `long_enough` as above; neither the threshold nor recovery has a limit.
pub fn check_list(
    sample: Sample,
    m: Maxima,
    column: &[f64],
    long_enough: bool,
) -> Result<(), Refusal>
    ensures rules { (threshold : ℤ) (recovery : Bool) (told lent : List ℕ) → is_long_enough told lent ≡ long_enough
        → refusal_of result ≡ first_broken (list_rules
        (input_of (sample_of sample.entry) m.asked threshold recovery (graph_maxima_of m.graph) (search_maxima_of m.search) column.now)
        told lent) }
    ensures early { long_enough ≡ true → (threshold : ℤ) (recovery : Bool) (told lent : List ℕ) → or_short (refusal_of result) (is_long_enough told lent)
        ≡ first_broken (list_rules
        (input_of (sample_of sample.entry) m.asked threshold recovery (graph_maxima_of m.graph) (search_maxima_of m.search) column.now)
        told lent) }
{
    check_sample(sample)?;
    if !settings_fit(m) {
        return Err(Refusal::Maximum);
    }
    if !column_fits(column) {
        return Err(Refusal::Column);
    }
    if !long_enough {
        return Err(Refusal::ShortSlice);
    }
    Ok(())
}
