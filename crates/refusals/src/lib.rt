// What the calls return instead, by document 01's table. Each refusal is told first by the crate that finds the fault, and is passed up from there. The
// answer of a step of building or of the search is opened by `let .. else`, as document 01 asks; elsewhere it is passed up by `?`, or turned into the
// answer of an exported call or of the program. `Refusal.returned` of the definition is the same table, with what the workspace is afterwards.
#![tactic(auto)]

ghost use Rattle.std.specs.Prelude.{◌≡◌};
ghost use Rattle.refusals.specs.Numbers.{number, refusal_of};

#[derive(Clone, Copy, Debug, PartialEq, Eq)]
pub enum Refusal {
    // k outside limits
    K,
    // reference length
    ReferenceLength,
    // reference byte not A C G T N
    ReferenceByte,
    // read ends fall, last end (0 without reads) is not the base count, qualities differ in length, too many reads or bases
    Reads,
    // paths asked or a maximum outside limits
    Maximum,
    // column
    Column,
    // a lent slice shorter than told
    ShortSlice,
    // vertex or edge above its maximum
    GraphSize,
    // tree node above its maximum
    TreeNodes,
    // a count or total has no place in the column
    NoPlace,
    // a path's edges or active trees above their maximum
    PathSize,
    // a push beyond the maximum
    Pushes,
    // origin naming no sequence, or whose k+1 bytes do not fit it
    Origin,
    // of the program `paths`: a text or a column file that is not of its form, too long, or not read whole
    Malformed,
}

// The number that the table gives a refusal.
impl From<Refusal> for u32 {
    ghost from_gives = { λ refusal n. n ≡ number refusal };

    fn from(refusal: Refusal) -> u32 {
        match refusal {
            Refusal::K => 1,
            Refusal::ReferenceLength => 2,
            Refusal::ReferenceByte => 3,
            Refusal::Reads => 4,
            Refusal::Maximum => 5,
            Refusal::Column => 6,
            Refusal::ShortSlice => 7,
            Refusal::GraphSize => 8,
            Refusal::TreeNodes => 9,
            Refusal::NoPlace => 10,
            Refusal::PathSize => 11,
            Refusal::Pushes => 12,
            Refusal::Origin => 13,
            Refusal::Malformed => 14,
        }
    }
}

// The number of an answer: 0 where nothing is refused. (A number, for the call beside `origin_bytes` that document 01 asks to tell it.)
pub fn refusal_of<T>(answer: &Result<T, Refusal>) -> u32
    ensures { result ≡ refusal_of answer.now }
{
    match answer {
        Ok(_) => 0,
        Err(refusal) => u32::from(*refusal),
    }
}
