// The call for the bytes at an origin, and the call beside it that tells the refusal's number.
#![tactic(auto)]

ghost use Rattle.std.specs.Prelude.{◌≡◌, ◌≤◌, Bool, length};
ghost use Rattle.definition.specs.Calls.{origin_call};
ghost use Rattle.refusals.specs.Numbers.{number};
ghost use Rattle.assembly.specs.Moves.{origin_of};
ghost use Rattle.origins.specs.Reads.{start_of};
ghost use Rattle.origins.specs.Parts.{found_in, found_of, fitted, Located, refused_part, Names};

use assembly::Origin;
use limits::{Sequences, check_origin};
use refusals::{Refusal, refusal_of};

// Where a part of k + 1 bytes starts: in the reference or in the read bases.
#[derive(Clone, Copy, Debug, PartialEq, Eq)]
pub enum Part {
    Reference(usize),
    Reads(usize),
}

// Where a read, counted from 0, starts in the read bases: where the one before it ends.
fn read_start(ends: &[u32], read: usize) -> usize
    requires { read ≤ length ends.now }
    ensures { result ≡ start_of ends.now read }
{
    if read < 1 {
        return 0;
    }
    ends[read - 1] as usize
}

// Where the part at a place of a sequence of `length` bytes that starts at `start` begins, or 13 where k + 1 bytes do not fit it.
fn fit(k: u32, start: usize, length: usize, place: u32) -> Result<usize, Refusal>
    requires { (k ≤ 128) × (start ≤ 32768) }
    ensures { (in_reads : Bool) → found_in in_reads result ≡ fitted k in_reads start length place }
{
    let from = place as usize;
    if from + k as usize + 1 <= length {
        return Ok(start + from);
    }
    Err(Refusal::Origin)
}

// The part that an origin names, or its refusal.
pub fn find_origin(s: Sequences, origin: Origin) -> Result<Part, Refusal>
    ensures { Located s.entry.k s.entry.text.reference.now s.entry.ends.now s.entry.text.bases.now (origin_of origin) (found_of result) }
{
    check_origin(s)?;
    if origin.sequence < 1 {
        let start = fit(s.k, 0, s.text.reference.len(), origin.place)?;
        return Ok(Part::Reference(start));
    }
    let read = origin.sequence as usize - 1;
    if read >= s.ends.len() {
        return Err(Refusal::Origin);
    }
    let start = read_start(s.ends, read);
    let length = s.ends[read] as usize - start;
    let at = fit(s.k, start, length, origin.place)?;
    Ok(Part::Reads(at))
}

// The k + 1 bytes at an origin, a part of the reference or of the read bases; on refusal that part is empty, as document 01 has it.
pub fn origin_bytes<'t>(s: Sequences<'t, '_>, origin: Origin) -> &'t [u8]
    ensures { result.now ≡ (origin_call s.entry.k s.entry.text.reference.now s.entry.ends.now s.entry.text.bases.now (origin_of origin)).bytes }
{
    let length = s.k as usize + 1;
    match find_origin(s, origin) {
        Ok(Part::Reads(start)) => &s.text.bases[start..start + length],
        Ok(Part::Reference(start)) => &s.text.reference[start..start + length],
        Err(_) => &s.text.reference[0..0],
    }
}

// The number of an origin's refusal, 0 where its bytes can be handed back: a number, since document 01 asks for a call beside `origin_bytes` that tells it.
pub fn origin_refusal(s: Sequences, origin: Origin) -> u32
    ensures { result ≡ (origin_call s.entry.k s.entry.text.reference.now s.entry.ends.now s.entry.text.bases.now (origin_of origin)).refusal }
{
    let found = find_origin(s, origin);
    refusal_of(&found)
}

// An origin's part for C, which takes no slice back: the number of a refusal, or 0 and start and length in the read bases (1) or in the reference (0).
#[repr(C)]
#[derive(Clone, Copy, Default)]
pub struct OriginAnswer {
    pub refusal: u32,
    pub in_reads: u32,
    pub start: usize,
    pub length: usize,
}

// A refused answer holds 0 in every other field.
impl From<Refusal> for OriginAnswer {
    ghost from_gives = { λ refusal answer. answer ≡ refused_part (number refusal) };

    fn from(refusal: Refusal) -> OriginAnswer {
        OriginAnswer {
            refusal: u32::from(refusal),
            ..OriginAnswer::default()
        }
    }
}

// As `origin_bytes` and `origin_refusal` together.
pub fn origin_part(s: Sequences, origin: Origin) -> OriginAnswer
    ensures { Names s.entry.k s.entry.text.reference.now s.entry.ends.now s.entry.text.bases.now (origin_of origin)
        (origin_call s.entry.k s.entry.text.reference.now s.entry.ends.now s.entry.text.bases.now (origin_of origin)) result }
{
    let length = s.k as usize + 1;
    match find_origin(s, origin) {
        Ok(Part::Reads(start)) => OriginAnswer {
            refusal: 0,
            in_reads: 1,
            start,
            length,
        },
        Ok(Part::Reference(start)) => OriginAnswer {
            refusal: 0,
            in_reads: 0,
            start,
            length,
        },
        Err(refusal) => OriginAnswer::from(refusal),
    }
}
