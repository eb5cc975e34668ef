// What the call for the list is asked, and what it answers.
#![tactic(auto)]

ghost use Rattle.std.specs.Prelude.{◌≡◌};
ghost use Rattle.refusals.specs.Numbers.{number};
ghost use Rattle.samples.specs.Handed.{sample_of};
ghost use Rattle.list_interface.specs.Answers.{refused_answer, found_answer, Told32};
ghost use Rattle.list_interface.specs.Handed.{maxima_of, handed};

use limits::{GraphMaxima, Maxima, SearchMaxima};
use refusals::Refusal;
use samples::{Sample, Text};
use search_state::Progress;

// What a run is asked for: k, the minimum quality, the number of paths, the threshold, recovery, and the maxima.
#[repr(C)]
#[derive(Clone, Copy)]
pub struct Settings {
    // the kmer size
    pub k: u32,
    // the minimum quality: a base below it is not used
    pub quality: u8,
    // paths asked
    pub asked: u32,
    // the evidence threshold, any number
    pub threshold: i32,
    // whether paths are recovered
    pub recovery: bool,
    pub graph: GraphMaxima,
    pub search: SearchMaxima,
}

impl Settings {
    // What the lengths go by beside k. (The fields stay loose here, as C reads them.)
    pub fn maxima(self) -> Maxima
        ensures { result ≡ maxima_of self }
    {
        Maxima {
            asked: self.asked,
            graph: self.graph,
            search: self.search,
        }
    }
}

// What the call for the list is handed: the settings and, lent to be read, the text, where each read ends in the bases, a quality for each base, and the
// logarithm column. (The slices that are written stay parameters one by one, as the exported call lends them. No field `sample`: k and the quality stand
// in the settings, as C reads them, and would stand here twice.)
#[derive(Clone, Copy)]
pub struct Input<'a> {
    pub settings: Settings,
    pub text: Text<'a>,
    pub ends: &'a [u32],
    pub qualities: &'a [u8],
    pub column: &'a [f64],
}

impl<'a> Input<'a> {
    // The sample that is threaded: all but what the search alone reads.
    pub fn sample(self) -> Sample<'a>
        ensures { sample_of result ≡ (handed self.entry).sample }
    {
        Sample {
            k: self.settings.k,
            quality: self.settings.quality,
            text: self.text,
            ends: self.ends,
            qualities: self.qualities,
        }
    }
}

// The answer of the call for the list, for C: the number of a refusal, or 0 and how many paths are listed, the pushes made, and the waiting mark.
#[repr(C)]
#[derive(Clone, Copy, Default)]
pub struct ListAnswer {
    pub refusal: u32,
    pub paths: u32,
    pub pushes: u32,
    // no less than the longest waiting list, no more than the pushes
    pub mark: u32,
}

// A refused answer holds 0 in every other field.
impl From<Refusal> for ListAnswer {
    ghost from_gives = { λ refusal answer. answer ≡ refused_answer (number refusal) };

    fn from(refusal: Refusal) -> ListAnswer {
        ListAnswer {
            refusal: u32::from(refusal),
            ..ListAnswer::default()
        }
    }
}

// The answer of a search that has ended; a function and no `From`, which may not ask that the numbers fit.
pub fn found_answer(p: Progress) -> ListAnswer
    requires { Told32 p }
    ensures { result ≡ found_answer p }
{
    ListAnswer {
        refusal: 0,
        paths: p.closed as u32,
        pushes: p.pushes as u32,
        mark: p.mark as u32,
    }
}
