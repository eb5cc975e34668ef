// The whole text, read: what the calls are handed stands in parts of the buffer that it was read into.
ghost use Rattle.std.specs.Prelude.{◌≡◌, ◌≤◌, length};
ghost use Rattle.definition.specs.Text.{text_of};
ghost use Rattle.paths_text.specs.Sources.{ungathered, Parted, Sampled, TextSays};

use crate::gather::gather;
use samples::{Sample, Text};
use text_form::header::Settings;
use text_form::reads::{Layout, Tally, read_form};

// Where the parts stand: the reference, the bases and behind them the qualities, each from its place to the next; how many ends of reads are told; and
// the reads' tally. Uneven reads, and more than 512, are not gathered, since they are refused.
// (Places, not slices: the text is changed while the reads are gathered, and what is printed is written over it, so nothing may borrow it for long.)
// (The fields of `Layout` stand here again, `reads` as `bases`: through a field `layout` the places of the parts would be told by two structs.)
#[derive(Clone, Copy)]
pub struct Source {
    pub settings: Settings,
    pub reference: usize,
    pub past: usize,
    pub bases: usize,
    pub qualities: usize,
    pub end: usize,
    pub ends: usize,
    pub tally: Tally,
}

impl Source {
    // The parts of the text, as the calls take them.
    pub fn sample<'a>(self, text: &'a [u8], ends: &'a [u32]) -> Sample<'a>
        requires { Parted text.now ends.now self }
        ensures { Sampled text.now ends.now self result }
    {
        Sample {
            k: self.settings.k,
            quality: self.settings.quality,
            text: Text {
                reference: &text[self.reference..self.past],
                bases: &text[self.bases..self.qualities],
            },
            ends: &ends[..self.ends],
            qualities: &text[self.qualities..self.end],
        }
    }
}

fn not_gathered(l: Layout) -> Source
    ensures { result ≡ ungathered l }
{
    Source {
        settings: l.settings,
        reference: l.reference,
        past: l.past,
        bases: l.reads,
        qualities: l.reads,
        end: l.reads,
        ends: 0,
        tally: l.tally,
    }
}

// A text not of the form or too long has no parts, and nothing is touched. (That there is room for 512 ends is asked here and by the functions that hand
// the slice on to this one: it is lent, so no type of this project holds it.)
pub fn read_text(text: &mut [u8], ends: &mut [u32]) -> Option<Source>
    requires { 512 ≤ length ends.old }
    ensures { TextSays (text_of text.old) text.old text.new ends.old ends.new result }
{
    let l = read_form(text)?;
    if !l.tally.even || l.tally.count > 512 {
        return Some(not_gathered(l));
    }
    let size = gather(text, ends, l.reads, l.tally.count);
    Some(Source {
        qualities: l.reads + size,
        end: l.reads + size + size,
        ends: l.tally.count,
        ..not_gathered(l)
    })
}
