// The lines behind the first: the reference, and two lines a read.
ghost use Rattle.std.specs.Prelude.{◌≡◌, ◌<◌, ◌≤◌, length};
ghost use Rattle.laws.specs.Lists.{all};
ghost use Rattle.definition.specs.Text.{is_quality, text_of};
ghost use Rattle.text_form.specs.Reads.{reads_from, PairSays, ScanSays, FormSays};

use crate::header::{Settings, read_header};
use crate::numbers::find_byte;

// Where a read's two lines end.
#[derive(Clone, Copy)]
pub struct Lines {
    pub bases: usize,
    pub qualities: usize,
}

// How many reads there are, and whether each one's two lines are of equal length.
#[derive(Clone, Copy)]
pub struct Tally {
    pub count: usize,
    pub even: bool,
}

// A text of the form: its settings, where the reference begins and the place past it, where the reads begin, and their tally.
// (Places, not slices: the text is changed after it was read.)
#[derive(Clone, Copy)]
pub struct Layout {
    pub settings: Settings,
    pub reference: usize,
    pub past: usize,
    pub reads: usize,
    pub tally: Tally,
}

// Every byte is a quality: bytes 33 to 126 are the graphic ones.
fn qualities_fit(line: &[u8]) -> bool
    ensures { result ≡ all is_quality line.now }
{
    line.iter().all(|byte| byte.is_ascii_graphic())
}

// The two lines of the read at a place.
pub fn read_pair(text: &[u8], at: usize) -> Option<Lines>
    requires { at < length text.now }
    ensures { PairSays text.now at result }
{
    let bases = at + find_byte(&text[at..], b'\n')?;
    let qualities = bases + 1 + find_byte(&text[bases + 1..], b'\n')?;
    if !qualities_fit(&text[bases + 1..qualities]) {
        return None;
    }
    Some(Lines { bases, qualities })
}

// The tally of the reads from a place on.
fn scan_reads(text: &[u8], from: usize) -> Option<Tally>
    requires { from ≤ length text.now }
    ensures { ScanSays result (reads_from text.now from) }
{
    let mut at = from;
    let mut count: usize = 0;
    let mut even = true;
    // No iterator: a pair of lines may be malformed and then ends the scan, so each item would be an Option, and no other loop could use it, since the one
    // that gathers the reads changes the text.
    while at < text.len() {
        let lines = read_pair(text, at)?;
        let same = lines.bases - at == lines.qualities - lines.bases - 1;
        even = even && same;
        at = lines.qualities + 1;
        count += 1;
    }
    Some(Tally { count, even })
}

// Where all parts of the text stand; a text not of the form or too long has none.
pub fn read_form(text: &[u8]) -> Option<Layout>
    ensures { FormSays text.now result (text_of text.now) }
{
    if text.len() > 8192 {
        return None;
    }
    let first = find_byte(text, b'\n')?;
    let second = first + 1 + find_byte(&text[first + 1..], b'\n')?;
    let settings = read_header(&text[..first])?;
    let tally = scan_reads(text, second + 1)?;
    Some(Layout {
        settings,
        reference: first + 1,
        past: second,
        reads: second + 1,
        tally,
    })
}
