// The usable stretches of a read: which bytes are usable, and its runs of them, one after the other.
#![tactic(auto)]

ghost use Rattle.std.specs.Prelude.{◌≡◌, ◌+◌, ◌-◌, ◌≤◌, length};
ghost use Rattle.std.specs.Iterator.{at_most};
ghost use Rattle.definition.specs.Stretch.{usable};
ghost use Rattle.usable_stretches.specs.Runs.{RunEnd};
ghost use Rattle.usable_stretches.specs.Turns.{Lies, Begun, Steps};

use samples::{Sample, is_base};

// Whether a read's byte b, of quality q, is usable. (The quality is looked at first: it takes one comparison, and the letter a handful of steps.)
fn is_usable(quality: u8, b: u8, q: u8) -> bool
    ensures { result ≡ usable quality b q }
{
    quality <= q && is_base(b)
}

// Where the usable run at place p of the bases ends: at the next unusable byte, or at `end`. (By a loop: with `find` a read of bytes that are not usable took
// a third more instructions. It is given slices and not the sample, as who asks for one run may have no sample.)
pub fn run_end(bases: &[u8], qualities: &[u8], quality: u8, p: usize, end: usize) -> usize
    requires { (p ≤ end) × (end ≤ length bases.now) × (end ≤ length qualities.now) }
    ensures { RunEnd (usable quality) bases.now qualities.now p end result }
{
    for q in p..end {
        if !is_usable(quality, bases[q], qualities[q]) {
            return q;
        }
    }
    end
}

// A run of a read: its bytes from `from` to `to` are usable, the next is not or is the read's end. It is empty where the byte at `from` is not usable.
#[derive(Clone, Copy)]
pub struct Run {
    pub from: usize,
    pub to: usize,
}

// The runs that are left of a read that ends at `end` of the sample's bases: those from place `at` on.
#[derive(Clone, Drop)]
pub struct Runs<'a> {
    pub sample: Sample<'a>,
    pub at: usize,
    pub end: usize,
}

// The runs of the read that lies from `start` to `end` of the bases.
pub fn usable_runs<'a>(sample: Sample<'a>, start: usize, end: usize) -> Runs<'a>
    ensures { Begun sample.entry start end result }
{
    Runs {
        sample,
        at: start,
        end,
    }
}

impl<'a> Iterator for Runs<'a> {
    type Item = Run;

    ghost can_next = { Lies };

    ghost next_gives = { Steps };

    ghost remaining = { λ s. at_most (s.end + 1 - s.at) };

    fn next(&mut self) -> Option<Run> {
        if self.at >= self.end {
            return None;
        }
        let from = self.at;
        let s = &self.sample;
        let to = run_end(s.text.bases, s.qualities, s.quality, from, self.end);
        // The byte that ends a run is in none.
        self.at = to + 1;
        Some(Run { from, to })
    }
}
