// What a call is handed of a sample, as structs of lent slices: the text that kmers are places of, and the reads in it.
#![tactic(auto)]

ghost use Rattle.std.specs.Prelude.{◌≡◌, ◌<◌, length, get_or};
ghost use Rattle.definition.specs.Limits.{is_base};
ghost use Rattle.samples.specs.Handed.{text_of};

// The letters that a base is written by, N where it could not be told.
pub fn is_base(letter: u8) -> bool
    ensures { result ≡ is_base letter }
{
    matches!(letter, b'A' | b'C' | b'G' | b'T' | b'N')
}

// The text: the reference with the read bases after it.
#[derive(Clone, Copy)]
pub struct Text<'a> {
    pub reference: &'a [u8],
    pub bases: &'a [u8],
}

impl<'a> Text<'a> {
    // The byte at a place of the text.
    pub fn byte_at(self, p: usize) -> u8
        requires { p < length (text_of self) }
        ensures { result ≡ get_or (text_of self.entry) p 0 }
    {
        let n = self.reference.len();
        if p < n {
            return self.reference[p];
        }
        self.bases[p - n]
    }
}

// k, the minimum quality, the text, where each read ends in the bases, and a quality for each base.
#[derive(Clone, Copy)]
pub struct Sample<'a> {
    pub k: u32,
    pub quality: u8,
    pub text: Text<'a>,
    pub ends: &'a [u32],
    pub qualities: &'a [u8],
}
