// The kmer size of `bio_ids.rs`, and document 01's limit on it.
#![tactic(auto)]

ghost use Rattle.std.specs.Prelude.{◌≡◌};
ghost use Rattle.bio_ids.specs.Sizes.{size_of, at_least_two, Sized};

use refusals::Refusal;

// The number of bases of a kmer, made by `try_new`.
#[derive(Clone, Copy, Debug, PartialEq, Eq)]
pub struct KmerSize(pub u16);

impl KmerSize {
    // A kmer of fewer than two bases has no edge to follow, so it is turned down.
    pub fn try_new(k: u16) -> Result<KmerSize, Refusal>
        ensures { size_of result ≡ at_least_two k }
    {
        if k < 2 {
            return Err(Refusal::K);
        }
        Ok(KmerSize(k))
    }

    // Wide enough to count the bases of a slice.
    pub fn get(self) -> usize
        ensures { result ≡ self.0 }
    {
        usize::from(self.0)
    }
}

// The size of a k within the calls' limits, 2 to 128; the upper limit comes first, since only then does k fit a kmer size.
impl TryFrom<u32> for KmerSize {
    type Error = Refusal;

    ghost try_from_gives = { Sized };

    fn try_from(k: u32) -> Result<KmerSize, Refusal> {
        if k > 128 {
            return Err(Refusal::K);
        }
        KmerSize::try_new(k as u16)
    }
}
