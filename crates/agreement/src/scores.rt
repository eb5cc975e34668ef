// Whether scores are as told: a score is told by the upper and the lower half of its bits.
ghost use Rattle.std.specs.Prelude.{◌≡◌, true, ◌+◌, ◌*◌};
ghost use Rattle.std.specs.Float.{binary64};
ghost use Rattle.std.specs.Float.Ieee.{to_bits};

use crate::agree::Element;

// The bits of 1.5, which every score holds that is lent.
pub const LENT_BITS: u64 = 4609434218613702656;

impl Element for f64 {
    ghost shown = { to_bits binary64 };

    ghost LENT = { 4609434218613702656 };

    const LENT: u64 = LENT_BITS;

    fn is(self, number: u64) -> bool {
        score_is(self, number)
    }
}

pub fn joined(upper: u32, lower: u32) -> u64
    ensures { result ≡ upper * 4294967296 + lower }
{
    u64::from(upper) * 4294967296 + u64::from(lower)
}

// A NaN is no score: it has no bits.
pub fn score_is(score: f64, bits: u64) -> bool
    ensures { result ≡ true → to_bits binary64 score ≡ bits }
{
    !score.is_nan() && score.to_bits() == bits
}
