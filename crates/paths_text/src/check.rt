// 1 to 5 as the program meets them: 4 also where a read's two lines are of unequal length, 5 also above 8 paths.
ghost use Rattle.std.specs.Prelude.{◌≡◌, List, ◌∷◌, ◌++◌, false};
ghost use Rattle.definition.specs.Refusal.{Rule, first_broken};
ghost use Rattle.definition.specs.Text as definition;
ghost use Rattle.limits.specs.Rules.{rule, reference_rules};
ghost use Rattle.refusals.specs.Numbers.{refusal_of};
ghost use Rattle.paths_text.specs.Checks.{Handed};

use refusals::Refusal;
use samples::{Sample, Text};
use text_form::header::Settings;
use text_form::reads::Tally;

// 4, unless one of 1 to 3 comes before it.
fn refuse_reads(k: u32, reference: &[u8]) -> Result<(), Refusal>
    ensures { (rest : List Rule) → refusal_of result ≡ first_broken (reference_rules k reference.now ++ (rule 4 false ∷ rest)) }
{
    limits::check_reference(k, reference)?;
    Err(Refusal::Reads)
}

// 1 to 5. The ends, bases and qualities are looked at only where the reads are even and no more than 512. (The parts come one by one: a `Sample` has a k
// and a quality too, and would have to be asked to agree with the settings beside it, while this call asks nothing.)
pub fn check_text(
    settings: Settings,
    text: Text,
    ends: &[u32],
    qualities: &[u8],
    tally: Tally,
) -> Result<(), Refusal>
    ensures { (t : definition.Text) → Handed settings text.entry.reference.now ends.now text.entry.bases.now qualities.now tally.count tally.even t
        → refusal_of result ≡ first_broken (definition.text_rules t) }
{
    if !tally.even || tally.count > 512 {
        return refuse_reads(settings.k, text.reference);
    }
    limits::check_sample(Sample {
        k: settings.k,
        quality: settings.quality,
        text,
        ends,
        qualities,
    })?;
    if settings.asked > 8 {
        return Err(Refusal::Maximum);
    }
    Ok(())
}
