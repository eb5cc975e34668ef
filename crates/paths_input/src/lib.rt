// What the program `paths` makes of its two inputs: the column, the text with 14 and 1 to 5, and what the call for the list is asked.
#![tactic(auto)]

ghost use Rattle.std.specs.Prelude.{◌≡◌, ◌≤◌, length};
ghost use Rattle.definition.specs.Refusal.{first_broken};
ghost use Rattle.definition.specs.Text as definition;
ghost use Rattle.refusals.specs.Numbers.{refusal_of};
ghost use Rattle.whole_input.specs.Readings.{Within, input_of};
ghost use Rattle.paths_text.specs.Sources.{Parted, Ready};
ghost use Rattle.paths_input.specs.Checking.{CheckSays};
ghost use Rattle.paths_input.specs.Columns.{ColumnTaken};
ghost use Rattle.paths_input.specs.Asked.{settings_of};

use limits::{GraphMaxima, SearchMaxima};
use list_interface::Settings;
use paths_text::check::check_text;
use paths_text::column::read_column;
use paths_text::source::{Source, read_text};
use refusals::Refusal;
use text_form::header;

// The column of a file of which `read` bytes were read into `bytes`, and how many entries it has; a file not read whole is answered like one that is
// malformed.
pub fn take_column(read: Option<usize>, bytes: &[u8], column: &mut [f64]) -> Result<usize, Refusal>
    requires { Within read (length bytes.now) × (length column.old ≡ 512) }
    ensures { ColumnTaken (definition.with (input_of read bytes.now) definition.column_of) column.new result }
{
    let n = read.ok_or(Refusal::Malformed)?;
    read_column(&bytes[..n], column).ok_or(Refusal::Malformed)
}

// 1 to 5.
fn check_source(s: Source, text: &[u8], ends: &[u32]) -> Result<(), Refusal>
    requires { Parted text.now ends.now s }
    ensures { (t : definition.Text) → Ready text.now ends.now s t
        → refusal_of result ≡ first_broken (definition.text_rules t) }
{
    let parts = s.sample(text, ends);
    check_text(s.settings, parts.text, parts.ends, parts.qualities, s.tally)
}

// The text read and checked: 14, or 1 to 5.
fn check_read(text: &mut [u8], ends: &mut [u32]) -> Result<Source, Refusal>
    requires { 512 ≤ length ends.old }
    ensures { CheckSays (definition.text_of text.old) text.new ends.new result }
{
    let s = read_text(text, ends).ok_or(Refusal::Malformed)?;
    check_source(s, text, ends)?;
    Ok(s)
}

// The same of standard input that was read into `text`; one not read whole is 14.
pub fn check_input(
    read: Option<usize>,
    text: &mut [u8],
    ends: &mut [u32],
) -> Result<Source, Refusal>
    requires { Within read (length text.old) × (512 ≤ length ends.old) }
    ensures { CheckSays (definition.with (input_of read text.old) definition.text_of) text.new ends.new result }
{
    let size = read.ok_or(Refusal::Malformed)?;
    check_read(&mut text[..size], ends)
}

// The settings of the text, with the program's maxima. (Both types are of other crates, so that no `From` may stand here.)
pub fn settings_of(s: header::Settings) -> Settings
    ensures { result ≡ settings_of s }
{
    Settings {
        k: s.k,
        quality: s.quality,
        asked: s.asked,
        threshold: s.threshold,
        recovery: s.recovery,
        graph: GraphMaxima {
            vertices: 128,
            edges: 256,
            nodes: 256,
        },
        search: SearchMaxima {
            path_edges: 128,
            active: 8,
            pushes: 128,
        },
    }
}
