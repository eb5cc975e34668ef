// The reads brought together where they stand: all bases one behind the other from the place where the reads begin, and all qualities behind them. So no
// second buffer is needed.
ghost use Rattle.std.specs.Prelude.{◌≡◌, List, ◌++◌, ◌+◌, ◌≤◌, length, take, drop};
ghost use Rattle.std.proofs.Math.Option.{some};
ghost use Rattle.std.proofs.Math.Seq.{slice};
ghost use Rattle.definition.specs.Text.{ReadLines, values};
ghost use Rattle.definition.specs.Calls.{written_at};
ghost use Rattle.text_form.specs.Reads.{reads_from};
ghost use Rattle.paths_text.specs.Moves.{Moves, lessened, Joins};
ghost use Rattle.paths_text.specs.Gather.{Gathers, Gathered, Nexts, Nexted};

use text_form::reads::read_pair;

// How far the reads are gathered: the place of the next one, the bases of those before it, and how many these are.
#[derive(Clone, Copy)]
pub struct Gathering {
    pub at: usize,
    pub bases: usize,
    pub reads: usize,
}

// The bytes between two places, moved to a place before them, each smaller by `less`. (By place: both parts lie in the one buffer, which no iterator lends
// twice.)
fn move_bytes(text: &mut [u8], from: usize, to: usize, dest: usize, less: u8)
    requires { Moves text.old from to dest less }
    ensures { text.new ≡ written_at dest (lessened less (slice from to text.old)) text.old }
{
    for i in 0..to - from {
        text[dest + i] = text[from + i] - less;
    }
}

// Two parts side by side change places. (Not by `rotate_left`, which copies the shorter part through a room of its own on the stack.)
fn rotate(text: &mut [u8], a: usize, m: usize, e: usize)
    requires { (a ≤ m) × (m ≤ e) × (e ≤ length text.old) }
    ensures { text.new ≡ take a text.old ++ (slice m e text.old ++ (slice a m text.old ++ drop e text.old)) }
{
    text[a..m].reverse();
    text[m..e].reverse();
    text[a..e].reverse();
}

// The read's bases join those that end at `end`, and its qualities the `size` qualities behind them.
fn join_read(text: &mut [u8], end: usize, size: usize, at: usize, bases: usize, qualities: usize)
    requires { Joins text.old end size at bases qualities }
    ensures { text.new ≡ written_at end
        (slice at bases text.old ++ (slice end (end + size) text.old ++ values (slice (bases + 1) qualities text.old)))
        text.old }
{
    let behind = end + size;
    let more = bases - at;
    move_bytes(text, at, bases, behind, 0);
    move_bytes(text, bases + 1, qualities, behind + more, 33);
    rotate(text, end, behind, behind + more);
}

// One read more is gathered.
fn next_read(text: &mut [u8], ends: &mut [u32], from: usize, g: Gathering) -> Gathering
    requires { Nexts text.old ends.old from g }
    ensures { Nexted text.old ends.old text.new ends.new from g result }
{
    let at = g.at;
    let size = g.bases;
    let read = g.reads;
    let lines = read_pair(text, at).unwrap();
    let more = size + (lines.bases - at);
    join_read(text, from + size, size, at, lines.bases, lines.qualities);
    ends[read] = more as u32;
    Gathering {
        at: lines.qualities + 1,
        bases: more,
        reads: read + 1,
    }
}

// All reads are gathered; the number of bases is told, and that of the qualities is the same. (The ends are lent for the most reads that are gathered, so
// how many reads there are is told beside them.)
pub fn gather(text: &mut [u8], ends: &mut [u32], from: usize, count: usize) -> usize
    requires { Gathers text.old ends.old from count }
    ensures { (reads : List ReadLines) → reads_from text.old from ≡ some reads
        → Gathered text.old ends.old text.new ends.new from reads result }
{
    let mut g = Gathering {
        at: from,
        bases: 0,
        reads: 0,
    };
    for _i in 0..count {
        g = next_read(text, ends, from, g);
    }
    g.bases
}
