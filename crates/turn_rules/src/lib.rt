// The rules of a turn that are told from numbers alone.
#![tactic(auto)]

ghost use Rattle.std.specs.Prelude.{◌≡◌, cond, ◌≤◌, eqb, leb, ltb};
ghost use Rattle.turn_rules.specs.Rules.{first_new};

use search_state::Progress;

// Whether as many paths have closed as are asked for.
pub fn all_closed(closed: usize, asked: usize) -> bool
    ensures { result ≡ leb asked closed }
{
    asked <= closed
}

// Whether more paths wait than may: 1,000 while nothing has closed, then 10,000.
pub fn too_many(p: Progress) -> bool
    ensures { result ≡ ltb (cond (eqb p.closed 0) 1000 10000) p.waiting }
{
    if p.closed == 0 {
        return p.waiting > 1000;
    }
    p.waiting > 10000
}

// Whether a taken path is dropped: it has more than 5 decisions since guidance.
pub fn is_dropped(since: u32) -> bool
    ensures { result ≡ ltb 5 since }
{
    since > 5
}

// The first record that is still to be pushed: a path that has closed is not.
pub fn first_new(p: Progress, q: Progress) -> u32
    requires { (p.closed ≤ q.closed) × (first_new p q ≤ q.records) }
    ensures { result ≡ first_new p q }
{
    let closed = q.closed - p.closed;
    p.records + closed as u32
}
