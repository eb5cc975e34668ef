// The waiting paths: a binary heap of record numbers, by their scores.
// In a lent slice, since std's BinaryHeap allocates; n stands beside it, since a push needs the places behind the n.
#![tactic(auto)]

ghost use Rattle.std.specs.Prelude.{◌≡◌, ℕ, ◌+◌, ◌-◌, ◌*◌, ◌<◌, ◌≤◌, length};
ghost use Rattle.laws.specs.Heaps.{above, nth, Child, Raisable, Raised, Sunk};
ghost use Rattle.path_heap.specs.First.{Known, leads};
ghost use Rattle.path_heap.specs.Heap.{ScoreHeap, Pushable, Pushed, Popped};

// The path a is taken before the path b: the greater score, and of equal scores the earlier push. (HeapItem::cmp)
fn leads(scores: &[f64], a: u32, b: u32) -> bool
    requires { Known scores.now a × Known scores.now b }
    ensures { result ≡ leads scores.now a b }
{
    let x = scores[a as usize];
    let y = scores[b as usize];
    // Tried, and slower: `(y, a) < (x, b)` takes three times as long; `if x == y { a < b } else { y < x }` makes the whole call on the hardest queue a
    // sixteenth longer.
    if y < x {
        return true;
    }
    if x < y {
        return false;
    }
    a < b
}

// Of the two places below i, the one whose path is taken first.
fn child(queue: &[u32], m: usize, scores: &[f64], i: usize) -> usize
    requires { (m ≤ length queue.now) × (2 * i + 1 < m) × ((j : ℕ) → 0 < j → j < m → above j ≡ i → Known scores.now (nth queue.now j)) }
    ensures { Child (leads scores.now) queue.now m i result }
{
    let a = 2 * i + 1;
    let b = a + 1;
    if b >= m {
        return a;
    }
    if leads(scores, queue[b], queue[a]) {
        return b;
    }
    a
}

// The path rises from the hole, one of the n places of queue[..n], past each path that it is taken before.
fn raise(queue: &mut [u32], n: usize, scores: &[f64], hole: usize, path: u32)
    requires { Raisable (leads scores.now) (Known scores.now) queue.old n hole path }
    ensures { Raised (leads scores.now) (Known scores.now) queue.old n hole path queue.new }
{
    let mut i = hole;
    // The heap lies in a lent slice, since there is no heap memory for std's `BinaryHeap`; i halves.
    while i > 0 {
        let p = (i - 1) / 2;
        let q = queue[p];
        if !leads(scores, path, q) {
            queue[i] = path;
            return;
        }
        queue[i] = q;
        i = p;
    }
    queue[i] = path;
}

// The hole goes from the root of queue[..m] down to a leaf, with one comparison a level, since the path that fills it is not looked at.
fn sink_hole(queue: &mut [u32], m: usize, scores: &[f64]) -> usize
    requires { ScoreHeap scores.now queue.old m × (0 < m) }
    ensures { Sunk (leads scores.now) (Known scores.now) queue.old m queue.new result × (m ≤ 2 * result + 1) }
{
    let mut i: usize = 0;
    // i goes to one of the two places below it.
    while 2 * i + 1 < m {
        let c = child(queue, m, scores, i);
        queue[i] = queue[c];
        i = c;
    }
    i
}

// The path joins the n that wait in queue[..n].
pub fn heap_push(queue: &mut [u32], n: usize, scores: &[f64], path: u32)
    requires { Pushable scores.now queue.old n path }
    ensures { Pushed scores.now queue.old n path queue.new }
{
    raise(queue, n + 1, scores, n, path);
}

// The first of the n that wait in queue[..n]; the others wait in queue[..n - 1].
pub fn heap_pop(queue: &mut [u32], n: usize, scores: &[f64]) -> u32
    requires { ScoreHeap scores.now queue.old n × (0 < n) }
    ensures { Popped scores.now queue.old n result queue.new }
{
    let top = queue[0];
    let m = n - 1;
    if m == 0 {
        return top;
    }
    let v = queue[m];
    // The last path comes from a leaf and mostly stays near one.
    let i = sink_hole(queue, m, scores);
    raise(queue, m, scores, i, v);
    top
}
