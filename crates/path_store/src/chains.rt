// Chains of single edges. Each walk is a `for` over as many steps as are told and follows the links, so that it counts no index.
ghost use Rattle.std.specs.Prelude.{◌≡◌, ◌+◌, ◌-◌, ◌<◌, ◌≤◌, eqb, length, get_or};
ghost use Rattle.std.proofs.lemmas.List.Edits.{sets};
ghost use Rattle.laws.specs.Lists.{any};
ghost use Rattle.path_store.specs.Walk.{Graph, Runs, after, run, next, sole, hits};
ghost use Rattle.path_store.specs.Cells.{numbered};
ghost use Rattle.path_store.specs.Steps.{Plain, Chained};

// The length of a chain, and the vertex that it leads to.
#[derive(Clone, Copy)]
pub struct Chain {
    pub steps: usize,
    pub vertex: u32,
}

// `index` has for each vertex the number + 1 of its sole out-edge where a chain goes on there, else 0; `targets` has each edge's target. That the two fit
// together, `Graph`, stays in the contracts: as an invariant of the type it would be asked of `sole`, and of those who make a `Chains` of any two slices.
#[derive(Clone, Copy)]
pub struct Chains<'i, 't> {
    pub index: &'i [u32],
    pub targets: &'t [u32],
}

impl<'i, 't> Chains<'i, 't> {
    // The sole edge at a vertex, if a chain goes on there.
    fn onward(self, v: u32) -> Option<u32>
        requires { v < length self.index.now }
        ensures { result ≡ numbered (get_or self.entry.index.now v 0) }
    {
        self.index[v as usize].checked_sub(1)
    }

    // The sole edge at a vertex where a chain is known to go on. (No Option, since its other arm would be tested at each step, which was tried, and slower.)
    pub fn sole(self, v: u32) -> u32
        requires { (v < length self.index.now) × (0 < get_or self.index.now v 0) }
        ensures { result ≡ sole self.entry.index.now v }
    {
        self.index[v as usize] - 1
    }

    // Where that edge leads.
    pub fn next(self, v: u32) -> u32
        requires { Graph self.index.now self.targets.now × (v < length self.index.now) × (0 < get_or self.index.now v 0) }
        ensures { result ≡ next self.entry.index.now self.entry.targets.now v }
    {
        self.targets[self.sole(v) as usize]
    }

    // The steps from v until a stop, or as many as there are edges.
    fn chain_plain(self, v: u32) -> Chain
        requires { Graph self.index.now self.targets.now × (v < length self.index.now) }
        ensures { Plain self.entry.index.now self.entry.targets.now v (length self.entry.targets.now) result.steps × (result.vertex ≡ after self.entry.index.now self.entry.targets.now v result.steps) }
    {
        let mut u = v;
        for steps in 0..self.targets.len() {
            let Some(e) = self.onward(u) else {
                return Chain { steps, vertex: u };
            };
            u = self.targets[e as usize];
        }
        Chain {
            steps: self.targets.len(),
            vertex: u,
        }
    }

    // The edge e is one of the n that follow v.
    fn among_chain(self, v: u32, n: usize, e: u32) -> bool
        requires { Graph self.index.now self.targets.now × (v < length self.index.now) × Runs self.index.now self.targets.now v n }
        ensures { result ≡ any (eqb e) (run self.entry.index.now self.entry.targets.now v n) }
    {
        let mut u = v;
        for _ in 0..n {
            if e == self.sole(u) {
                return true;
            }
            u = self.next(u);
        }
        false
    }

    // The length of the chain of v where it may close a ring: each edge is looked up among those before it.
    fn chain_slow(self, v: u32) -> usize
        requires { Graph self.index.now self.targets.now × (v < length self.index.now) }
        ensures { Chained self.entry.index.now self.entry.targets.now v result }
    {
        let mut u = v;
        for i in 0..self.targets.len() {
            let Some(e) = self.onward(u) else {
                return i;
            };
            if self.among_chain(v, i, e) {
                return i;
            }
            u = self.targets[e as usize];
        }
        self.targets.len()
    }

    // The vertex c steps after v.
    pub fn walk(self, v: u32, c: usize) -> u32
        requires { Graph self.index.now self.targets.now × (v < length self.index.now) × Runs self.index.now self.targets.now v c }
        ensures { result ≡ after self.entry.index.now self.entry.targets.now v c }
    {
        let mut u = v;
        for _ in 0..c {
            u = self.next(u);
        }
        u
    }

    // The chain of v. A run that stops within the number of edges meets no edge twice, so the slow way is left for rings.
    pub fn chain_from(self, v: u32) -> Chain
        requires { Graph self.index.now self.targets.now × (v < length self.index.now) }
        ensures { Chained self.entry.index.now self.entry.targets.now v result.steps × (result.vertex ≡ after self.entry.index.now self.entry.targets.now v result.steps) }
    {
        let c = self.chain_plain(v);
        if c.steps < self.targets.len() {
            return c;
        }
        let steps = self.chain_slow(v);
        Chain {
            steps,
            vertex: self.walk(v, steps),
        }
    }

    // How often v stands among the c vertices that follow the start.
    pub fn count_chain(self, start: u32, c: u32, v: u32) -> usize
        requires { Graph self.index.now self.targets.now × (start < length self.index.now) × Runs self.index.now self.targets.now start c }
        ensures { result ≡ hits self.entry.targets.now v (run self.entry.index.now self.entry.targets.now start c) }
    {
        let mut u = start;
        let mut n: usize = 0;
        for _ in 0..c {
            u = self.next(u);
            n += usize::from(v == u);
        }
        n
    }

    // The c edges that follow the start, from the place at on.
    pub fn write_chain(self, out: &mut [u32], at: usize, start: u32, c: u32)
        requires { Graph self.index.now self.targets.now × (start < length self.index.now) × Runs self.index.now self.targets.now start c × (at + c ≤ length out.old) }
        ensures { out.new ≡ sets out.old at (run self.entry.index.now self.entry.targets.now start c) }
    {
        let mut u = start;
        for place in &mut out[at..at + c as usize] {
            *place = self.sole(u);
            u = self.next(u);
        }
    }
}
