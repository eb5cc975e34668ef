// The way up from a path: the records that add a piece, from the path's own to the one below the start path.
ghost use Rattle.std.specs.Prelude.{◌+◌};
ghost use Rattle.std.specs.Iterator.{at_most};
ghost use Rattle.path_store.specs.Climbs.{Climbs, Begun, Steps};

use crate::records::Paths;

// A record that adds a piece, and its parent, which the piece is added to.
#[derive(Clone, Copy)]
pub struct Link {
    pub path: u32,
    pub parent: u32,
}

// The links that are left: those from `path` on.
#[derive(Clone, Drop)]
pub struct Upward<'r, 's> {
    pub paths: Paths<'r, 's>,
    pub path: u32,
}

impl<'r, 's> Paths<'r, 's> {
    // The links of a path, from its own up.
    pub fn upward(self, path: u32) -> Upward<'r, 's>
        ensures { Begun self.entry path result }
    {
        Upward { paths: self, path }
    }
}

impl<'r, 's> Iterator for Upward<'r, 's> {
    type Item = Link;

    ghost can_next = { λ s. Climbs s.paths.records.now s.paths.scores.now (s.path + 1) };

    ghost next_gives = { Steps };

    ghost remaining = { λ s. at_most s.path };

    fn next(&mut self) -> Option<Link> {
        let path = self.path;
        let parent = self.paths.at(path).above()?;
        self.path = parent;
        Some(Link { path, parent })
    }
}
