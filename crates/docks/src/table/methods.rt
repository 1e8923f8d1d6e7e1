// How a table is made and read.
ghost use Rattle.std.specs.Prelude.{◌≡◌, ◌<◌, ◌≤◌, [], ◌∷◌, ◌++◌, map, length};
ghost use Rattle.docks.specs.Views.{entry_of, entries};

use super::{MOST, Table};
use crate::dock::Dock;

impl Table {
    pub(crate) fn new() -> Table
        ensures { entries result ≡ [] }
    {
        Table {
            docks: [Dock::default(); MOST],
            count: 0,
        }
    }

    pub fn docks(&self) -> &[Dock]
        ensures value { map entry_of result.now ≡ entries self.now }
        ensures bound { length result.now ≤ 64 }
    {
        &self.docks[0..self.count]
    }

    pub fn len(&self) -> usize
        ensures value { result ≡ length (entries self.now) }
        ensures bound { result ≤ 64 }
    {
        self.docks().len()
    }

    pub(crate) fn push(&mut self, dock: Dock)
        requires { length (entries self.old) < 64 }
        ensures { entries self.new ≡ entries self.old ++ entry_of dock ∷ [] }
    {
        self.docks[self.count] = dock;
        self.count += 1;
    }
}

// A table of no docks.
impl Default for Table {
    ghost is_default = { λ t. entries t ≡ [] };

    fn default() -> Table {
        Table::new()
    }
}
