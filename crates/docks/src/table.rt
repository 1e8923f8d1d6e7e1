// The docks of a table, held in place.
ghost use Rattle.std.specs.Prelude.{◌≡◌, ◌≤◌, length};

use crate::dock::Dock;

mod methods;

// A table has at most so many docks.
pub const MOST: usize = 64;

#[derive(Clone, Copy)]
pub struct Table {
    docks: [Dock; MOST],
    count: usize,
    ghost room: { length docks ≡ 64 },
    ghost fits: { count ≤ 64 },
}
