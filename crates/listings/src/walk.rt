// Goes over the commands of a graph, from its first byte on.
ghost use Rattle.std.specs.Prelude.{◌≡◌, ◌-◌, length};
ghost use Rattle.std.specs.Iterator.{at_most};
ghost use Rattle.listings.specs.Walks.{Walks};

use crate::{Placed, command_at};

// Gives each command with the place at which it stands, up to the end of the graph or what is no command.
#[derive(Clone, Copy)]
pub struct Commands<'a> {
    bytes: &'a [u8],
    at: usize,
}

impl Commands<'_> {
    pub fn of(bytes: &[u8]) -> Commands<'_>
        ensures bytes { result.bytes.now ≡ bytes.now }
        ensures start { result.at ≡ 0 }
    {
        Commands { bytes, at: 0 }
    }
}

impl Iterator for Commands<'_> {
    type Item = (usize, Placed);

    ghost next_gives = { Walks };

    ghost remaining = { λ c. at_most (length c.bytes.now - c.at) };

    fn next(&mut self) -> Option<(usize, Placed)> {
        let at = self.at;
        let placed = command_at(self.bytes, at)?;
        self.at = placed.next;
        Some((at, placed))
    }
}
