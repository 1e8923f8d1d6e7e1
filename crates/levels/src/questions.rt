// What a stored level answers, the same for every format.
ghost use Rattle.std.specs.Prelude.{◌≡◌, ℕ, length, IfSome, Some, slice_index_or};
ghost use Rattle.model.specs.Fibers.{Ascends, coords, fiber, at_of, child};
ghost use Rattle.levels.specs.Stored.{level_of};

use crate::family::Formats;
use crate::stored::StoredLevel;

impl StoredLevel<'_> {
    // How many coordinates fiber p has; none where there is no such fiber.
    pub fn fiber_len<S: Formats>(self, p: u32) -> u32
        ensures { result ≡ length (fiber (level_of S.meaning self.entry) p) }
    {
        S::count(self.number, self.size, self.words, p).unwrap_or(0)
    }

    // The coordinate at place i of fiber p with its child; 0 and 0 past the last.
    pub fn item<S: Formats>(self, p: u32, i: u32) -> (u32, u32)
        ensures { result ≡ slice_index_or (fiber (level_of S.meaning self.entry) p) i (0, 0) }
    {
        S::at(self.number, self.size, self.words, p, i).unwrap_or((0, 0))
    }

    // The child at coordinate c of fiber p, by halving. In words that no BUILD left a fiber may not ascend: then the answer may be
    // none, but a child that is answered is held at c.
    pub fn find<S: Formats>(self, p: u32, c: u32) -> Option<u32>
        ensures held { IfSome result (λ x. (k : ℕ) × (Some (c, x) ≡ at_of (level_of S.meaning self.entry) p k)) }
        ensures exact { Ascends (coords (fiber (level_of S.meaning self.entry) p)) → result ≡ child (fiber (level_of S.meaning self.entry) p) c }
    {
        // By hand: a fiber is asked item by item, and lies nowhere as a slice to search.
        let mut low = 0;
        let mut high = self.fiber_len::<S>(p);
        while low < high {
            let middle = low + (high - low) / 2;
            let (coordinate, found) = S::at(self.number, self.size, self.words, p, middle)?;
            if coordinate == c {
                return Some(found);
            }
            if coordinate < c {
                low = middle + 1;
            } else {
                high = middle;
            }
        }
        None
    }
}
