// Rows made, and read one by one.
ghost use Rattle.std.specs.Prelude.{◌≡◌, ◌*◌, ◌<◌, length, slice_index, MatchOption, ◌≢◌};
ghost use Rattle.plans.specs.Rows.{row_in};

use crate::coordinates::{coordinate, row_at};
use crate::rows::Rows;

impl<'a> Rows<'a> {
    // None exactly if the coordinates are not so many rows.
    pub(crate) fn new(coordinates: &'a [u32], rank: usize, count: usize) -> Option<Rows<'a>>
        ensures { MatchOption result (length coordinates.now ≢ rank * count) (λ r. (r.coordinates.now ≡ coordinates.now) × (r.rank ≡ rank) × (r.count ≡ count)) }
    {
        if rank.checked_mul(count) != Some(coordinates.len()) {
            return None;
        }
        Some(Rows {
            coordinates,
            rank,
            count,
        })
    }

    pub(crate) fn row(&self, k: usize) -> &'a [u32]
        requires { k < self.now.count }
        ensures { (result.now ≡ row_in self.now k) × (length result.now ≡ self.now.rank) }
    {
        row_at(self.coordinates, self.rank, k)
    }

    // The coordinate of row k at this depth.
    pub fn coordinate(&self, k: usize, depth: usize) -> u32
        requires below { k < self.now.count }
        requires deep { depth < self.now.rank }
        ensures { result ≡ slice_index (row_in self.now k) depth }
    {
        coordinate(self.coordinates, self.rank, k, depth)
    }
}
