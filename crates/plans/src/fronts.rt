// The fronts of ascending rows: the first coordinates that they begin with, each counted once.
ghost use Rattle.std.specs.Prelude.{◌≡◌, ◌+◌, ◌*◌, ◌<◌, ◌≤◌, not, length, drop};
ghost use Rattle.model.specs.Stores.{fronts as fronts_of};
ghost use Rattle.plans.specs.Rows.{rows_of, nth_row, rows_in, row_in, next_same, Rising};

use crate::comparing::is_same;
use crate::coordinates::row_at;
use crate::rows::Rows;

// Whether row k is the last one with its front: ascending rows with one front stand together.
pub fn ends_front(coordinates: &[u32], rank: usize, count: usize, depth: usize, k: usize) -> bool
    requires whole { length coordinates.now ≡ rank * count }
    requires below { k < count }
    requires within { depth ≤ rank }
    ensures { result ≡ not (next_same depth (nth_row rank coordinates.now k) (drop (k + 1) (rows_of rank count coordinates.now))) }
{
    if k == count - 1 {
        return true;
    }
    let this = row_at(coordinates, rank, k);
    let next = row_at(coordinates, rank, k + 1);
    !is_same(&this[..depth], &next[..depth])
}

impl<'a> Rows<'a> {
    // The same of these rows.
    pub fn ends_front(&self, depth: usize, k: usize) -> bool
        requires below { k < self.now.count }
        requires within { depth ≤ self.now.rank }
        ensures { result ≡ not (next_same depth (row_in self.now k) (drop (k + 1) (rows_in self.now))) }
    {
        ends_front(self.coordinates, self.rank, self.count, depth, k)
    }

    pub(crate) fn count_fronts(&self, depth: usize) -> usize
        requires within { depth ≤ self.now.rank }
        requires rising { Rising (rows_in self.now) }
        ensures { result ≡ length (fronts_of depth (rows_in self.now)) }
    {
        (0..self.count)
            .filter(|k| self.ends_front(depth, *k))
            .count()
    }
}
