// What refuses a STORE before its sizes are known.
ghost use Rattle.std.specs.Prelude.{◌≡◌, ◌<◌, not, ◌||◌, length, None};
ghost use Rattle.model.specs.Conditions.{first_fault};
ghost use Rattle.model.specs.Stores.{outside, after, entry_checks};
ghost use Rattle.plans.specs.Rows.{rows_in, row_in, prior_row};

use crate::comparing::comes_before;
use crate::rows::Rows;

impl<'a> Rows<'a> {
    // The first entry outside an extent, or not after the one before it.
    pub(crate) fn first_bad_entry(&self, extents: &[u32]) -> Option<usize>
        requires { self.now.rank ≡ length extents.now }
        ensures { result ≡ first_fault (entry_checks extents.now 0 None (rows_in self.now)) }
    {
        (0..self.count).find(|k| self.is_bad(extents, *k))
    }

    fn is_bad(&self, extents: &[u32], k: usize) -> bool
        requires rank { self.now.rank ≡ length extents.now }
        requires below { k < self.now.count }
        ensures { result ≡ (outside extents.now (row_in self.now k) || not (after (prior_row self.now.rank self.now.coordinates.now k) (row_in self.now k))) }
    {
        let this = self.row(k);
        is_outside(extents, this) || k > 0 && !comes_before(self.row(k - 1), this)
    }
}

fn is_outside(extents: &[u32], coordinates: &[u32]) -> bool
    requires { length coordinates.now ≡ length extents.now }
    ensures { result ≡ outside extents.now coordinates.now }
{
    extents
        .iter()
        .zip(coordinates)
        .any(|(extent, coordinate)| coordinate >= extent)
}
