// Whether the lists of a STORE fit together.
ghost use Rattle.std.specs.Prelude.{◌≡◌, ◌||◌, true, false, ltb, length, ◌==◌, nat_lt, MatchOption};
ghost use Rattle.model.specs.Stores.{some_pass};
ghost use Rattle.plans.specs.Requests.{wrong_shape};

use crate::request::StoreRequest;
use crate::rows::Rows;
use formats::LevelSize;

// The most arguments of a tensor, and the largest number of a format.
const MAX_RANK: usize = 3;

const MAX_FORMAT: u8 = 1;

impl<'r, P> StoreRequest<'r, P> {
    // The rows of the entries; none exactly if the lists do not fit.
    pub(crate) fn rows(&self) -> Option<Rows<'r>>
        ensures { MatchOption result (wrong_shape self.now.rank self.now.extents.now self.now.formats.now self.now.coordinates.now (length self.now.entries.now) ≡ true) (λ r. (wrong_shape self.now.rank self.now.extents.now self.now.formats.now self.now.coordinates.now (length self.now.entries.now) ≡ false) × (r.coordinates.now ≡ self.now.coordinates.now) × (r.rank ≡ self.now.rank) × (r.count ≡ length self.now.entries.now)) }
    {
        let rank = self.rank;
        if rank > MAX_RANK || self.extents.len() != rank || self.formats.len() != rank {
            return None;
        }
        if has_wrong_extent(self.extents) || has_wrong_format(self.formats) {
            return None;
        }
        Rows::new(self.coordinates, rank, self.entries.len())
    }
}

fn has_wrong_extent(extents: &[u32]) -> bool
    ensures { result ≡ some_pass (λ e. (e == 0) || nat_lt 4096 e) extents.now }
{
    extents
        .iter()
        .any(|extent| *extent == 0 || *extent > LevelSize::MAX_EXTENT)
}

fn has_wrong_format(formats: &[u8]) -> bool
    ensures { result ≡ some_pass (λ f. ltb 1 f) formats.now }
{
    formats.iter().any(|format| *format > MAX_FORMAT)
}
