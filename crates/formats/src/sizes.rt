// Sizes from any numbers.
ghost use Rattle.std.specs.Prelude.{◌≡◌, MatchOption};
ghost use Rattle.formats.specs.Sizes.{Small};

use crate::size::LevelSize;

impl LevelSize {
    // The most that a level may have.
    pub const MAX_EXTENT: u32 = 4096;

    pub const MAX_FIBERS: u32 = 65536;

    pub const MAX_ENTRIES: u32 = 65536;

    // None exactly if a number is too large.
    pub fn new(extent: u32, fibers: u32, entries: u32) -> Option<LevelSize>
        ensures { MatchOption result (Small extent fibers entries → ⊥) (λ s. Small extent fibers entries × (s.extent ≡ extent) × (s.fibers ≡ fibers) × (s.entries ≡ entries)) }
    {
        // An `if`, since `then_some` would make the size before the test that its bounds follow from.
        if extent <= Self::MAX_EXTENT
            && fibers <= Self::MAX_FIBERS
            && entries <= Self::MAX_ENTRIES
        {
            Some(LevelSize {
                extent,
                fibers,
                entries,
            })
        } else {
            None
        }
    }
}
