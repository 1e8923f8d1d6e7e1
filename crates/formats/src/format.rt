// The interface of a format. A format holds nothing: the numbers of a level and its words are lent to each call, and the
// format is known by the level that words mean.
ghost use Rattle.std.specs.Prelude.{◌≡◌, ℕ, ◌*◌, ◌≤◌, List, length, MatchResult};
ghost use Rattle.model.specs.Fibers.{Level, Lawful, fibers_of, count_of, at_of};
ghost use Rattle.model.specs.Formats.{LevelSize as Size, Listed};
ghost use Rattle.formats.specs.Sizes.{size_of};
ghost use Rattle.formats.specs.Entries.{owners_of, coordinates_of};
ghost use Rattle.formats.specs.Builds.{Built, Refused};

use crate::entry::Entry;
use crate::short::Short;
use crate::size::LevelSize;

pub trait Format {
    // The words and the children of a level: both follow from its numbers.
    ghost wants: { Size → ℕ };

    ghost births: { Size → ℕ };

    // The level that words mean, any words at all, so that a question asks nothing of them.
    ghost meaning: { Size → List ℕ → Level };

    // The words that BUILD leaves.
    ghost kept: { Size → List ℕ → Type 0 };

    fn need(size: LevelSize) -> usize
        ensures { result ≡ wants (size_of size) };

    fn children(size: LevelSize) -> u32
        ensures { result ≡ births (size_of size) };

    fn build(size: LevelSize, entries: &[Entry], words: &mut [u32]) -> Result<(), Short>
        requires { Listed (size_of size) (owners_of entries.now) (coordinates_of entries.now) }
        ensures outcome { MatchResult result (λ _. Built (wants (size_of size)) (kept (size_of size)) (meaning (size_of size)) (owners_of entries.now) (coordinates_of entries.now) words.old words.new) (λ e. Refused (wants (size_of size)) e.need e.free words.old words.new) };

    fn fibers(size: LevelSize, words: &[u32]) -> u32
        ensures { result ≡ fibers_of (meaning (size_of size) words.now) };

    fn count(size: LevelSize, words: &[u32], p: u32) -> Option<u32>
        ensures { result ≡ count_of (meaning (size_of size) words.now) p };

    fn at(size: LevelSize, words: &[u32], p: u32, n: u32) -> Option<(u32, u32)>
        ensures { result ≡ at_of (meaning (size_of size) words.now) p n };

    ghost lawful: { (s : Size) (ws : List ℕ) → kept s ws → Lawful s.extent s.fibers (births s) (meaning s ws) };

    ghost exact: { (s : Size) (ws : List ℕ) → kept s ws → length ws ≡ wants s };

    // A level has a child for each coordinate of its lists, as far as coordinates below the extent can differ.
    ghost ample: { (s : Size) → s.entries ≤ s.fibers * s.extent → s.entries ≤ births s };
}
