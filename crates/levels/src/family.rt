// The formats of a rack, by number: the one parameter that code over levels is generic in.
ghost use Rattle.std.specs.Prelude.{◌≡◌, ℕ, ◌*◌, ◌≤◌, List, length, MatchResult};
ghost use Rattle.model.specs.Fibers.{Level, Lawful, fibers_of, count_of, at_of};
ghost use Rattle.model.specs.Formats.{LevelSize as Size, Listed};
ghost use Rattle.formats.specs.Sizes.{size_of};
ghost use Rattle.formats.specs.Entries.{owners_of, coordinates_of};
ghost use Rattle.formats.specs.Builds.{Built, Refused};

use formats::{Entry, LevelSize, Short};

// Each function takes the format's number first, so that a further format joins with no new arguments.
pub trait Formats {
    ghost wants: { ℕ → Size → ℕ };

    ghost births: { ℕ → Size → ℕ };

    ghost meaning: { ℕ → Size → List ℕ → Level };

    ghost kept: { ℕ → Size → List ℕ → Type 0 };

    fn need(number: u8, size: LevelSize) -> usize
        ensures { result ≡ wants number (size_of size) };

    fn children(number: u8, size: LevelSize) -> u32
        ensures { result ≡ births number (size_of size) };

    fn build(number: u8, size: LevelSize, entries: &[Entry], words: &mut [u32]) -> Result<(), Short>
        requires { Listed (size_of size) (owners_of entries.now) (coordinates_of entries.now) }
        ensures { MatchResult result (λ _. Built (wants number (size_of size)) (kept number (size_of size)) (meaning number (size_of size)) (owners_of entries.now) (coordinates_of entries.now) words.old words.new) (λ e. Refused (wants number (size_of size)) e.need e.free words.old words.new) };

    fn fibers(number: u8, size: LevelSize, words: &[u32]) -> u32
        ensures { result ≡ fibers_of (meaning number (size_of size) words.now) };

    fn count(number: u8, size: LevelSize, words: &[u32], p: u32) -> Option<u32>
        ensures { result ≡ count_of (meaning number (size_of size) words.now) p };

    fn at(number: u8, size: LevelSize, words: &[u32], p: u32, n: u32) -> Option<(u32, u32)>
        ensures { result ≡ at_of (meaning number (size_of size) words.now) p n };

    ghost lawful: { (i : ℕ) (s : Size) (ws : List ℕ) → kept i s ws → Lawful s.extent s.fibers (births i s) (meaning i s ws) };

    ghost exact: { (i : ℕ) (s : Size) (ws : List ℕ) → kept i s ws → length ws ≡ wants i s };

    ghost ample: { (i : ℕ) (s : Size) → s.entries ≤ s.fibers * s.extent → s.entries ≤ births i s };
}
