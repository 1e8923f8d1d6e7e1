// A format of the tests' own: every coordinate is held, and the children are numbered backwards.
ghost use Rattle.std.specs.Prelude.{◌≡◌, length};
ghost use Rattle.model.specs.Formats.{dense_need, dense_children};
ghost use Rattle.levels_tests.specs.Mirrors.{mirrored_level};
ghost use Rattle.levels_tests.specs.Backwards.{mirrored_lawful};
ghost use Rattle.std.proofs.Common.{rules};

use formats::{Entry, Format, LevelSize, Short};

pub(crate) struct Mirrored;

impl Format for Mirrored {
    ghost wants = { dense_need };

    ghost births = { dense_children };

    ghost meaning = { λ s _. mirrored_level s };

    ghost kept = { λ s ws. length ws ≡ dense_need s };

    ghost lawful = { λ l ws h. mirrored_lawful l };

    ghost exact = { Prim.search rules };

    ghost ample = { Prim.search rules };

    fn need(_size: LevelSize) -> usize {
        0
    }

    fn children(size: LevelSize) -> u32 {
        size.extent * size.fibers
    }

    fn build(_size: LevelSize, _entries: &[Entry], _words: &mut [u32]) -> Result<(), Short> {
        Ok(())
    }

    fn fibers(size: LevelSize, _words: &[u32]) -> u32 {
        size.fibers
    }

    fn count(size: LevelSize, _words: &[u32], p: u32) -> Option<u32> {
        (p < size.fibers).then_some(size.extent)
    }

    fn at(size: LevelSize, _words: &[u32], p: u32, n: u32) -> Option<(u32, u32)> {
        (p < size.fibers && n < size.extent).then(|| (
            n,
            size.extent * size.fibers - (p * size.extent + n) - 1,
        ))
    }
}
