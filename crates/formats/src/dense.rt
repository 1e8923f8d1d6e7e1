// Dense: no words. Every coordinate is held.
ghost use Rattle.std.specs.Prelude.{◌≡◌, length};
ghost use Rattle.model.specs.Formats.{dense_need, dense_children, dense_level};
ghost use Rattle.formats.specs.Denses.{dense_lawful};
ghost use Rattle.std.proofs.Common.{rules};

use crate::entry::Entry;
use crate::format::Format;
use crate::short::Short;
use crate::size::LevelSize;

#[derive(Clone, Copy)]
pub struct Dense;

impl Format for Dense {
    ghost wants = { dense_need };

    ghost births = { dense_children };

    ghost meaning = { λ s _. dense_level s };

    ghost kept = { λ s ws. length ws ≡ dense_need s };

    ghost lawful = { λ l ws h. dense_lawful l };

    ghost exact = { Prim.search rules };

    ghost ample = { Prim.search rules };

    fn need(_size: LevelSize) -> usize {
        0
    }

    fn children(size: LevelSize) -> u32 {
        size.extent * size.fibers
    }

    fn build(_size: LevelSize, _entries: &[Entry], _words: &mut [u32]) -> Result<(), Short> {
        Ok(())
    }

    fn fibers(size: LevelSize, _words: &[u32]) -> u32 {
        size.fibers
    }

    fn count(size: LevelSize, _words: &[u32], p: u32) -> Option<u32> {
        (p < size.fibers).then_some(size.extent)
    }

    fn at(size: LevelSize, _words: &[u32], p: u32, n: u32) -> Option<(u32, u32)> {
        (p < size.fibers && n < size.extent).then(|| (n, p * size.extent + n))
    }
}
