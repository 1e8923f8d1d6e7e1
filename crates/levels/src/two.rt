// A pair of formats as one parameter.
ghost use Rattle.levels.specs.Chosen.{chosen, Chosen};
ghost use Rattle.std.proofs.Common.{rules};

use crate::family::Formats;
use formats::{Entry, Format, LevelSize, Short};

// Two formats: the first at 0, the second at any other number.
pub struct Two<F0, F1>(F0, F1);

// The function of the format that a number chooses.
macro_rules! chosen {
    ($number:expr, $function:ident($($argument:expr),*)) => {
        if $number == 0 {
            F0::$function($($argument),*)
        } else {
            F1::$function($($argument),*)
        }
    };
}

impl<F0: Format, F1: Format> Formats for Two<F0, F1> {
    ghost wants = { λ i. chosen i F0.Format.wants F1.Format.wants };

    ghost births = { λ i. chosen i F0.Format.births F1.Format.births };

    ghost meaning = { λ i. chosen i F0.Format.meaning F1.Format.meaning };

    ghost kept = { λ i s ws. Chosen i (F0.Format.kept s ws) (F1.Format.kept s ws) };

    ghost lawful = { Prim.search rules };

    ghost exact = { Prim.search rules };

    ghost ample = { Prim.search rules };

    fn need(number: u8, size: LevelSize) -> usize {
        chosen!(number, need(size))
    }

    fn children(number: u8, size: LevelSize) -> u32 {
        chosen!(number, children(size))
    }

    fn build(
        number: u8,
        size: LevelSize,
        entries: &[Entry],
        words: &mut [u32],
    ) -> Result<(), Short> {
        chosen!(number, build(size, entries, words))
    }

    fn fibers(number: u8, size: LevelSize, words: &[u32]) -> u32 {
        chosen!(number, fibers(size, words))
    }

    fn count(number: u8, size: LevelSize, words: &[u32], p: u32) -> Option<u32> {
        chosen!(number, count(size, words, p))
    }

    fn at(number: u8, size: LevelSize, words: &[u32], p: u32, n: u32) -> Option<(u32, u32)> {
        chosen!(number, at(size, words, p, n))
    }
}
