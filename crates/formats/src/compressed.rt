// Compressed: the position where each fiber starts, and one more, then the coordinates.
ghost use Rattle.std.specs.Prelude.{◌≡◌, ◌+◌, ◌-◌, ◌<◌, ◌≤◌, take, MatchOption, MatchResult, OnOk, slice_index};
ghost use Rattle.model.specs.Formats.{Listed, compressed_need, compressed_children, compressed_level, position};
ghost use Rattle.formats.specs.Sizes.{size_of};
ghost use Rattle.formats.specs.Entries.{owners_of, coordinates_of};
ghost use Rattle.formats.specs.Builds.{Built, Refused};
ghost use Rattle.formats.specs.Lists.{CompressedWords, Laid};
ghost use Rattle.formats.specs.Packs.{compressed_lawful};
ghost use Rattle.std.proofs.Common.{rules};

use crate::entry::Entry;
use crate::format::Format;
use crate::short::Short;
use crate::size::LevelSize;
use crate::sorting::Lists;

#[derive(Clone, Copy)]
pub struct Compressed;

impl Format for Compressed {
    ghost wants = { compressed_need };

    ghost births = { compressed_children };

    ghost meaning = { compressed_level };

    ghost kept = { CompressedWords };

    ghost lawful = { compressed_lawful };

    ghost exact = { Prim.search rules };

    ghost ample = { Prim.search rules };

    fn need(size: LevelSize) -> usize {
        words_of(size)
    }

    fn children(size: LevelSize) -> u32 {
        size.entries
    }

    fn build(size: LevelSize, entries: &[Entry], words: &mut [u32]) -> Result<(), Short>
        requires { Listed (size_of size) (owners_of entries.now) (coordinates_of entries.now) }
        ensures outcome { MatchResult result (λ _. Built (compressed_need (size_of size)) (CompressedWords (size_of size)) (compressed_level (size_of size)) (owners_of entries.now) (coordinates_of entries.now) words.old words.new) (λ e. Refused (compressed_need (size_of size)) e.need e.free words.old words.new) }
        ensures exact { OnOk result (Laid (size_of size) (owners_of entries.now) (coordinates_of entries.now) (take (compressed_need (size_of size)) words.new)) }
    {
        let need = words_of(size);
        let free = words.len();
        if free < need {
            return Err(Short { need, free });
        }
        Lists { size, entries }.sort(words);
        Ok(())
    }

    fn fibers(size: LevelSize, _words: &[u32]) -> u32 {
        size.fibers
    }

    fn count(size: LevelSize, words: &[u32], p: u32) -> Option<u32> {
        let (_, len) = fiber_span(size, words, p)?;
        Some(len)
    }

    fn at(size: LevelSize, words: &[u32], p: u32, n: u32) -> Option<(u32, u32)> {
        let (from, len) = fiber_span(size, words, p)?;
        if n >= len {
            return None;
        }
        let j = from + n;
        Some((word(words, size.fibers as usize + 1 + j as usize), j))
    }
}

// Where fiber p starts among the coordinates, and how many it has.
fn fiber_span(size: LevelSize, words: &[u32], p: u32) -> Option<(u32, u32)>
    ensures { MatchOption result (size.fibers ≤ p) (λ x. (p < size.fibers) × (x.0 ≡ position words.now p) × (x.1 ≡ position words.now (p + 1) - position words.now p)) }
{
    if p >= size.fibers {
        return None;
    }
    let i = p as usize;
    let from = word(words, i);
    Some((from, word(words, i + 1).saturating_sub(from)))
}

fn words_of(size: LevelSize) -> usize
    ensures { result ≡ compressed_need (size_of size) }
{
    size.fibers as usize + 1 + size.entries as usize
}

// A word, or 0 past the last: questions are answered for any words.
fn word(words: &[u32], i: usize) -> u32
    ensures { result ≡ slice_index words.now i }
{
    words.get(i).copied().unwrap_or(0)
}
