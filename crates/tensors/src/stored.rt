// A level as it lies in its words.
ghost use Rattle.std.specs.Prelude.{◌≡◌};

use levels::StoredLevel;
use slots::LevelRecord;

// The level of a record, over the words that it was given.
pub(crate) fn stored(level: LevelRecord, words: &[u32]) -> StoredLevel<'_>
    ensures { (result.number ≡ level.format) × (result.size ≡ level.size) × (result.words.now ≡ words.now) }
{
    StoredLevel {
        number: level.format,
        size: level.size,
        words,
    }
}
