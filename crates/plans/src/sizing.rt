// The sizes of the levels that a STORE would build, counted before a word is written.
ghost use Rattle.std.specs.Prelude.{◌≡◌, ℕ, ◌*◌, ◌<◌, ◌≤◌, length, MatchOption, OnSome, slice_index};
ghost use Rattle.model.specs.Stores.{level_sizes};
ghost use Rattle.slots.specs.Records.{level_of};
ghost use Rattle.plans.specs.Rows.{rows_in, Ordered};
ghost use Rattle.plans.specs.Rooms.{level_size, rules_of, Measured};

use crate::rows::Rows;
use formats::LevelSize;
use levels::Formats;
use slots::{LevelRecord, SlotSizes, TensorRecord};

// A level of these numbers, unless it has too many children.
fn level_record<S: Formats>(
    format: u8,
    extent: u32,
    fibers: u32,
    entries: usize,
) -> Option<LevelRecord>
    requires narrow { extent ≤ 4096 }
    requires few { fibers ≤ 65536 }
    requires apart { entries ≤ fibers * extent }
    ensures { MatchOption result (65536 < S.births format (level_size extent fibers entries)) (λ l. (level_of l ≡ (format, level_size extent fibers entries)) × (S.births format (level_size extent fibers entries) ≤ 65536)) }
{
    if entries > LevelSize::MAX_ENTRIES as usize {
        return None;
    }
    let size = LevelSize {
        extent,
        fibers,
        entries: entries as u32,
    };
    if S::children(format, size) > LevelSize::MAX_FIBERS {
        return None;
    }
    Some(LevelRecord { format, size })
}

// What stands in a record where the tensor has no level.
fn no_level() -> LevelRecord {
    let size = LevelSize {
        extent: 0,
        fibers: 0,
        entries: 0,
    };
    LevelRecord { format: 0, size }
}

// The levels of the tensor, or none exactly if they find no room.
pub(crate) fn measure<S: Formats>(
    room: SlotSizes,
    extents: &[u32],
    formats: &[u8],
    rows: &Rows<'_>,
) -> Option<TensorRecord>
    requires shallow { length extents.now ≤ 3 }
    requires paired { length formats.now ≡ length extents.now }
    requires rank { rows.now.rank ≡ length extents.now }
    requires narrow { (i : ℕ) → i < length extents.now → slice_index extents.now i ≤ 4096 }
    requires ordered { Ordered extents.now (rows_in rows.now) }
    ensures few { OnSome result (rows.now.count ≤ 4096) }
    ensures sized { Measured room.level_words room.positions (rules_of S.wants S.births) (level_sizes (rules_of S.wants S.births) (rows_in rows.now) 0 1 extents.now formats.now) result }
{
    let mut levels = [no_level(); 3];
    let mut fibers = 1;
    let mut words = 0;
    for (i, extent) in extents.iter().enumerate() {
        let entries = rows.count_fronts(i + 1);
        let level = level_record::<S>(formats[i], *extent, fibers, entries)?;
        let need = S::need(level.format, level.size);
        if need > room.level_words - words {
            return None;
        }
        words += need;
        fibers = S::children(level.format, level.size);
        levels[i] = level;
    }
    let positions = fibers as usize;
    if positions > room.positions {
        return None;
    }
    Some(TensorRecord {
        rank: rows.rank,
        levels,
        positions,
    })
}
