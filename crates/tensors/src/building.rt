// A tensor's levels, built one below the other.
ghost use Rattle.std.specs.Prelude.{◌≡◌, ℕ, suc, ◌+◌, ◌<◌, ◌≤◌, length, Some, slice_index};
ghost use Rattle.model.specs.Fibers.{Ascends, coords, fiber, child};
ghost use Rattle.model.specs.Formats.{Listed};
ghost use Rattle.model.specs.Stores.{fronts};
ghost use Rattle.formats.specs.Builds.{Built};
ghost use Rattle.formats.specs.Entries.{owners_of, coordinates_of};
ghost use Rattle.formats.specs.Sizes.{size_of};
ghost use Rattle.levels.specs.Stored.{level_of};
ghost use Rattle.plans.specs.Rows.{row_in, rows_in};
ghost use Rattle.plans.specs.Rooms.{rules_of};
ghost use Rattle.slots.specs.Layouts.{needed};
ghost use Rattle.slots.specs.Records.{sizes};
ghost use Rattle.tensors.specs.Fillings.{Owners, Added, Raised};
ghost use Rattle.tensors.specs.Planned.{Measured};

use crate::lists::{MAX_ENTRIES, pick};
use crate::stored::stored;
use crate::tensor_plan::TensorPlan;
use formats::Entry;
use levels::{Formats, StoredLevel};
use plans::Rows;
use slots::LevelRecord;

// BUILD where there is room for it.
fn build<S: Formats>(level: LevelRecord, entries: &[Entry], words: &mut [u32])
    requires lists { Listed (size_of level.size) (owners_of entries.now) (coordinates_of entries.now) }
    requires room { S.wants level.format (size_of level.size) ≤ length words.old }
    ensures { Built (S.wants level.format (size_of level.size)) (S.kept level.format (size_of level.size)) (S.meaning level.format (size_of level.size)) (owners_of entries.now) (coordinates_of entries.now) words.old words.new }
{
    S::build(level.format, level.size, entries, words).unwrap()
}

// Gives each entry its child at this level in place of its owner.
fn descend<S: Formats>(level: StoredLevel<'_>, rows: &Rows<'_>, depth: usize, owners: &mut [u32])
    requires paired { rows.now.count ≡ length owners.old }
    requires deep { depth < rows.now.rank }
    requires ascends { (p : ℕ) → Ascends (coords (fiber (level_of S.meaning level) p)) }
    requires held { (k : ℕ) → k < length owners.old → (j : ℕ) × (child (fiber (level_of S.meaning level) (slice_index owners.old k)) (slice_index (row_in rows.now k) depth) ≡ Some j) }
    ensures { (k : ℕ) → k < length owners.old → child (fiber (level_of S.meaning level.entry) (slice_index owners.old k)) (slice_index (row_in rows.now k) depth) ≡ Some (slice_index owners.new k) }
{
    for (k, owner) in owners.iter_mut().enumerate() {
        *owner = level
            .find::<S>(*owner, rows.coordinate(k, depth))
            .unwrap_or(0);
    }
}

// Builds the level at this depth from `start` on, and gives each entry its child there.
fn add_level<S: Formats>(
    level: LevelRecord,
    depth: usize,
    start: usize,
    plan: &TensorPlan<'_>,
    words: &mut [u32],
    owners: &mut [u32],
)
    requires deep { depth < length plan.now.extents.now }
    requires paired { plan.now.rows.count ≡ length owners.old }
    requires extent { level.size.extent ≡ slice_index plan.now.extents.now depth }
    requires entries { level.size.entries ≡ length (fronts (suc depth) (rows_in plan.now.rows)) }
    requires owned { Owners depth level.size.fibers owners.old (rows_in plan.now.rows) }
    requires room { start + S.wants level.format (size_of level.size) ≤ length words.old }
    ensures { Added (S.wants level.format (size_of level.size)) (S.kept level.format (size_of level.size)) (S.meaning level.format (size_of level.size)) depth start (rows_in plan.now.rows) owners.old words.old owners.new words.new }
{
    let mut scratch = [Entry::default(); MAX_ENTRIES];
    let entries = pick(&plan.rows, depth, owners, &mut scratch);
    build::<S>(level, entries, &mut words[start..]);
    let need = S::need(level.format, level.size);
    descend::<S>(
        stored(level, &words[start..start + need]),
        &plan.rows,
        depth,
        owners,
    );
}

// Builds all levels, and leaves the value position of each entry where its owner was.
pub(crate) fn build_levels<S: Formats>(plan: &TensorPlan<'_>, words: &mut [u32], owners: &mut [u32])
    requires paired { plan.now.rows.count ≡ length owners.old }
    requires measured { Measured (rules_of S.wants S.births) plan.now }
    requires roots { (k : ℕ) → k < length owners.old → slice_index owners.old k ≡ 0 }
    requires room { needed (rules_of S.wants S.births) (sizes plan.now.tensor) ≤ length words.old }
    ensures { Raised (rules_of S.wants S.births) S.meaning S.kept (sizes plan.now.tensor) plan.now.extents.now (rows_in plan.now.rows) words.old owners.new words.new }
{
    let mut start = 0;
    for (depth, level) in plan.tensor.levels[..plan.tensor.rank].iter().enumerate() {
        add_level::<S>(*level, depth, start, plan, words, owners);
        start += S::need(level.format, level.size);
    }
}
