// Values read back through the levels.
ghost use Rattle.std.specs.Prelude.{◌≡◌, ℕ, map, length, take, Some, vec_items};
ghost use Rattle.model.specs.Fibers.{Ascends, coords, fiber, fiber_at, child};
ghost use Rattle.model.specs.Tensors.{reached, value_at as held_at, held_value as value_held};
ghost use Rattle.levels.specs.Stored.{level_of};
ghost use Rattle.slots.specs.Layouts.{part, levels_on, Kept, storage};
ghost use Rattle.slots.specs.Records.{sizes};
ghost use Rattle.plans.specs.Rooms.{rules_of};

use crate::stored::stored;
use levels::{Formats, StoredLevel};
use semiring::Semiring;
use slots::{SlotAreas, SlotNumber, TensorRecord};

// The child of what a reference, or none, leads to.
fn step<S: Formats>(level: StoredLevel<'_>, reference: Option<u32>, c: u32) -> Option<u32>
    ensures { ((p : ℕ) → Ascends (coords (fiber (level_of S.meaning level.entry) p))) → result ≡ child (fiber_at (level_of S.meaning level.entry) reference) c }
{
    level.find::<S>(reference?, c)
}

// The reference that the coordinates lead to, a level for each.
fn reach<S: Formats>(tensor: TensorRecord, words: &[u32], coordinates: &[u32]) -> Option<u32>
    requires { length coordinates.now ≡ tensor.rank }
    ensures { Kept (rules_of S.wants S.births) S.kept (sizes tensor) words.now → result ≡ reached (levels_on (rules_of S.wants S.births) S.meaning (sizes tensor) words.now) (Some 0) coordinates.now }
{
    let mut reference = Some(0);
    let mut start: usize = 0;
    for (level, coordinate) in tensor.levels[..tensor.rank].iter().zip(coordinates) {
        let need = S::need(level.format, level.size);
        let end = start.saturating_add(need).min(words.len());
        reference = step::<S>(stored(*level, &words[start..end]), reference, *coordinate);
        start = end;
    }
    reference
}

// The value at a reference among the positions in use; zero at none.
fn value_at<V: Semiring>(reference: Option<u32>, used: usize, values: &[V::Plain]) -> V
    ensures { result ≡ held_at V.algebra.zero (map V.reads (take used values.now)) reference }
{
    let held = &values[..used.min(values.len())];
    match reference.and_then(|p| held.get(p as usize)) {
        Some(value) => V::read(*value),
        None => V::zero(),
    }
}

// The value that a slot's parts of the areas hold at coordinates.
pub(crate) fn held_value<V: Semiring, S: Formats>(
    areas: &SlotAreas<V::Plain>,
    slot: SlotNumber,
    tensor: TensorRecord,
    coordinates: &[u32],
) -> V
    requires rank { length coordinates.now ≡ tensor.rank }
    ensures { Kept (rules_of S.wants S.births) S.kept (sizes tensor) (part slot.number areas.now.room.level_words (vec_items areas.now.words)) → result ≡ value_held V.algebra.zero (storage (rules_of S.wants S.births) S.meaning V.reads (sizes tensor) tensor.positions (part slot.number areas.now.room.level_words (vec_items areas.now.words)) (part slot.number areas.now.room.positions (vec_items areas.now.values))) coordinates.now }
{
    let room = areas.room;
    let from = room.first_word(slot);
    let reference = reach::<S>(
        tensor,
        &areas.words[from..from + room.level_words],
        coordinates,
    );
    let at = room.first_position(slot);
    value_at::<V>(
        reference,
        tensor.positions,
        &areas.values[at..at + room.positions],
    )
}
