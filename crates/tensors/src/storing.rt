// STORE over the lent areas of the slots.
ghost use Rattle.std.specs.Prelude.{◌≡◌, ℕ, ◌+◌, ◌*◌, ◌<◌, ◌≤◌, map, length, take, drop, replicate, slice_index};
ghost use Rattle.model.specs.Stores.{positions_from};
ghost use Rattle.slots.specs.Layouts.{needed, part};
ghost use Rattle.slots.specs.Records.{sizes};
ghost use Rattle.plans.specs.Requests.{slot_sizes};
ghost use Rattle.plans.specs.Rooms.{rules_of};
ghost use Rattle.plans.specs.Rows.{rows_in};
ghost use Rattle.tensors.specs.Fillings.{Raised, scattered};
ghost use Rattle.tensors.specs.Planned.{Measured};
ghost use Rattle.tensors.specs.Stored.{Written, tensor_at};

use crate::building::build_levels;
use crate::tensor_plan::TensorPlan;
use crate::values::fill_values;
use levels::Formats;
use semiring::Semiring;
use slots::{SlotNumber, SlotSizes};

// Writes the levels of a planned tensor into its slot's part of the level words, and the value position of each entry.
fn write_levels<S: Formats>(
    room: SlotSizes,
    slot: SlotNumber,
    plan: &TensorPlan<'_>,
    words: &mut [u32],
    positions: &mut [u32],
)
    requires area { 8 * room.level_words ≤ length words.old }
    requires paired { plan.now.rows.count ≡ length positions.old }
    requires measured { Measured (rules_of S.wants S.births) plan.now }
    requires fits { needed (rules_of S.wants S.births) (sizes plan.now.tensor) ≤ room.level_words }
    ensures before { take (slot.number * room.level_words) words.new ≡ take (slot.number * room.level_words) words.old }
    ensures behind { drop (slot.number * room.level_words + needed (rules_of S.wants S.births) (sizes plan.now.tensor)) words.new ≡ drop (slot.number * room.level_words + needed (rules_of S.wants S.births) (sizes plan.now.tensor)) words.old }
    ensures raised { Raised (rules_of S.wants S.births) S.meaning S.kept (sizes plan.now.tensor) plan.now.extents.now (rows_in plan.now.rows) (part slot.number room.level_words words.old) positions.new (part slot.number room.level_words words.new) }
{
    positions.fill(0);
    let from = room.first_word(slot);
    build_levels::<S>(plan, &mut words[from..from + room.level_words], positions);
}

// Writes the values of a tensor into its slot's part of the values: zero at the `used` positions, and each entry at its own.
fn write_values<V: Semiring>(
    room: SlotSizes,
    slot: SlotNumber,
    used: usize,
    positions: &[u32],
    entries: &[V::Plain],
    values: &mut [V::Plain],
)
    requires area { 8 * room.positions ≤ length values.old }
    requires fits { used ≤ room.positions }
    requires paired { length positions.now ≡ length entries.now }
    requires within { (k : ℕ) → k < length positions.now → slice_index positions.now k < used }
    ensures before { take (slot.number * room.positions) values.new ≡ take (slot.number * room.positions) values.old }
    ensures behind { drop (slot.number * room.positions + used) values.new ≡ drop (slot.number * room.positions + used) values.old }
    ensures filled { map V.reads (take used (part slot.number room.positions values.new)) ≡ scattered positions.now (map V.reads entries.now) (replicate used V.algebra.zero) }
{
    let from = room.first_position(slot);
    fill_values::<V>(positions, entries, &mut values[from..from + used]);
}

// Writes the levels and the values of a planned tensor into its slot's parts of the areas. There is a position for each entry.
pub(crate) fn write_tensor<V: Semiring, S: Formats>(
    room: SlotSizes,
    slot: SlotNumber,
    plan: &TensorPlan<'_>,
    entries: &[V::Plain],
    words: &mut [u32],
    values: &mut [V::Plain],
    positions: &mut [u32],
)
    requires words_area { 8 * room.level_words ≤ length words.old }
    requires values_area { 8 * room.positions ≤ length values.old }
    requires paired { (plan.now.rows.count ≡ length entries.now) × (length positions.old ≡ length entries.now) }
    requires measured { Measured (rules_of S.wants S.births) plan.now }
    requires words_fit { needed (rules_of S.wants S.births) (sizes plan.now.tensor) ≤ room.level_words }
    requires used { plan.now.tensor.positions ≡ positions_from 1 (rules_of S.wants S.births) (sizes plan.now.tensor) }
    requires values_fit { plan.now.tensor.positions ≤ room.positions }
    ensures { Written (rules_of S.wants S.births) S.meaning S.kept V.algebra.zero V.reads (slot_sizes room.level_words room.positions) slot.number (sizes plan.now.tensor) plan.now.tensor.positions (tensor_at plan.now.extents.now plan.now.rows.coordinates.now (map V.reads entries.now)) words.old values.old words.new values.new }
{
    write_levels::<S>(room, slot, plan, words, positions);
    write_values::<V>(
        room,
        slot,
        plan.tensor.positions,
        positions,
        entries,
        values,
    );
}
