// The values of a tensor: the positions that it uses, at the front of the slot's part.
ghost use Rattle.std.specs.Prelude.{None, slice_index_or};
ghost use Rattle.slots.specs.Records.{slot_list};
ghost use Rattle.placing.specs.Lying.{ValuesAnswer};

use crate::places::PlacedValues;
use slots::{SlotSizes, Slots};

// Where the values of a slot's tensor lie in an area of values of type P; none where the slot is empty.
pub fn values_at<P>(slots: &Slots, room: SlotSizes, slot: usize) -> Option<PlacedValues>
    ensures { ValuesAnswer P room.positions slot (slice_index_or (slot_list slots.now) slot None) result }
{
    let (number, tensor) = slots.filled(slot)?;
    let start = room.first_position(number);
    let used = tensor.positions.min(room.positions);
    Some(PlacedValues {
        start,
        end: start + used,
    })
}
