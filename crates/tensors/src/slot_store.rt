// STORE into lent slots and areas: planned first, so that a refusal has changed nothing.
ghost use Rattle.std.specs.Prelude.{◌*◌, ◌≤◌, length};
ghost use Rattle.slots.specs.Areas.{slot_state};
ghost use Rattle.slots.specs.Records.{slot_list};
ghost use Rattle.plans.specs.Requests.{asked, slot_sizes};
ghost use Rattle.plans.specs.Rooms.{rules_of};
ghost use Rattle.tensors.specs.Stored.{Stored};

use crate::lists::MAX_ENTRIES;
use crate::storing::write_tensor;
use crate::tensor_plan::TensorPlan;
use levels::Formats;
use plans::{Rows, StoreFault, StoreRequest, plan};
use semiring::Semiring;
use slots::{SlotNumber, SlotSizes, Slots};

pub(crate) fn store_in<V: Semiring, S: Formats>(
    slots: &mut Slots,
    words: &mut [u32],
    values: &mut [V::Plain],
    room: SlotSizes,
    request: &StoreRequest<'_, V::Plain>,
) -> Result<usize, StoreFault>
    requires words_area { 8 * room.level_words ≤ length words.old }
    requires values_area { 8 * room.positions ≤ length values.old }
    ensures { Stored (rules_of S.wants S.births) S.meaning S.kept V.algebra.zero V.reads (slot_sizes room.level_words room.positions) (asked V.reads request.now) (slot_state (slot_list slots.old) words.old values.old) result (slot_state (slot_list slots.new) words.new values.new) }
{
    let tensor = plan::<V, S>(room, request)?;
    let slot = SlotNumber {
        number: request.slot,
    };
    let rows = Rows {
        coordinates: request.coordinates,
        rank: request.extents.len(),
        count: request.entries.len(),
    };
    let planned = TensorPlan {
        tensor,
        extents: request.extents,
        rows,
    };
    let mut scratch = [0; MAX_ENTRIES];
    let positions = &mut scratch[..request.entries.len()];
    write_tensor::<V, S>(
        room,
        slot,
        &planned,
        request.entries,
        words,
        values,
        positions,
    );
    slots.replace(request.slot, tensor);
    Ok(tensor.positions)
}
