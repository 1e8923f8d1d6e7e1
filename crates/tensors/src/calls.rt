// STORE, as a rack calls it.
ghost use Rattle.std.specs.Prelude.{◌≡◌};
ghost use Rattle.slots.specs.Areas.{state_of};
ghost use Rattle.plans.specs.Requests.{asked, slot_sizes};
ghost use Rattle.plans.specs.Rooms.{rules_of};
ghost use Rattle.tensors.specs.Lookups.{Looked};
ghost use Rattle.tensors.specs.Stored.{Stored};

use crate::reading::held_value;
use crate::slot_store::store_in;
use levels::Formats;
use plans::{StoreFault, StoreRequest};
use semiring::Semiring;
use slots::SlotAreas;

// Stores a tensor in a slot and answers the value positions that it uses, or refuses and changes nothing.
pub fn store<V: Semiring, S: Formats>(
    areas: &mut SlotAreas<V::Plain>,
    request: &StoreRequest<'_, V::Plain>,
) -> Result<usize, StoreFault>
    ensures room { areas.new.room ≡ areas.old.room }
    ensures stored { Stored (rules_of S.wants S.births) S.meaning S.kept V.algebra.zero V.reads (slot_sizes areas.old.room.level_words areas.old.room.positions) (asked V.reads request.now) (state_of areas.old) result (state_of areas.new) }
{
    let room = areas.room;
    store_in::<V, S>(
        &mut areas.slots,
        &mut areas.words,
        &mut areas.values,
        room,
        request,
    )
}

// The value that a slot holds at coordinates, zero where it has no entry there; none where the slot is empty, or the coordinates are not as many
// as the tensor's rank.
pub fn lookup<V: Semiring, S: Formats>(
    areas: &SlotAreas<V::Plain>,
    slot: usize,
    coordinates: &[u32],
) -> Option<V>
    ensures { Looked (rules_of S.wants S.births) S.meaning S.kept V.algebra.zero V.reads (slot_sizes areas.now.room.level_words areas.now.room.positions) (state_of areas.now) slot coordinates.now result }
{
    let (number, tensor) = areas.slots.filled(slot)?;
    if coordinates.len() != tensor.rank {
        return None;
    }
    Some(held_value::<V, S>(areas, number, tensor, coordinates))
}
