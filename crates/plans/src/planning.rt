// What a STORE would build, or why it is refused: the rows of the table of refusals, tried in their order.
ghost use Rattle.std.specs.Prelude.{◌≤◌, length, OnOk};
ghost use Rattle.plans.specs.Requests.{asked, slot_sizes, Planned};
ghost use Rattle.plans.specs.Rooms.{rules_of};

use crate::fault::StoreFault;
use crate::request::StoreRequest;
use crate::sizing::measure;
use levels::Formats;
use semiring::Semiring;
use slots::{SlotNumber, SlotSizes, TensorRecord};

pub fn plan<V: Semiring, S: Formats>(
    room: SlotSizes,
    request: &StoreRequest<'_, V::Plain>,
) -> Result<TensorRecord, StoreFault>
    ensures few { OnOk result (length request.now.entries.now ≤ 4096) }
    ensures planned { Planned (slot_sizes room.level_words room.positions) (rules_of S.wants S.births) (asked V.reads request.now) result }
{
    if request.slot > SlotNumber::LAST {
        return Err(StoreFault::Slot(request.slot));
    }
    let rows = request.rows().ok_or(StoreFault::Shape)?;
    if let Some(k) = rows.first_bad_entry(request.extents) {
        return Err(StoreFault::Entry(k));
    }
    measure::<S>(room, request.extents, request.formats, &rows).ok_or(StoreFault::Room)
}
