// What a line sees of the slots: of each tensor its extents.
ghost use Rattle.std.specs.Prelude.{◌≡◌, ℕ, None, slice_index_or};
ghost use Rattle.std.specs.Option.{option_map};
ghost use Rattle.slots.specs.Records.{slot_list, extents as record_extents};
ghost use Rattle.lines.specs.Given.{shown, slots_of};

use lines::Extents;
use slots::TensorRecord;

fn extents_of(tensor: TensorRecord) -> Extents
    ensures { shown result ≡ record_extents tensor }
{
    let levels = tensor.levels;
    Extents {
        rank: tensor.rank,
        extents: [
            levels[0].size.extent,
            levels[1].size.extent,
            levels[2].size.extent,
        ],
    }
}

fn seen_in(slot: Option<TensorRecord>) -> Option<Extents>
    ensures { option_map shown result ≡ option_map record_extents slot }
{
    slot.map(extents_of)
}

pub(crate) fn seen(slots: &slots::Slots) -> lines::Slots
    ensures { (n : ℕ) → slots_of result n ≡ option_map record_extents (slice_index_or (slot_list slots.now) n None) }
{
    lines::Slots {
        tensors: slots.records.map(seen_in),
    }
}
