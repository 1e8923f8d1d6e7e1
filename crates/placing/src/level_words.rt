// The words of a level: behind those of the levels before it, and clipped at the end of the slot's part.
ghost use Rattle.std.specs.Prelude.{◌≡◌, ◌<◌, ◌≤◌, min, take, None, slice_index_or};
ghost use Rattle.slots.specs.Layouts.{needed};
ghost use Rattle.slots.specs.Records.{slot_list, sizes};
ghost use Rattle.plans.specs.Rooms.{rules_of};
ghost use Rattle.placing.specs.Lying.{LevelLies, LevelAnswer};

use crate::places::{PlacedLevel, PlacedWords};
use levels::Formats;
use slots::{SlotNumber, SlotSizes, Slots, TensorRecord};

// How many words the first `count` levels take of a part that has `limit`.
fn words_of<S: Formats>(tensor: TensorRecord, count: usize, limit: usize) -> usize
    requires { count ≤ tensor.rank }
    ensures { result ≡ min (needed (rules_of S.wants S.births) (take count (sizes tensor))) limit }
{
    let mut end: usize = 0;
    for level in &tensor.levels[..count] {
        let need = S::need(level.format, level.size);
        end = end.saturating_add(need).min(limit);
    }
    end
}

// A level of the tensor in a slot.
fn place_level<S: Formats>(
    tensor: TensorRecord,
    room: SlotSizes,
    slot: SlotNumber,
    level: usize,
) -> PlacedLevel
    requires { level < tensor.rank }
    ensures { LevelLies (rules_of S.wants S.births) S.meaning room.level_words slot.number tensor level result }
{
    let part = room.first_word(slot);
    let before = words_of::<S>(tensor, level, room.level_words);
    let through = words_of::<S>(tensor, level + 1, room.level_words);
    PlacedLevel {
        record: tensor.levels[level],
        words: PlacedWords {
            start: part + before,
            end: part + through,
        },
    }
}

// Where a level of a slot's tensor lies in the area of level words; none where the slot is empty or its tensor has no such level.
pub fn level_at<S: Formats>(
    slots: &Slots,
    room: SlotSizes,
    slot: usize,
    level: usize,
) -> Option<PlacedLevel>
    ensures { LevelAnswer (rules_of S.wants S.births) S.meaning room.level_words slot level (slice_index_or (slot_list slots.now) slot None) result }
{
    let (number, tensor) = slots.filled(slot)?;
    if level >= tensor.rank {
        return None;
    }
    Some(place_level::<S>(tensor, room, number, level))
}
