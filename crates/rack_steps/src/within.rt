// A command carried out in the front parts of the areas, exactly as long as there is room.
ghost use Rattle.std.specs.Prelude.{◌≡◌, is_ok};
ghost use Rattle.commands.specs.Held.{meant};
ghost use Rattle.plans.specs.Rooms.{rules_of};
ghost use Rattle.slots.specs.Areas.{state_of};
ghost use Rattle.rack_steps.specs.Working.{working_in, CarriedWithin};

use commands::Command;
use execution::carry_out;
use levels::Formats;
use rack_state::{ResultAreas, StreamAreas};
use results::ResultKey;
use semiring::Semiring;
use slots::SlotAreas;
use streams::NoRoom;

// Carried out, or refused for want of room; past the room nothing changes.
pub(crate) fn carry_within<V: Semiring, S: Formats>(
    command: Command,
    tensors: &SlotAreas<V::Plain>,
    streams: &mut StreamAreas<V::Plain>,
    results: &mut ResultAreas<V::Plain>,
) -> Result<(), NoRoom>
    ensures carried { CarriedWithin V.algebra V.reads (rules_of S.wants S.births) S.meaning streams.old.word_room streams.old.value_room results.old.places tensors.now.room.level_words tensors.now.room.positions (state_of tensors.now) (meant command) (working_in streams.old results.old) (is_ok result) (working_in streams.new results.new) }
    ensures rooms { (streams.new.word_room ≡ streams.old.word_room) × (streams.new.value_room ≡ streams.old.value_room) × (results.new.places ≡ results.old.places) }
{
    let (word_room, value_room) = (streams.word_room, streams.value_room);
    let places = results.places;
    let words: &mut [u32] = &mut streams.words;
    let values: &mut [V::Plain] = &mut streams.values;
    let keys: &mut [ResultKey] = &mut results.keys;
    let sums: &mut [V::Plain] = &mut results.sums;
    carry_out::<V, S>(
        command,
        tensors,
        &mut streams.tapes,
        &mut words[0..word_room],
        &mut values[0..value_room],
        &mut keys[0..places],
        &mut sums[0..places],
        &mut results.count,
    )
}
