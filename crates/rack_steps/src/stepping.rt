// STEP, as a rack calls it.
ghost use Rattle.model.specs.Calls.{STEP, stepped};
ghost use Rattle.plans.specs.Rooms.{rules_of};
ghost use Rattle.rack_state.specs.Answered.{answered};
ghost use Rattle.rack_state.specs.Does.{Does};
ghost use Rattle.rack_state.specs.Snapshots.{view};

use crate::within::carry_within;
use levels::Formats;
use listings::command_at;
use rack_state::{Fault, Loaded, RackState};
use semiring::Semiring;

// STEP: carries out the next command, and answers how many remain.
pub fn step<V: Semiring, S: Formats>(rack: &mut RackState<V, S>) -> Result<usize, Fault>
    ensures { Does V.algebra V.reads (rules_of S.wants S.births) S.meaning STEP (view rack.old) (answered stepped result) (view rack.new) }
{
    let Some(loaded) = rack.loaded else {
        return Err(Fault::NoGraph);
    };
    if loaded.done >= rack.graph.commands {
        return Err(Fault::Drained);
    }
    let Some(placed) = command_at(&rack.graph.bytes, loaded.at) else {
        return Err(Fault::Full(loaded.done));
    };
    let carried = carry_within::<V, S>(
        placed.command,
        &rack.tensors,
        &mut rack.streams,
        &mut rack.results,
    );
    if carried.is_err() {
        return Err(Fault::Full(loaded.done));
    }
    let done = loaded.done + 1;
    rack.loaded = Some(Loaded {
        at: placed.next,
        done,
        left: loaded.left,
    });
    Ok(rack.graph.commands - done)
}
