// DROP.
ghost use Rattle.std.specs.Prelude.{◌≡◌, OnOk};
ghost use Rattle.model.specs.Calls.{DROP, dropped};
ghost use Rattle.plans.specs.Rooms.{rules_of};
ghost use Rattle.streams.specs.Records.{Empty};
ghost use Rattle.rack_state.specs.Snapshots.{view};
ghost use Rattle.rack_state.specs.Answered.{answered};
ghost use Rattle.rack_state.specs.Does.{Does};

use levels::Formats;
use rack_state::{Fault, RackState};
use semiring::Semiring;

// Removes the graph and its result, and answers how many of its commands were carried out. All stream words and values are free again.
pub fn drop_graph<V: Semiring, S: Formats>(rack: &mut RackState<V, S>) -> Result<usize, Fault>
    ensures does { Does V.algebra V.reads (rules_of S.wants S.births) S.meaning DROP (view rack.old) (answered dropped result) (view rack.new) }
    ensures freed { OnOk result (Empty rack.new.streams.tapes × (rack.new.results.count ≡ 0)) }
{
    let Some(loaded) = rack.loaded else {
        return Err(Fault::NoGraph);
    };
    rack.loaded = None;
    rack.streams.tapes.clear();
    rack.results.count = 0;
    Ok(loaded.done)
}
