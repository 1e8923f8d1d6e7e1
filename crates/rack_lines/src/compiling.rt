// COMPILE, as a rack calls it.
ghost use Rattle.model.specs.Calls.{COMPILE, compiled};
ghost use Rattle.plans.specs.Rooms.{rules_of};
ghost use Rattle.rack_state.specs.Snapshots.{view};
ghost use Rattle.rack_state.specs.Does.{Does};
ghost use Rattle.rack_state.specs.Answered.{answered};

use crate::seeing::seen;
use graphs::lower;
use levels::Formats;
use lines::read_line;
use rack_state::{Fault, Loaded, RackState};
use semiring::Semiring;

// COMPILE: reads a line over what the slots hold, and keeps its graph; answers its number of commands.
pub fn compile<V: Semiring, S: Formats>(
    rack: &mut RackState<V, S>,
    text: &[u8],
) -> Result<usize, Fault>
    ensures { Does V.algebra V.reads (rules_of S.wants S.births) S.meaning (COMPILE text.now) (view rack.old) (answered compiled result) (view rack.new) }
{
    if rack.is_busy() {
        return Err(Fault::Busy);
    }
    let line = read_line(text, &seen(&rack.tensors.slots))?;
    let commands = lower(text, &line.parsed, &mut rack.graph);
    rack.loaded = Some(Loaded {
        at: 0,
        done: 0,
        left: line.left.count,
    });
    rack.streams.tapes.clear();
    rack.results.count = 0;
    Ok(commands)
}
