// STORE.
ghost use Rattle.model.specs.Calls.{STORE, stored};
ghost use Rattle.plans.specs.Requests.{asked};
ghost use Rattle.plans.specs.Rooms.{rules_of};
ghost use Rattle.rack_state.specs.Snapshots.{view};
ghost use Rattle.rack_state.specs.Answered.{answered};
ghost use Rattle.rack_state.specs.Does.{Does};

use levels::Formats;
use rack_state::{Fault, RackState, is_busy};
use semiring::Semiring;
use tensors::StoreRequest;

// Stores a tensor in a slot and answers the value positions that it uses.
pub fn store<V: Semiring, S: Formats>(
    rack: &mut RackState<V, S>,
    request: &StoreRequest<'_, V::Plain>,
) -> Result<usize, Fault>
    ensures { Does V.algebra V.reads (rules_of S.wants S.births) S.meaning (STORE (asked V.reads request.now)) (view rack.old) (answered stored result) (view rack.new) }
{
    if is_busy(rack.loaded, rack.graph.commands) {
        return Err(Fault::Busy);
    }
    let used = tensors::store::<V, S>(&mut rack.tensors, request)?;
    Ok(used)
}
