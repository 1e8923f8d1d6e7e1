// READ.
ghost use Rattle.model.specs.Calls.{READ};
ghost use Rattle.plans.specs.Rooms.{rules_of};
ghost use Rattle.rack_state.specs.Snapshots.{view};
ghost use Rattle.rack_state.specs.Answered.{answered, entry_listed};
ghost use Rattle.rack_state.specs.Does.{Does};

use levels::Formats;
use rack_state::{Entry, Fault, RackState};
use results::nth_nonzero;
use semiring::Semiring;

// The nth result that is not zero, from 0; none past the last.
pub fn read<V: Semiring, S: Formats>(
    rack: &RackState<V, S>,
    n: usize,
) -> Result<Option<Entry<V>>, Fault>
    ensures { Does V.algebra V.reads (rules_of S.wants S.births) S.meaning (READ n) (view rack.now) (answered entry_listed result) (view rack.now) }
{
    let Some(loaded) = rack.loaded else {
        return Err(Fault::NoGraph);
    };
    if loaded.done != rack.graph.commands {
        return Err(Fault::NotDrained);
    }
    let table = &rack.results;
    let found = nth_nonzero::<V>(&table.keys, &table.sums, table.count, n);
    Ok(found.map(|(key, value)| Entry {
        key,
        rank: loaded.left,
        value,
    }))
}
