// Making a rack, and its five calls. None asks anything of its caller, and none allocates.
ghost use Rattle.std.specs.Prelude.{◌≡◌, OnOk};
ghost use Rattle.model.specs.Calls.{STORE, COMPILE, STEP, READ, DROP, stored, compiled, stepped, dropped};
ghost use Rattle.plans.specs.Requests.{asked};
ghost use Rattle.plans.specs.Rooms.{rules_of};
ghost use Rattle.rack_state.specs.Does.{Does};
ghost use Rattle.rack_state.specs.Making.{Freed};
ghost use Rattle.rack_state.specs.Answered.{answered, entry_listed};
ghost use Rattle.rack.specs.Racks.{seen, taking, MadeRack};

use crate::rack::{InUse, Rack};
use levels::Formats;
use rack_lines::compile;
use rack_results::{drop_graph, read};
use rack_slots::store;
use rack_state::{Areas, Entry, Fault, RackSizes, RackState};
use rack_steps::step;
use semiring::Semiring;
use tensors::StoreRequest;

impl<V: Semiring, S: Formats> Rack<V, S> {
    // An empty rack over the areas, as they are. A size out of range or an area too short is refused, and the areas are handed back.
    pub fn new(sizes: RackSizes, areas: Areas<V::Plain>) -> Result<Rack<V, S>, Areas<V::Plain>>
        ensures { MadeRack V.algebra V.reads (rules_of S.wants S.births) S.meaning sizes areas result }
    {
        let state = RackState::new(sizes, areas)?;
        Ok(Rack { state })
    }

    // Hands the areas back, as they are.
    pub fn into_areas(self) -> Areas<V::Plain>
        ensures { Freed (seen self) result }
    {
        self.state.into_areas()
    }

    // How much of the areas is in use.
    pub fn in_use(&self) -> InUse
        ensures { result ≡ taking (seen self.now) }
    {
        InUse {
            words: self.state.streams.tapes.used,
            values: self.state.streams.tapes.taken,
            results: self.state.results.count,
        }
    }

    // STORE: puts a tensor into a slot, and answers the value positions used.
    pub fn store(&mut self, request: &StoreRequest<'_, V::Plain>) -> Result<usize, Fault>
        ensures { Does V.algebra V.reads (rules_of S.wants S.births) S.meaning (STORE (asked V.reads request.now)) (seen self.old) (answered stored result) (seen self.new) }
    {
        store(&mut self.state, request)
    }

    // COMPILE: reads a line, keeps its graph, and answers its number of commands.
    pub fn compile(&mut self, line: &[u8]) -> Result<usize, Fault>
        ensures { Does V.algebra V.reads (rules_of S.wants S.births) S.meaning (COMPILE line.now) (seen self.old) (answered compiled result) (seen self.new) }
    {
        compile(&mut self.state, line)
    }

    // STEP: carries out the next command, and answers how many remain.
    pub fn step(&mut self) -> Result<usize, Fault>
        ensures { Does V.algebra V.reads (rules_of S.wants S.births) S.meaning STEP (seen self.old) (answered stepped result) (seen self.new) }
    {
        step(&mut self.state)
    }

    // READ: the nth result that is not zero, from 0, or none past the last.
    pub fn read(&self, n: usize) -> Result<Option<Entry<V>>, Fault>
        ensures { Does V.algebra V.reads (rules_of S.wants S.births) S.meaning (READ n) (seen self.now) (answered entry_listed result) (seen self.now) }
    {
        read(&self.state, n)
    }

    // DROP: removes graph and result, and answers the commands carried out. All stream words and values are free again.
    pub fn drop_graph(&mut self) -> Result<usize, Fault>
        ensures freed { OnOk result (taking (seen self.new) ≡ record { words = 0; values = 0; results = 0 }) }
        ensures does { Does V.algebra V.reads (rules_of S.wants S.births) S.meaning DROP (seen self.old) (answered dropped result) (seen self.new) }
    {
        drop_graph(&mut self.state)
    }
}
