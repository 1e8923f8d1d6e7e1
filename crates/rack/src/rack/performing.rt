// Calls as values, one and many.
ghost use Rattle.plans.specs.Rooms.{rules_of};
ghost use Rattle.rack_state.specs.Does.{Does};
ghost use Rattle.rack.specs.Racks.{seen};
ghost use Rattle.rack.specs.Events.{call_of, answer_of};
ghost use Rattle.rack.specs.Runs.{Performed};

use crate::events::{Answer, Call, Done};
use crate::rack::Rack;
use levels::Formats;
use semiring::Semiring;

impl<V: Semiring, S: Formats> Rack<V, S> {
    // Makes one call.
    pub fn call(&mut self, call: Call<'_, V::Plain>) -> Answer<V>
        ensures { Does V.algebra V.reads (rules_of S.wants S.births) S.meaning (call_of V.reads call.entry) (seen self.old) (answer_of result) (seen self.new) }
    {
        match call {
            Call::Store(request) => Ok(Done::Stored(self.store(&request)?)),
            Call::Compile { line } => Ok(Done::Compiled(self.compile(line)?)),
            Call::Step => Ok(Done::Stepped(self.step()?)),
            Call::Read { n } => Ok(Done::Listed(self.read(n)?)),
            Call::Drop => Ok(Done::Dropped(self.drop_graph()?)),
        }
    }

    // Makes the calls in their order and writes their answers, as far as there are places for them.
    pub fn perform(&mut self, calls: &[Call<'_, V::Plain>], answers: &mut [Answer<V>])
        ensures { Performed V.algebra V.reads (rules_of S.wants S.births) S.meaning calls.now (seen self.old) answers.old (seen self.new) answers.new }
    {
        let n = calls.len().min(answers.len());
        for (i, call) in calls[..n].iter().enumerate() {
            answers[i] = self.call(*call);
        }
    }
}
