// Any list of calls on a rack just made, and what is promised of it after every one of them; and the same of two racks.
ghost use Rattle.std.specs.Prelude.{ℕ};
ghost use Rattle.plans.specs.Rooms.{rules_of};
ghost use Rattle.rack_state.specs.Snapshots.{Snapshot};
ghost use Rattle.rack.specs.Courses.{Agreement};
ghost use Rattle.rack.specs.Events.{events};
ghost use Rattle.rack.specs.Runs.{Ran};

use crate::events::{Answer, Call};
use crate::rack::Rack;
use levels::Formats;
use rack_state::{Areas, RackSizes};
use semiring::Semiring;

// Makes a rack and the calls on it, in their order, and writes their answers, as far as there are places for them. Wrong sizes are refused, and the areas are
// handed back.
pub fn run<V: Semiring, S: Formats>(
    sizes: RackSizes,
    areas: Areas<V::Plain>,
    calls: &[Call<'_, V::Plain>],
    answers: &mut [Answer<V>],
) -> Result<Rack<V, S>, Areas<V::Plain>>
    ensures { Ran V.algebra V.reads (rules_of S.wants S.births) S.meaning sizes areas calls.now answers.old result answers.new }
{
    let mut rack = Rack::new(sizes, areas)?;
    rack.perform(calls, answers);
    Ok(rack)
}

// Two racks of one kind, each of its own sizes and formats, with its own calls.
pub fn compare<V: Semiring, S: Formats, T: Formats>(
    sizes: RackSizes,
    areas: Areas<V::Plain>,
    calls: &[Call<'_, V::Plain>],
    answers: &mut [Answer<V>],
    other_sizes: RackSizes,
    other_areas: Areas<V::Plain>,
    other_calls: &[Call<'_, V::Plain>],
    other_answers: &mut [Answer<V>],
) -> (
    Result<Rack<V, S>, Areas<V::Plain>>,
    Result<Rack<V, T>, Areas<V::Plain>>,
)
    ensures first { Ran V.algebra V.reads (rules_of S.Formats.wants S.Formats.births) S.Formats.meaning sizes areas calls.now answers.old result.0 answers.new }
    ensures second { Ran V.algebra V.reads (rules_of T.Formats.wants T.Formats.births) T.Formats.meaning other_sizes other_areas other_calls.now other_answers.old result.1 other_answers.new }
    ensures agreement { (s t : Snapshot V.Plain) → Agreement V.algebra V.reads (rules_of S.Formats.wants S.Formats.births) (rules_of T.Formats.wants T.Formats.births) S.Formats.meaning T.Formats.meaning s (events V.reads calls.now answers.new) t (events V.reads other_calls.now other_answers.new) }
{
    let first = run(sizes, areas, calls, answers);
    let second = run(other_sizes, other_areas, other_calls, other_answers);
    (first, second)
}
