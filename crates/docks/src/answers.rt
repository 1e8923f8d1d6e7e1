// What is asked of a table, answered by the sum over its docks in each kind.
ghost use Rattle.std.specs.Prelude.{◌≡◌, ℕ, ◌<◌, ◌≤◌, ◌++◌, map, length, drop, Decides, count_by};
ghost use Rattle.std.specs.Fn.{FnReturnsAt};
ghost use Rattle.semiring.specs.Kinds.{counts, time, times, flags};
ghost use Rattle.docks.specs.Answers.{row, runs, counts_once, over_docks, connects, totals, Least, FirstLeast};
ghost use Rattle.docks.specs.Tables.{Entry};
ghost use Rattle.docks.specs.Views.{entry_of, entries};

use crate::dock::Dock;
use crate::legs::Leg;
use crate::table::{MOST, Table};
use semiring::{Count, Semiring, Time, dot};

// One leg of each of some docks, stored as a value of a kind, at the front of a row.
fn fill<V: Semiring + Leg, F: Fn(&Dock) -> Time>(docks: &[Dock], leg: F, out: &mut [V::Plain])
    requires callable { F.IsAlwaysCallable leg }
    requires room { length docks.now ≤ length out.old }
    ensures { (time_of : Entry → ℕ) → ((d : Dock) (t : Time) → FnReturnsAt F.Fn leg d t → t.value ≡ time_of (entry_of d))
        → out.new ≡ map V.stored (row V.worth time_of (map entry_of docks.now)) ++ drop (length docks.now) out.old }
{
    for (i, dock) in docks.iter().enumerate() {
        out[i] = V::leg(leg(dock)).plain();
    }
}

// The sum over all docks of the product of their two legs, by way of two rows that are lent for it.
fn answer<V: Semiring + Leg>(
    docks: &[Dock],
    legs_in: &mut [V::Plain],
    legs_out: &mut [V::Plain],
) -> V
    requires room_in { length docks.now ≤ length legs_in.old }
    requires room_out { length docks.now ≤ length legs_out.old }
    ensures { result ≡ over_docks V.algebra V.worth (map entry_of docks.now) }
{
    let n = docks.len();
    fill::<V, _>(docks, |dock| dock.leg_in, legs_in);
    fill::<V, _>(docks, |dock| dock.leg_out, legs_out);
    dot(&legs_in[..n], &legs_out[..n]).unwrap()
}

// The least time of a way over some dock, or none.
pub fn least_time(table: &Table) -> Time
    ensures sum { result ≡ over_docks times time (entries table.now) }
    ensures least { Least (totals (entries table.now)) result.value }
{
    answer(table.docks(), &mut [0; MOST], &mut [0; MOST])
}

// How many docks connect.
pub fn count_docks(table: &Table) -> Count
    ensures sum { result ≡ over_docks counts counts_once (entries table.now) }
    ensures number { result.value ≡ count_by connects (entries table.now) }
{
    answer(table.docks(), &mut [0; MOST], &mut [0; MOST])
}

// Whether any dock connects.
pub fn any_runs(table: &Table) -> bool
    ensures sum { result ≡ over_docks flags runs (entries table.now) }
    ensures any { Decides result (0 < count_by connects (entries table.now)) }
{
    answer(table.docks(), &mut [false; MOST], &mut [false; MOST])
}

// The first dock with the least time, or none where no way over a dock takes a time.
pub fn best_dock(table: &Table) -> Option<usize>
    ensures { FirstLeast (totals (entries table.now)) result }
{
    let least = least_time(table);
    if least.is_zero() {
        return None;
    }
    let i = table.docks().iter().position(|dock| dock.time() == least)?;
    Some(i)
}
