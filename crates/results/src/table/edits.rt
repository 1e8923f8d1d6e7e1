// What is done with a result table: its rows are handed to the functions over lent rows.
ghost use Rattle.std.specs.Prelude.{◌≡◌};
ghost use Rattle.std.specs.List.{slice_get};
ghost use Rattle.std.specs.Option.{option_map};
ghost use Rattle.model.specs.Running.{results};
ghost use Rattle.results.specs.Keys.{coordinates};
ghost use Rattle.results.specs.Held.{held, Grown};

use super::ResultTable;
use crate::fault::TableFull;
use crate::key::ResultKey;
use crate::listing::nth_nonzero;
use crate::rows::add;
use semiring::Semiring;

impl<P: Copy> ResultTable<'_, '_, P> {
    // Adds a value at a key; refused, with nothing stored, where the key is new and a row is full.
    pub fn add_value<V: Semiring<Plain = P>>(
        &mut self,
        key: ResultKey,
        value: V,
    ) -> Result<(), TableFull>
        ensures held { Grown V.algebra V.reads (coordinates key) value self.old result self.new }
        ensures keys { self.new.keys.ghost_name ≡ self.old.keys.ghost_name }
        ensures values { self.new.values.ghost_name ≡ self.old.values.ghost_name }
    {
        let ResultTable { keys, values, len } = self;
        match add(keys, values, *len, key, value) {
            Some(n) => {
                *len = n;
                Ok(())
            }
            None => Err(TableFull),
        }
    }

    // The nth entry that is not zero, from 0.
    pub fn entry<V: Semiring<Plain = P>>(&self, n: usize) -> Option<(ResultKey, V)>
        ensures { option_map (λ e. (coordinates e.0, e.1)) result ≡ slice_get (results V.algebra (held V.reads self.now)) n }
    {
        nth_nonzero(self.keys, self.values, self.len, n)
    }
}
