// The result table as one value: two lent rows, of which the first `len` places are in use, and keys that ascend there.
ghost use Rattle.std.specs.Prelude.{◌≡◌, ◌≤◌, true, length};
ghost use Rattle.results.specs.Keys.{ascending};
ghost use Rattle.results.specs.Tables.{first_keys};

use crate::key::ResultKey;

pub mod edits;

#[derive(Drop)]
pub struct ResultTable<'k, 'v, P> {
    pub keys: &'k mut [ResultKey],
    pub values: &'v mut [P],
    pub len: usize,
    ghost fit: { len ≤ length keys.now },
    ghost paired: { len ≤ length values.now },
    ghost ascends: { ascending (first_keys keys.now len) ≡ true },
}
