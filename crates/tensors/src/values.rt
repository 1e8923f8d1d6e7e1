// A tensor's values at their positions.
ghost use Rattle.std.specs.Prelude.{◌≡◌, ℕ, ◌<◌, map, length, replicate, slice_index};
ghost use Rattle.tensors.specs.Fillings.{scattered};

use semiring::Semiring;

// Zero at every position, and then each entry's value at its own.
pub(crate) fn fill_values<V: Semiring>(
    positions: &[u32],
    entries: &[V::Plain],
    values: &mut [V::Plain],
)
    requires paired { length positions.now ≡ length entries.now }
    requires within { (k : ℕ) → k < length positions.now → slice_index positions.now k < length values.old }
    ensures { map V.reads values.new ≡ scattered positions.now (map V.reads entries.now) (replicate (length values.old) V.algebra.zero) }
{
    fill(values, V::zero().plain());
    for (position, value) in positions.iter().zip(entries) {
        values[*position as usize] = *value;
    }
}

// Not the library's `fill`, which asks that a clone succeed (`fill-requires`): no clause says so of a kind's plain values.
fn fill<P: Copy>(values: &mut [P], value: P)
    ensures { values.new ≡ replicate (length values.old) value }
{
    for place in values.iter_mut() {
        *place = value;
    }
}
