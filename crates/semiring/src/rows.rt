// Code over lent rows of stored values, written once for every kind.
ghost use Rattle.std.specs.Prelude.{◌≡◌, map, length};
ghost use Rattle.std.specs.Option.{SomeIff};
ghost use Rattle.model.specs.Semirings.{total, dot as dot_product};
ghost use Rattle.semiring.specs.Rows.{Multiplied};

use crate::Semiring;
use crate::fault::RowFault;

// The sum of a row; of an empty one, zero.
pub fn sum_row<V: Semiring>(row: &[V::Plain]) -> V
    ensures { result ≡ total V.algebra (map V.reads row.now) }
{
    let mut sum = V::zero();
    for x in row {
        let value = V::read(*x);
        sum = sum.add(value);
    }
    sum
}

// The products of two rows, place by place, into the front of a third; answers how many were written.
pub fn multiply_rows<V: Semiring>(
    a: &[V::Plain],
    b: &[V::Plain],
    out: &mut [V::Plain],
) -> Result<usize, RowFault>
    ensures { Multiplied V.algebra V.reads V.stored a.now b.now out.old out.new result }
{
    if a.len() != b.len() {
        return Err(RowFault::Lengths);
    }
    if out.len() < a.len() {
        return Err(RowFault::Room);
    }
    for (i, (x, y)) in a.iter().zip(b).enumerate() {
        out[i] = V::read(*x).mul(V::read(*y)).plain();
    }
    Ok(a.len())
}

// The sum of the products of two rows; none exactly if they are not of one length.
pub fn dot<V: Semiring>(a: &[V::Plain], b: &[V::Plain]) -> Option<V>
    ensures { SomeIff result (length a.now ≡ length b.now) (dot_product V.algebra (map V.reads a.now) (map V.reads b.now)) }
{
    if a.len() != b.len() {
        return None;
    }
    let mut sum = V::zero();
    for (x, y) in a.iter().zip(b) {
        sum = sum.add(V::read(*x).mul(V::read(*y)));
    }
    Some(sum)
}
