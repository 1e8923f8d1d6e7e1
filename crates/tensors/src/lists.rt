// The entries that a level is built from: an owner and a coordinate for each front of the rows.
ghost use Rattle.std.specs.Prelude.{◌≡◌, ◌<◌, ◌≤◌, map, length};
ghost use Rattle.plans.specs.Rows.{rows_in};
ghost use Rattle.tensors.specs.Fillings.{picked, pair_of};

use formats::Entry;
use plans::Rows;

// The most entries that an accepted tensor has.
pub(crate) const MAX_ENTRIES: usize = 4096;

// The entries of the level at this depth, which are written to the front of lent ones.
pub(crate) fn pick<'e>(
    rows: &Rows<'_>,
    depth: usize,
    owners: &[u32],
    entries: &'e mut [Entry],
) -> &'e [Entry]
    requires paired { rows.now.count ≡ length owners.now }
    requires room { length owners.now ≤ length entries.old }
    requires deep { depth < rows.now.rank }
    ensures few { length result.now ≤ length owners.now }
    ensures entries { map pair_of result.now ≡ picked depth owners.now (rows_in rows.now) }
{
    let mut n = 0;
    for (k, owner) in owners.iter().enumerate() {
        if rows.ends_front(depth + 1, k) {
            entries[n] = Entry {
                owner: *owner,
                coordinate: rows.coordinate(k, depth),
            };
            n += 1;
        }
    }
    &entries[..n]
}
