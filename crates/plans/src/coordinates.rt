// Coordinates of rows that stand one after another, read where a last row may be unfinished.
ghost use Rattle.std.specs.Prelude.{◌≡◌, ◌+◌, ◌*◌, ◌<◌, ◌≤◌, length, slice_index};
ghost use Rattle.plans.specs.Rows.{nth_row};

pub(crate) fn row_at(coordinates: &[u32], rank: usize, k: usize) -> &[u32]
    requires { rank * k + rank ≤ length coordinates.now }
    ensures { (result.now ≡ nth_row rank coordinates.now k) × (length result.now ≡ rank) }
{
    let from = rank * k;
    &coordinates[from..from + rank]
}

// The coordinate of row k at this depth.
pub fn coordinate(coordinates: &[u32], rank: usize, k: usize, depth: usize) -> u32
    requires within { rank * k + rank ≤ length coordinates.now }
    requires deep { depth < rank }
    ensures { result ≡ slice_index (nth_row rank coordinates.now k) depth }
{
    row_at(coordinates, rank, k)[depth]
}
