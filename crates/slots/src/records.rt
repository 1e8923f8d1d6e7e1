// The records of the slots.
ghost use Rattle.std.specs.Prelude.{◌≡◌, ◌≤◌, length};

use formats::LevelSize;

// A level: the number of its format, and its size.
#[derive(Clone, Copy)]
pub struct LevelRecord {
    pub format: u8,
    pub size: LevelSize,
}

// A tensor: its levels, the outermost first, of which the first `rank` count, and the value positions that it uses. An array and a rank, since
// records are copied, and an `ArrayVec` is not.
#[derive(Clone, Copy)]
pub struct TensorRecord {
    pub rank: usize,
    pub levels: [LevelRecord; 3],
    pub positions: usize,
    ghost shallow: { rank ≤ 3 },
}

// The eight slots, A to H; none where a slot is empty.
#[derive(Clone, Copy)]
pub struct Slots {
    pub records: [Option<TensorRecord>; 8],
    ghost eight: { length records ≡ 8 },
}
