// Where the tapes of the streams lie, one after another from the first stream word on.
ghost use Rattle.std.specs.Prelude.{◌≡◌, length};

// Stream n lies from starts[n] up to, and without, starts[n + 1]. The first `used` words and the first `taken` values are in use.
// Words and values are lent beside it: in a struct of all three each contract would owe that every reference in it stays the same one.
// An array with its count, and no growing list: that is not copied, and to clear it every place is written.
#[derive(Clone, Copy)]
pub struct Tapes {
    pub starts: [usize; 256],
    pub count: usize,
    pub used: usize,
    pub taken: usize,
    ghost room: { length starts ≡ 256 },
}
