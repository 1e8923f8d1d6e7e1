// Sets of variables.
ghost use Rattle.std.specs.Prelude.{◌≡◌, length};

mod members;

// Which of the letters a to z are in the set.
#[derive(Clone, Copy)]
pub(crate) struct VarSet {
    present: [bool; 26],
    ghost letters: { length present ≡ 26 },
}
