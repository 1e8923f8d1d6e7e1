// Why a level was not built.
ghost use Rattle.std.specs.Prelude.{◌++◌, Some, codes};
ghost use Rattle.std.specs.Fmt.{decimal};

use std::error::Error;
use std::fmt;

// The words that the level needs, and those that were given.
#[derive(Clone, Copy, Debug, PartialEq, Eq)]
pub struct Short {
    pub need: usize,
    pub free: usize,
}

impl fmt::Display for Short {
    ghost output = { λ s. Some (decimal s.need ++ (codes " words needed, " ++ (decimal s.free ++ codes " free"))) };

    fn fmt<W: fmt::Write>(&self, f: &mut fmt::Formatter<W>) -> fmt::Result {
        write!(f, "{} words needed, {} free", self.need, self.free)
    }
}

impl Error for Short {}
