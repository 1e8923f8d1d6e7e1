// Where a text stops being a line.
use std::error::Error;
use std::fmt;

// The place of the first byte that no line goes on with, or the length.
#[derive(Clone, Copy, Debug, PartialEq, Eq)]
pub struct GrammarFault {
    pub place: usize,
}

impl fmt::Display for GrammarFault {
    fn fmt<W: fmt::Write>(&self, f: &mut fmt::Formatter<W>) -> fmt::Result {
        write!(f, "no line from byte {} on", self.place)
    }
}

impl Error for GrammarFault {}
