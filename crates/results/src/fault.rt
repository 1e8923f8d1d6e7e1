// Why a value is not added to a result table.
use std::error::Error;
use std::fmt;

// its key is new, and a row is full
#[derive(Clone, Copy, PartialEq, Eq, Debug)]
pub struct TableFull;

impl fmt::Display for TableFull {
    fn fmt<W: fmt::Write>(&self, f: &mut fmt::Formatter<W>) -> fmt::Result {
        f.write_str("no room for another key")
    }
}

impl Error for TableFull {}
