// Why two rows are not multiplied into a third.
use std::error::Error;
use std::fmt;

#[derive(Clone, Copy, PartialEq, Eq, Debug)]
pub enum RowFault {
    // the two rows are not of one length
    Lengths,
    // the third row is shorter than they
    Room,
}

impl fmt::Display for RowFault {
    fn fmt<W: fmt::Write>(&self, f: &mut fmt::Formatter<W>) -> fmt::Result {
        f.write_str(match self {
            RowFault::Lengths => "two rows that are not of one length",
            RowFault::Room => "a row that is shorter than the products",
        })
    }
}

impl Error for RowFault {}
