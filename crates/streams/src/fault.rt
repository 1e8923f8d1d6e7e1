// Why a stream is not added.
use std::error::Error;
use std::fmt;

// A block's words or values find no room.
#[derive(Clone, Copy, PartialEq, Eq, Debug)]
pub struct NoRoom;

impl fmt::Display for NoRoom {
    fn fmt<W: fmt::Write>(&self, f: &mut fmt::Formatter<W>) -> fmt::Result {
        f.write_str("no room for the words or the values of a stream")
    }
}

impl Error for NoRoom {}
