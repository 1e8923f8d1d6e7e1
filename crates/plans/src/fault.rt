// Why a STORE is refused.
use std::error::Error;
use std::fmt;

#[derive(Clone, Copy, PartialEq, Eq, Debug)]
pub enum StoreFault {
    // no such slot
    Slot(usize),
    // sizes or lists that do not fit
    Shape,
    // this entry is outside an extent or not after the one before it
    Entry(usize),
    // the levels or the values do not fit the slot
    Room,
}

impl fmt::Display for StoreFault {
    fn fmt<W: fmt::Write>(&self, f: &mut fmt::Formatter<W>) -> fmt::Result {
        match self {
            StoreFault::Slot(slot) => write!(f, "no slot {slot}"),
            StoreFault::Shape => f.write_str("sizes or lists that do not fit"),
            StoreFault::Entry(index) => write!(
                f,
                "entry {index} outside an extent or out of order"
            ),
            StoreFault::Room => f.write_str("no room in the slot"),
        }
    }
}

impl Error for StoreFault {}
