// What can be wrong with a table.
use std::error::Error;
use std::fmt;

#[derive(Clone, Copy, PartialEq, Eq, Debug)]
pub enum TableFault {
    // not three fields
    Fields,
    // no name of 1 to 16 letters, digits, '_' or '-'
    Name,
    // neither '-' nor a number
    Number,
    // a number that is no time
    TooLarge,
    // more than 64 lines
    TooMany,
}

impl fmt::Display for TableFault {
    fn fmt<W: fmt::Write>(&self, f: &mut fmt::Formatter<W>) -> fmt::Result {
        f.write_str(match self {
            TableFault::Fields => "not three fields with one space between them",
            TableFault::Name => "no name of 1 to 16 letters, digits, '_' or '-'",
            TableFault::Number => "a leg that is neither '-' nor a number",
            TableFault::TooLarge => "a time that is not below 4294967295",
            TableFault::TooMany => "more than 64 docks",
        })
    }
}

impl Error for TableFault {}

// The first line at fault, from 1, and its fault.
#[derive(Clone, Copy, PartialEq, Eq, Debug)]
pub struct TableError {
    pub line: usize,
    pub fault: TableFault,
}

impl fmt::Display for TableError {
    fn fmt<W: fmt::Write>(&self, f: &mut fmt::Formatter<W>) -> fmt::Result {
        let TableError { line, fault } = *self;
        write!(f, "line {line}: {fault}")
    }
}

impl Error for TableError {}
