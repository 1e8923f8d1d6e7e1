// One block of a graph with its operands; streams go by their numbers.
ghost use Rattle.std.specs.Prelude.{◌≡◌, length};

use std::error::Error;
use std::fmt;

#[derive(Clone, Copy, PartialEq, Eq, Debug)]
pub enum Command {
    Root {
        out: u8,
    },
    Scan {
        tensor: u8,
        level: u8,
        references: u8,
        coordinates_out: u8,
        references_out: u8,
    },
    Meet {
        a: u8,
        b: u8,
        out: u8,
    },
    Join {
        a: u8,
        b: u8,
        out: u8,
    },
    Align {
        coordinates: u8,
        references: u8,
        z: u8,
        out: u8,
    },
    Repeat {
        references: u8,
        z: u8,
        out: u8,
    },
    Load {
        tensor: u8,
        references: u8,
        out: u8,
    },
    Mul {
        a: u8,
        b: u8,
        out: u8,
    },
    Add {
        a: u8,
        b: u8,
        out: u8,
    },
    Sum {
        a: u8,
        out: u8,
    },
    Write {
        depth: u8,
        values: u8,
        coordinates: DepthStreams,
        keys: KeyDepths,
    },
}

// As many bytes as a WRITE has of a sort, filled up where fewer are meant.
#[derive(Clone, Copy, PartialEq, Eq, Debug)]
pub struct Padded<const N: usize> {
    pub bytes: [u8; N],
    ghost whole: { length bytes ≡ N },
}

// The coordinate streams of the depths, the outermost first; FF past the last.
pub type DepthStreams = Padded<4>;

// For each left variable its depth, from 1; 00 past the last.
pub type KeyDepths = Padded<3>;

// No command begins so, or its operands are cut off.
#[derive(Clone, Copy, PartialEq, Eq, Debug)]
pub struct UnknownCommand;

impl fmt::Display for UnknownCommand {
    fn fmt<W: fmt::Write>(&self, f: &mut fmt::Formatter<W>) -> fmt::Result {
        f.write_str("bytes that begin with no command")
    }
}

impl Error for UnknownCommand {}
