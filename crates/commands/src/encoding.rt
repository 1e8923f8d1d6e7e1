// From commands to bytes.
ghost use Rattle.std.specs.Prelude.{◌≡◌, ◌≤◌, length, take};
ghost use Rattle.commands.specs.Bytes.{bytes, Encoded};
ghost use Rattle.commands.specs.declared.command.Command.TheVariants.{Write};
ghost use Rattle.commands.specs.Names.{name_of};

use crate::command::{Command, DepthStreams, KeyDepths};
use std::fmt;

// The longest command, a WRITE, has so many bytes.
const LONGEST: usize = 10;

// The bytes of a command, filled up to those of the longest.
type Row = [u8; LONGEST];

fn write_row(depth: u8, values: u8, coordinates: DepthStreams, keys: KeyDepths) -> Row
    ensures { result ≡ bytes (Write depth values coordinates keys) }
{
    let [a, b, c, d] = coordinates.bytes;
    let [i, j, k] = keys.bytes;
    [0x0B, depth, values, a, b, c, d, i, j, k]
}

impl Command {
    // Its bytes, filled up.
    fn row(self) -> Row
        ensures { take (length (bytes self)) result ≡ bytes self }
    {
        match self {
            Command::Root { out } => [0x01, out, 0, 0, 0, 0, 0, 0, 0, 0],
            Command::Scan {
                tensor,
                level,
                references: r,
                coordinates_out: c,
                references_out: k,
            } => [0x02, tensor, level, r, c, k, 0, 0, 0, 0],
            Command::Meet { a, b, out } => [0x03, a, b, out, 0, 0, 0, 0, 0, 0],
            Command::Join { a, b, out } => [0x04, a, b, out, 0, 0, 0, 0, 0, 0],
            Command::Align {
                coordinates: c,
                references: r,
                z,
                out,
            } => [0x05, c, r, z, out, 0, 0, 0, 0, 0],
            Command::Repeat { references, z, out } => [0x06, references, z, out, 0, 0, 0, 0, 0, 0],
            Command::Load {
                tensor,
                references,
                out,
            } => [0x07, tensor, references, out, 0, 0, 0, 0, 0, 0],
            Command::Mul { a, b, out } => [0x08, a, b, out, 0, 0, 0, 0, 0, 0],
            Command::Add { a, b, out } => [0x09, a, b, out, 0, 0, 0, 0, 0, 0],
            Command::Sum { a, out } => [0x0A, a, out, 0, 0, 0, 0, 0, 0, 0],
            Command::Write {
                depth,
                values,
                coordinates,
                keys,
            } => write_row(depth, values, coordinates, keys),
        }
    }

    // How many bytes it has.
    pub fn len(self) -> usize
        ensures value { result ≡ length (bytes self) }
        ensures bound { result ≤ 10 }
    {
        match self {
            Command::Root { .. } => 2,
            Command::Scan { .. } => 6,
            Command::Meet { .. } => 4,
            Command::Join { .. } => 4,
            Command::Align { .. } => 5,
            Command::Repeat { .. } => 4,
            Command::Load { .. } => 4,
            Command::Mul { .. } => 4,
            Command::Add { .. } => 4,
            Command::Sum { .. } => 3,
            Command::Write { .. } => 10,
        }
    }

    // Writes its bytes to the front of an area; none where the area is too short, which then stays as it is.
    pub fn encode(self, area: &mut [u8]) -> Option<usize>
        ensures { Encoded self area.old result area.new }
    {
        let len = self.len();
        if area.len() < len {
            return None;
        }
        let row = self.row();
        area[..len].copy_from_slice(&row[..len]);
        Some(len)
    }

    // The name of its block.
    pub fn name(self) -> &'static str
        ensures { result.now ≡ name_of self }
    {
        match self {
            Command::Root { .. } => "ROOT",
            Command::Scan { .. } => "SCAN",
            Command::Meet { .. } => "MEET",
            Command::Join { .. } => "JOIN",
            Command::Align { .. } => "ALIGN",
            Command::Repeat { .. } => "REPEAT",
            Command::Load { .. } => "LOAD",
            Command::Mul { .. } => "MUL",
            Command::Add { .. } => "ADD",
            Command::Sum { .. } => "SUM",
            Command::Write { .. } => "WRITE",
        }
    }
}

// A command by its name, with its operands.
impl fmt::Display for Command {
    fn fmt<W: fmt::Write>(&self, f: &mut fmt::Formatter<W>) -> fmt::Result {
        f.write_str(self.name())?;
        let row = self.row();
        for operand in row[..self.len()].iter().skip(1) {
            write!(f, " {}", *operand)?;
        }
        Ok(())
    }
}
