// From bytes to commands.
ghost use Rattle.std.specs.Prelude.{◌≡◌, [], ◌∷◌, length, Some};
ghost use Rattle.commands.specs.Bytes.{bytes as image, operands as arity, Begins, Rereads};
ghost use Rattle.commands.specs.Held.{ReadsModel};

use crate::command::{Command, DepthStreams, KeyDepths, UnknownCommand};

// How many operands follow the byte of a block; none where no block has that byte.
// The bytes also stand in `build` and in `Command::row`: an enum of blocks would list the eleven two more times.
fn operand_count(op: u8) -> Option<usize>
    ensures { result ≡ arity op }
{
    match op {
        0x01 => Some(1),
        0x0A => Some(2),
        0x03 | 0x04 | 0x06 | 0x07 | 0x08 | 0x09 => Some(3),
        0x05 => Some(4),
        0x02 => Some(5),
        0x0B => Some(9),
        _ => None,
    }
}

// The command of a block of two streams that makes a third.
fn pair(op: u8, a: u8, b: u8, out: u8) -> Command
    requires { arity op ≡ Some 3 }
    ensures { image result ≡ op ∷ a ∷ b ∷ out ∷ [] }
{
    match op {
        0x03 => Command::Meet { a, b, out },
        0x04 => Command::Join { a, b, out },
        0x06 => Command::Repeat {
            references: a,
            z: b,
            out,
        },
        0x07 => Command::Load {
            tensor: a,
            references: b,
            out,
        },
        0x08 => Command::Mul { a, b, out },
        _ => Command::Add { a, b, out },
    }
}

// The command of a block with its operands.
fn build(op: u8, x: &[u8]) -> Command
    requires { arity op ≡ Some (length x.now) }
    ensures { image result ≡ op ∷ x.now }
{
    match op {
        0x01 => Command::Root { out: x[0] },
        0x02 => Command::Scan {
            tensor: x[0],
            level: x[1],
            references: x[2],
            coordinates_out: x[3],
            references_out: x[4],
        },
        0x05 => Command::Align {
            coordinates: x[0],
            references: x[1],
            z: x[2],
            out: x[3],
        },
        0x0A => Command::Sum { a: x[0], out: x[1] },
        0x0B => Command::Write {
            depth: x[0],
            values: x[1],
            coordinates: DepthStreams {
                bytes: [x[2], x[3], x[4], x[5]],
            },
            keys: KeyDepths {
                bytes: [x[6], x[7], x[8]],
            },
        },
        _ => pair(op, x[0], x[1], x[2]),
    }
}

// The command that the bytes begin with, or none at the end of a graph; nothing past a command is read.
pub fn decode(bytes: &[u8]) -> Result<Option<Command>, UnknownCommand>
    ensures begins { Begins bytes.now result }
    ensures rereads { Rereads bytes.now result }
    ensures model { ReadsModel bytes.now result }
{
    if bytes.len() == 0 {
        return Err(UnknownCommand);
    }
    let op = bytes[0];
    if op == 0x00 {
        return Ok(None);
    }
    let Some(count) = operand_count(op) else {
        return Err(UnknownCommand);
    };
    if bytes.len() <= count {
        return Err(UnknownCommand);
    }
    Ok(Some(build(op, &bytes[1..count + 1])))
}
