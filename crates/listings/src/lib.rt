// The commands of a graph one by one, for those who print them: as bytes, by their names, and as a DOT picture.
#![tactic(auto)]

ghost use Rattle.std.specs.Prelude.{◌∷◌, ◌<◌, ◌≤◌, length, take, IfSome};
ghost use Rattle.commands.specs.Held.{meant};
ghost use Rattle.listings.specs.Listings.{StandsAt, FindsModel, streams_read, streams_made, Lists};

pub mod printing;
pub mod walk;

use commands::{Command, DepthStreams, decode};

// A command, and the place behind its bytes.
#[derive(Clone, Copy, PartialEq, Eq, Debug)]
pub struct Placed {
    pub command: Command,
    pub next: usize,
}

// The command at a place of a graph's bytes.
pub fn command_at(bytes: &[u8], at: usize) -> Option<Placed>
    ensures forth { IfSome result (λ p. (at < p.next) × (p.next ≤ length bytes.now)) }
    ensures stands { StandsAt bytes.now at result }
    ensures model { FindsModel bytes.now at result }
{
    if at > bytes.len() {
        return None;
    }
    let Ok(Some(command)) = decode(&bytes[at..]) else {
        return None;
    };
    Some(Placed {
        command,
        next: at + command.len(),
    })
}

// Numbers of streams: the first `len`. A WRITE at depth 4 reads five, and no command reads or makes more.
#[derive(Clone, Copy)]
pub struct Streams {
    pub numbers: [u8; 5],
    pub len: usize,
}

// The values of a WRITE, and its coordinate streams down to its depth.
fn leaves(depth: u8, values: u8, coordinates: DepthStreams) -> Streams
    ensures { Lists result (values ∷ take depth coordinates.bytes) }
{
    let [a, b, c, d] = coordinates.bytes;
    Streams {
        numbers: [values, a, b, c, d],
        len: 1 + usize::from(depth).min(4),
    }
}

// The streams that a command reads.
pub fn reads(command: Command) -> Streams
    ensures { Lists result (streams_read (meant command)) }
{
    match command {
        Command::Root { .. } => Streams {
            numbers: [0; 5],
            len: 0,
        },
        Command::Scan { references: a, .. }
        | Command::Load { references: a, .. }
        | Command::Sum { a, .. } => Streams {
            numbers: [a, 0, 0, 0, 0],
            len: 1,
        },
        Command::Meet { a, b, .. }
        | Command::Join { a, b, .. }
        | Command::Mul { a, b, .. }
        | Command::Add { a, b, .. }
        | Command::Repeat {
            references: a,
            z: b,
            ..
        } => Streams {
            numbers: [a, b, 0, 0, 0],
            len: 2,
        },
        Command::Align {
            coordinates,
            references,
            z,
            ..
        } => Streams {
            numbers: [coordinates, references, z, 0, 0],
            len: 3,
        },
        Command::Write {
            depth,
            values,
            coordinates,
            ..
        } => leaves(depth, values, coordinates),
    }
}

// The streams that a command makes.
pub fn makes(command: Command) -> Streams
    ensures { Lists result (streams_made (meant command)) }
{
    match command {
        Command::Root { out }
        | Command::Meet { out, .. }
        | Command::Join { out, .. }
        | Command::Align { out, .. }
        | Command::Repeat { out, .. }
        | Command::Load { out, .. }
        | Command::Mul { out, .. }
        | Command::Add { out, .. }
        | Command::Sum { out, .. } => Streams {
            numbers: [out, 0, 0, 0, 0],
            len: 1,
        },
        Command::Scan {
            coordinates_out,
            references_out,
            ..
        } => Streams {
            numbers: [coordinates_out, references_out, 0, 0, 0],
            len: 2,
        },
        Command::Write { .. } => Streams {
            numbers: [0; 5],
            len: 0,
        },
    }
}
