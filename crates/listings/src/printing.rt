// Graphs in print.
use crate::walk::Commands;
use crate::{makes, reads};
use commands::Command;
use std::fmt;

// The bytes of a graph, two digits each, a line for each command.
#[derive(Clone, Copy)]
pub struct Hexadecimal<'a>(pub &'a [u8]);

// The commands of a graph by their names, a line for each.
#[derive(Clone, Copy)]
pub struct Named<'a>(pub &'a [u8]);

// The commands of a graph and the streams between them, as a picture that `dot` draws.
#[derive(Clone, Copy)]
pub struct Dot<'a>(pub &'a [u8]);

impl fmt::Display for Named<'_> {
    fn fmt<W: fmt::Write>(&self, f: &mut fmt::Formatter<W>) -> fmt::Result {
        for (_, placed) in Commands::of(self.0) {
            writeln!(f, "{}", placed.command)?;
        }
        Ok(())
    }
}

fn show_bytes<W: fmt::Write>(bytes: &[u8], f: &mut fmt::Formatter<W>) -> fmt::Result {
    for byte in bytes {
        write!(f, "{:02X} ", *byte)?;
    }
    writeln!(f)
}

impl fmt::Display for Hexadecimal<'_> {
    fn fmt<W: fmt::Write>(&self, f: &mut fmt::Formatter<W>) -> fmt::Result {
        let mut end = 0;
        for (at, placed) in Commands::of(self.0) {
            end = placed.next;
            show_bytes(&self.0[at..end], f)?;
        }
        // what is no command: the end
        show_bytes(&self.0[end..], f)
    }
}

// The streams that a command reads lead to it, those that it makes lead away from it.
fn show_edges<W: fmt::Write>(
    command: Command,
    index: usize,
    f: &mut fmt::Formatter<W>,
) -> fmt::Result {
    let inputs = reads(command);
    for stream in &inputs.numbers[..inputs.len] {
        writeln!(f, "    s{} -> c{index};", *stream)?;
    }
    let outputs = makes(command);
    for stream in &outputs.numbers[..outputs.len] {
        writeln!(f, "    c{index} -> s{};", *stream)?;
    }
    Ok(())
}

impl fmt::Display for Dot<'_> {
    fn fmt<W: fmt::Write>(&self, f: &mut fmt::Formatter<W>) -> fmt::Result {
        writeln!(f, "digraph commands {{")?;
        for (at, placed) in Commands::of(self.0) {
            writeln!(f, "    c{at} [shape=box, label=\"{}\"];", placed.command)?;
            show_edges(placed.command, at, f)?;
        }
        writeln!(f, "}}")
    }
}
