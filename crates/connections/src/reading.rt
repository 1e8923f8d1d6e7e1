// Shows what a line says, or where it is at fault. A line is read over two slots: A holds the legs into the docks, B those out of them.
ghost use Rattle.std.specs.Prelude.{◌≡◌, [], ◌∷◌, Some, None};
ghost use Rattle.lines.specs.Given.{slots_of};

use lines::{Access, Extents, LineFault, Slots, Syntax, VarList, read_line};
use reader::Node;
use std::{io, iter};

// A and B have one argument, the dock.
pub fn leg_slots(docks: u32) -> Slots
    ensures { ((slots_of result 0 ≡ Some (docks ∷ [])) × (slots_of result 1 ≡ Some (docks ∷ []))) × (slots_of result 2 ≡ None) }
{
    let legs = Some(Extents {
        rank: 1,
        extents: [docks, 0, 0],
    });
    Slots {
        tensors: [legs, legs, None, None, None, None, None, None],
    }
}

fn show_vars(rt: &impl Print, text: &[u8], vars: VarList) -> io::Result<()> {
    for (_, var) in vars.vars(text) {
        print!(rt; " {}", var as char)?;
    }
    println!(rt; "")
}

fn show_access(rt: &impl Print, text: &[u8], access: Access) -> io::Result<()> {
    let place = access.place;
    if let Some(letter) = text.get(place).map(|byte| *byte as char) {
        print!(rt; "  access {letter} at {place}, variables")?;
        show_vars(rt, text, access.vars)?;
    }
    Ok(())
}

// Each sign of the outer sum has a term to its right, and the first term stands left of them all.
fn count_terms(line: &Syntax) -> usize {
    let left_of = |at: &usize| match line.parsed.arena.get(*at) {
        Some(Node::Plus { left, .. }) => Some(left),
        _ => None,
    };
    // a line has at most 256 nodes
    iter::successors(Some(line.parsed.root), left_of)
        .take(256)
        .count()
}

fn show_syntax(rt: &impl Print, text: &[u8], line: &Syntax) -> io::Result<()> {
    let terms = count_terms(line);
    let accesses = line.accesses.len();
    println!(rt; "  terms: {terms}, accesses: {accesses}")?;
    for access in line.accesses.as_slice() {
        show_access(rt, text, *access)?;
    }
    print!(rt; "  loop order")?;
    show_vars(rt, text, line.order)
}

fn show_fault(rt: &impl Print, fault: LineFault) -> io::Result<()> {
    let number = fault.rule.number();
    let place = fault.place;
    let width = place.saturating_add(1);
    println!(rt; "{:>width$}", '^')?;
    println!(rt; "  refused: {number}, {place}")
}

// What a line says over the slots, or the number and the place at fault with a caret below the byte.
pub fn show_line(rt: &impl Print, text: &str, slots: &Slots) -> io::Result<()> {
    println!(rt; "{text}")?;
    let bytes = text.as_bytes();
    match read_line(bytes, slots) {
        Ok(line) => show_syntax(rt, bytes, &line),
        Err(fault) => show_fault(rt, fault),
    }
}
