// Reads a line and judges it by its conditions.
#![tactic(auto)]

mod accesses;
mod evenness;
mod extents;
mod faults;
mod given;
mod judging;
mod limits;
mod line;
mod misfits;
mod orders;
mod sets;

pub use accesses::{Access, Accesses};
pub use faults::{LineFault, Rule};
pub use given::{Extents, Slots};
pub use judging::read_line;
pub use line::Syntax;
pub use reader::VarList;
