// Reads a line by its grammar alone: a tree of nodes, or the place at which the text stops being a line.
#![tactic(auto)]

mod arena;
mod faults;
mod node;
mod parsing;
mod scan;
mod vars;

pub use arena::Arena;
pub use faults::GrammarFault;
pub use node::Node;
pub use parsing::{Parsed, parse};
pub use scan::is_var;
pub use vars::{VarList, Vars};
