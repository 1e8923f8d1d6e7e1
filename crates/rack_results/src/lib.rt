// The result of a rack: READ lists it, and DROP removes it with its graph.
#![tactic(auto)]

mod dropping;
mod reading;

pub use dropping::drop_graph;
pub use reading::read;
