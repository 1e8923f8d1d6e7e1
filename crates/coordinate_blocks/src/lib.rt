// The blocks that compute no values, over streams that are given by their numbers: each finds the tapes, and records the tapes that it writes.
#![tactic(auto)]

mod aligns;
mod merges;
mod roots;
mod scans;

pub use aligns::{align, repeat};
pub use merges::{join, meet};
pub use roots::root;
pub use scans::scan;
