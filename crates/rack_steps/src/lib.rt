// STEP of a rack: the next command of its graph carried out.
#![tactic(auto)]

mod stepping;
mod within;

pub use stepping::step;
