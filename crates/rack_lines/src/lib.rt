// COMPILE: a line read over what the slots hold, and its graph loaded.
#![tactic(auto)]

mod compiling;
mod seeing;

pub use compiling::compile;
