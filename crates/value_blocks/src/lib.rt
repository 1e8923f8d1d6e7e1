// LOAD, MUL, ADD and SUM over streams by their numbers: each finds the tapes, computes, and records the new tape.
#![tactic(auto)]

mod combining;
mod loading;
mod summing;

pub use combining::{add, multiply};
pub use loading::load;
pub use summing::sum;
