// One command of a graph carried out, over the slots, the streams made so far, and the result.
#![tactic(auto)]

mod adding;
mod carrying;
mod leaves;
mod slotted;

pub use carrying::carry_out;
