// Streams of values that blocks put out: given item by item, counted and written, tape and values, for every kind of value.
#![tactic(auto)]

pub mod item;
pub mod lookup;
pub mod source;
