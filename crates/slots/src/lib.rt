// What a rack knows of its eight slots: a record for each, and where a slot's levels and values lie.
#![tactic(auto)]

mod areas;
mod making;
mod parts;
mod records;
mod shelf;

pub use areas::{SlotAreas, SlotSizes};
pub use parts::SlotNumber;
pub use records::{LevelRecord, Slots, TensorRecord};
