// The streams that a graph has made so far: where the tape of each lies in the stream words, by its number.
#![tactic(auto)]

mod fault;
mod record;
mod recording;

pub use fault::NoRoom;
pub use record::Tapes;
