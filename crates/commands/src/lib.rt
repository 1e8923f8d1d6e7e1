// Commands of a graph and their bytes.
#![tactic(auto)]

mod command;
mod decoding;
mod encoding;

pub use command::{Command, DepthStreams, KeyDepths, Padded, UnknownCommand};
pub use decoding::decode;
