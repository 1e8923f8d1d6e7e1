// Tapes of tokens in one area of words: how tokens are read and written, cursors over what is to come, and ROOT.
#![tactic(auto)]

pub mod emission;
pub mod part;
pub mod root;
pub mod token;
