// Levels whose format is known by a stored number, and code that is written once for all formats.
#![tactic(auto)]

mod family;
mod questions;
mod stored;
mod two;

pub use family::Formats;
pub use stored::StoredLevel;
pub use two::Two;
