// Formats of a level: how words stand for its fibers.
#![tactic(auto)]

mod compressed;
mod dense;
mod entry;
mod format;
mod short;
mod size;
mod sizes;
mod sorting;

pub use compressed::Compressed;
pub use dense::Dense;
pub use entry::Entry;
pub use format::Format;
pub use short::Short;
pub use size::LevelSize;
