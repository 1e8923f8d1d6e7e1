// The result table: ascending keys beside stored values, over lent rows.
#![tactic(auto)]

pub mod fault;
pub mod key;
mod listing;
mod places;
mod rows;
mod search;
pub mod table;

pub use fault::TableFull;
pub use key::ResultKey;
pub use listing::nth_nonzero;
pub use places::key_places;
pub use rows::{add, copy_keys, enter};
pub use search::{compare, find};
pub use table::ResultTable;
