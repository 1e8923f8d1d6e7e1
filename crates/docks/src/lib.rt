// Cross docks: reads a text table of them, and answers over its legs by the three kinds of value.
#![tactic(auto)]

mod answers;
mod bytes;
pub mod dock;
pub mod fault;
mod fields;
mod legs;
pub mod name;
mod reading;
pub mod table;

pub use answers::{any_runs, best_dock, count_docks, least_time};
pub use dock::Dock;
pub use fault::{TableError, TableFault};
pub use fields::NONE;
pub use name::Name;
pub use reading::read_table;
pub use table::Table;
