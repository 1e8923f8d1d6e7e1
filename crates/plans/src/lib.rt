// Planning a STORE: all that can refuse it, and the sizes of the levels that it builds, before a word is written.
#![tactic(auto)]

mod checks;
mod comparing;
mod coordinates;
mod fault;
mod fronts;
mod planning;
mod request;
mod row_reads;
mod rows;
mod shape;
mod sizing;

pub use coordinates::coordinate;
pub use fault::StoreFault;
pub use fronts::ends_front;
pub use planning::plan;
pub use request::StoreRequest;
pub use rows::Rows;
