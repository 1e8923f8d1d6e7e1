// STORE: a tensor's levels and values written into its slot.
#![tactic(auto)]

mod building;
mod calls;
mod lists;
mod reading;
mod slot_store;
mod stored;
mod storing;
mod tensor_plan;
mod values;

pub use calls::{lookup, store};
pub use plans::StoreRequest;
