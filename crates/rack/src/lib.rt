// A rack: five calls over the areas that a caller provides, and what holds of every list of calls on a rack just made.
#![tactic(auto)]

mod events;
mod rack;
mod runs;

pub use events::{Answer, Call, Done};
pub use rack::{InUse, Rack};
pub use rack_state::{Areas, Entry, Fault, RackSizes};
pub use runs::{compare, run};
pub use tensors::StoreRequest;
