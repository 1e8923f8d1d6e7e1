// The state of a rack: its slots, the graph that is loaded, and the areas that it runs in; and what its calls are given and answer.
#![tactic(auto)]

mod areas;
mod busy;
mod calls;
mod making;
mod state;

pub use areas::{Areas, RackSizes, ResultAreas, StreamAreas};
pub use busy::is_busy;
pub use calls::{Entry, Fault};
pub use state::{Loaded, RackState};
