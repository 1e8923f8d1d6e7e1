// When neither the slots nor the graph may be changed.
ghost use Rattle.std.specs.Prelude.{◌≡◌};
ghost use Rattle.rack_state.specs.Busy.{under_way};

use crate::state::{Loaded, RackState};
use semiring::Semiring;

// Whether a graph of this many commands is loaded and not drained.
pub fn is_busy(loaded: Option<Loaded>, commands: usize) -> bool
    ensures { result ≡ under_way loaded commands }
{
    loaded.is_some_and(|graph| graph.done != commands)
}

impl<V: Semiring, S> RackState<V, S> {
    // Whether a graph is loaded and not drained.
    pub fn is_busy(&self) -> bool
        ensures { result ≡ under_way self.now.loaded self.now.graph.commands }
    {
        is_busy(self.loaded, self.graph.commands)
    }
}
