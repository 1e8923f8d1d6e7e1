// A rack, as its users have it: only the calls change it.
use rack_state::RackState;
use semiring::Semiring;

mod calls;
mod performing;

#[derive(Drop)]
pub struct Rack<V: Semiring, S> {
    state: RackState<V, S>,
}

// The stream words, the stream values and the result places that are in use.
#[derive(Clone, Copy)]
pub struct InUse {
    pub words: usize,
    pub values: usize,
    pub results: usize,
}
