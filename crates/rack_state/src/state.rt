// The state of a rack. Only the types stand here, since their invariants may not cite what names them.
use crate::areas::{ResultAreas, StreamAreas};
use graphs::Graph;
use semiring::Semiring;
use slots::SlotAreas;
use std::marker::PhantomData;

// A graph that is loaded: the byte of its next command, how many commands are carried out, and how many left variables its line has.
#[derive(Clone, Copy)]
pub struct Loaded {
    pub at: usize,
    pub done: usize,
    pub left: usize,
}

#[derive(Drop)]
pub struct RackState<V: Semiring, S> {
    pub formats: PhantomData<S>,
    pub tensors: SlotAreas<V::Plain>,
    pub graph: Graph,
    // none: no graph is loaded
    pub loaded: Option<Loaded>,
    pub streams: StreamAreas<V::Plain>,
    pub results: ResultAreas<V::Plain>,
}
