// The tree of a right side, by its nodes.
use crate::node::Node;

mod nodes;

// Nodes, parts before wholes: a node names its parts by their places here, since nothing may be allocated.
// A node takes at least a byte of the line, so the nodes of any line have room.
#[derive(Clone, Copy)]
pub struct Arena {
    pub nodes: [Node; 256],
    pub len: usize,
}
