// Adding nodes and looking them up.
ghost use Rattle.std.specs.Prelude.{◌≡◌, ◌<◌, ◌≤◌, min, length, take, ℕ, Decides};
ghost use Rattle.std.specs.Option.{MatchOption};
ghost use Rattle.reader.specs.Order.{Before, Behind, PartsFirst};
ghost use Rattle.reader.specs.Nodes.{node as node_at, Pushed};

use crate::arena::Arena;
use crate::node::Node;

impl Arena {
    pub(crate) fn new() -> Arena
        ensures { result.len ≡ 0 }
    {
        Arena {
            nodes: [Node::default(); 256],
            len: 0,
        }
    }

    pub(crate) fn push(&mut self, node: Node) -> usize
        requires { self.old.len < 256 }
        ensures { Pushed self.old node self.new result }
    {
        let at = self.len;
        self.nodes[at] = node;
        self.len = at + 1;
        at
    }

    // An arena of any nodes, as they are and as many as there is room for.
    pub fn of_any(nodes: &[Node]) -> Arena
        ensures kept { (i : ℕ) → i < result.len → node_at result.nodes i ≡ node_at nodes.now i }
        ensures many { result.len ≡ min (length nodes.now) 256 }
    {
        let mut arena = Arena::new();
        let many = nodes.len().min(256);
        for node in &nodes[..many] {
            arena.push(*node);
        }
        arena
    }

    // An arena in which each node stands behind its parts: one that does not is put in as one of no variables.
    pub fn of(nodes: &[Node]) -> Arena
        ensures kept { length nodes.now ≤ 256 → PartsFirst nodes.now → take result.len result.nodes ≡ nodes.now }
        ensures many { result.len ≡ min (length nodes.now) 256 }
        ensures ordered { PartsFirst (take result.len result.nodes) }
        ensures each { (i : ℕ) → i < result.len → Behind (node_at nodes.now i) i (node_at result.nodes i) }
    {
        let mut arena = Arena::of_any(nodes);
        // By their places, since the arena that is written is the one asked.
        for at in 0..arena.len {
            arena.nodes[at] = arena.node(at);
        }
        arena
    }

    // The node at a place, where its parts stand before it; past the end one of no variables.
    pub fn get(&self, at: usize) -> Option<Node>
        ensures { MatchOption result (Before (node_at self.now.nodes at) at → ⊥) (λ x. (x ≡ node_at self.now.nodes at) × Before x at) }
    {
        let node = self.nodes.get(at).copied().unwrap_or_default();
        stands_behind(node, at).then_some(node)
    }

    // The node at a place, for those whose nodes stand behind their parts; one of no variables past the last, and in place of one that does not stand so.
    pub fn node(&self, at: usize) -> Node
        ensures value { PartsFirst (take self.now.len self.now.nodes) → result ≡ node_at (take self.now.len self.now.nodes) at }
        ensures before { Before result at }
        ensures each { Behind (node_at (take self.now.len self.now.nodes) at) at result }
    {
        if at >= self.len {
            return Node::default();
        }
        self.get(at).unwrap_or_default()
    }
}

// Whether the parts of a node stand before a place.
fn stands_behind(node: Node, at: usize) -> bool
    ensures { Decides result (Before node at) }
{
    match node {
        Node::Access { .. } => true,
        Node::Group { inner, .. } => inner < at,
        Node::Times { left, right } | Node::Plus { left, right, .. } => left < at && right < at,
    }
}
