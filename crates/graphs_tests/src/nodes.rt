// Arenas of nodes that no line gave: in order, and as they are.
use reader::{Arena, Node, parse};
use std::test::Fail;

const ACCESS: Node = Node::Access {
    place: 5,
    slot: 3,
    vars: 1,
};

fn is_access(node: Node, of: usize, many: usize) -> bool {
    match node {
        Node::Access { slot, vars, .. } => slot == of && vars == many,
        _ => false,
    }
}

fn is_group(node: Node, of: usize) -> bool {
    match node {
        Node::Group { inner, .. } => inner == of,
        _ => false,
    }
}

#[test]
fn nodes_behind_their_parts(rt: HostRuntime) {
    let arena = Arena::of(&[ACCESS, Node::Group { place: 4, inner: 0 }]);
    assert_eq!(rt; arena.len, 2);
    assert!(rt; is_access(arena.node(0), 3, 1));
    assert!(rt; is_group(arena.node(1), 0));
    assert!(rt; is_access(arena.node(2), 0, 0));
    assert!(rt; is_access(arena.node(usize::MAX), 0, 0));
}

// A group that is its own part is none in an arena in order, and is not given from one of any nodes.
#[test]
fn a_group_in_itself(rt: HostRuntime) {
    let nodes = [Node::Group { place: 4, inner: 0 }, ACCESS];
    let arena = Arena::of(&nodes);
    assert_eq!(rt; arena.len, 2);
    assert!(rt; is_access(arena.node(0), 0, 0));
    assert!(rt; is_access(arena.node(1), 3, 1));
    let any = Arena::of_any(&nodes);
    assert!(rt; is_group(any.nodes[0], 0));
    assert!(rt; any.get(0).is_none());
    assert!(rt; is_access(any.node(0), 0, 0));
    assert!(rt; any.get(1).is_some_and(|node| is_access(node, 3, 1)));
}

#[test]
fn as_many_nodes_as_there_is_room_for(rt: HostRuntime) {
    let mut nodes = [ACCESS; 257];
    nodes[255] = Node::Group { place: 4, inner: 1 };
    let arena = Arena::of(&nodes);
    assert_eq!(rt; arena.len, 256);
    assert!(rt; is_group(arena.node(255), 1));
    assert!(rt; is_access(arena.node(256), 0, 0));
}

#[test]
fn nodes_of_a_line(rt: HostRuntime) -> Result<(), Fail> {
    let Ok(line) = parse(b"R(i)=(D(i));i") else {
        return Err(Fail::new("not a line"));
    };
    assert!(rt; is_group(line.arena.node(line.root), 0));
    assert!(rt; is_access(line.arena.node(0), 3, 1));
    Ok(())
}
