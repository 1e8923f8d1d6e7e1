// The accesses of a line, in a table.
ghost use Rattle.std.specs.Prelude.{◌≡◌, ◌<◌, [], ◌∷◌, map, length};
ghost use Rattle.model.specs.Conditions.{first_fault, beyond};
ghost use Rattle.lines.specs.Tables.{entries, Added, Collected};

use reader::{Arena, Node, VarList};

// An access: the place of its letter, its slot, and its variables.
#[derive(Clone, Copy, Debug, Default, PartialEq, Eq)]
pub struct Access {
    pub place: usize,
    pub slot: usize,
    pub vars: VarList,
}

// From left to right. An access takes at least three bytes of the line, so those of any line have room.
#[derive(Clone, Copy)]
pub struct Accesses {
    pub list: [Access; 128],
    pub len: usize,
}

impl Accesses {
    pub(crate) fn new() -> Accesses
        ensures { result.len ≡ 0 }
    {
        Accesses {
            list: [Access::default(); 128],
            len: 0,
        }
    }

    // One that finds no room is dropped.
    fn push(&mut self, access: Access)
        ensures { self.old.len < 128 → Added self.old self.new (access ∷ []) }
    {
        let at = self.len;
        if at < 128 {
            self.list[at] = access;
            self.len = at + 1;
        }
    }

    pub fn as_slice(&self) -> &[Access]
        ensures { result.now ≡ entries self.now }
    {
        &self.list[..self.len.min(128)]
    }

    pub fn len(&self) -> usize
        ensures { result ≡ length (entries self.now) }
    {
        self.as_slice().len()
    }
}

// The place of the ninth access.
pub(crate) fn ninth(accesses: &[Access]) -> Option<usize>
    ensures { result ≡ first_fault (beyond 8 (map (λ e. e.place) accesses.now)) }
{
    accesses.get(8).map(|access| access.place)
}

// Adds the accesses of a node.
pub(crate) fn collect(arena: &Arena, at: usize, into: &mut Accesses)
    ensures { Collected arena.now.nodes at into.old into.new }
{
    let Some(node) = arena.get(at) else {
        return;
    };
    match node {
        Node::Access { place, slot, vars } => into.push(Access {
            place,
            slot,
            vars: VarList {
                place: place.saturating_add(2),
                count: vars,
            },
        }),
        Node::Group { inner, .. } => collect(arena, inner, into),
        Node::Times { left, right } | Node::Plus { left, right, .. } => {
            collect(arena, left, into);
            collect(arena, right, into);
        }
    }
}
