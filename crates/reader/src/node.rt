// The nodes of a right side.
ghost use Rattle.std.specs.Prelude.{◌≡◌};
ghost use Rattle.reader.specs.declared.node.Node.TheVariants.{Access};

#[derive(Clone, Copy)]
pub enum Node {
    // The place of its letter in the line, the slot that it names, and how many variables it has.
    Access {
        place: usize,
        slot: usize,
        vars: usize,
    },
    // The place of its bracket.
    Group {
        place: usize,
        inner: usize,
    },
    Times {
        left: usize,
        right: usize,
    },
    // The place of its sign.
    Plus {
        place: usize,
        left: usize,
        right: usize,
    },
}

// What stands where there is no node.
impl Default for Node {
    ghost is_default = { λ x. x ≡ Access 0 0 0 };

    fn default() -> Node {
        Node::Access {
            place: 0,
            slot: 0,
            vars: 0,
        }
    }
}
