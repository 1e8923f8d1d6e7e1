// What the lists of a level consist of.

// A coordinate with its owner: the fiber that it belongs to.
#[derive(Clone, Copy, Debug, Default, PartialEq, Eq)]
pub struct Entry {
    pub owner: u32,
    pub coordinate: u32,
}
