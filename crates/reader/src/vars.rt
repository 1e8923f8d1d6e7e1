// Lists of variables as they stand in a line.
ghost use Rattle.std.specs.Prelude.{◌≤◌, ◌+◌, ◌-◌, ◌/◌, length};

mod walk;

// So many variables, the first at a place, with a comma between two.
#[derive(Clone, Copy, Debug, Default, PartialEq, Eq)]
pub struct VarList {
    pub place: usize,
    pub count: usize,
}

// The variables of a list in a text, from left to right, each with its place.
#[derive(Clone, Copy)]
pub struct Vars<'a> {
    text: &'a [u8],
    list: VarList,
    ghost within: { list.count ≤ (length text.now + 1 - list.place) / 2 },
}
