// What a line sees of the slots.
ghost use Rattle.std.specs.Prelude.{◌≡◌, ℕ, List, length, Some, None};
ghost use Rattle.std.specs.Option.{MatchOption};
ghost use Rattle.model.specs.Conditions.{fits_slot, extents_of};
ghost use Rattle.lines.specs.Given.{shown, slots_of};

// The extents of a tensor of so many arguments, at most three.
#[derive(Clone, Copy, Debug, PartialEq, Eq)]
pub struct Extents {
    pub rank: usize,
    pub extents: [u32; 3],
}

impl Extents {
    fn shown(&self) -> &[u32]
        ensures { result.now ≡ shown self.now }
    {
        &self.extents[..self.rank.min(3)]
    }
}

// For each slot, the extents of the tensor that it holds.
#[derive(Clone, Copy)]
pub struct Slots {
    pub tensors: [Option<Extents>; 8],
}

impl Slots {
    fn tensor(&self, slot: usize) -> Option<&Extents>
        ensures { MatchOption result (slots_of self.now slot ≡ None) (λ e. slots_of self.now slot ≡ Some (shown e.now)) }
    {
        self.tensors.get(slot)?.as_ref()
    }

    pub(crate) fn fits(&self, slot: usize, count: usize) -> bool
        ensures { (vs : List ℕ) → length vs ≡ count → result ≡ fits_slot (slots_of self.now slot) vs }
    {
        self.tensor(slot)
            .is_some_and(|extents| extents.shown().len() == count)
    }

    // The extents of the tensor in a slot, if it holds one.
    pub(crate) fn extents(&self, slot: usize) -> &[u32]
        ensures { result.now ≡ extents_of (slots_of self.now slot) }
    {
        match self.tensor(slot) {
            None => &[],
            Some(extents) => extents.shown(),
        }
    }
}
