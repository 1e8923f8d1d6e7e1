// Walking over a list of variables, and what such a walk finds.
ghost use Rattle.std.specs.Prelude.{◌≡◌, length};
ghost use Rattle.std.specs.Iterator.{YieldsFirst, item_count};
ghost use Rattle.model.specs.Tensors.{has};
ghost use Rattle.model.specs.Conditions.{repeats};
ghost use Rattle.reader.specs.Lists.{vars_of, placed_of};
ghost use Rattle.reader.specs.Walked.{left};

use crate::vars::{VarList, Vars};

impl Iterator for Vars<'_> {
    type Item = (usize, u8);

    ghost next_gives = { YieldsFirst left };

    ghost remaining = { item_count left };

    fn next(&mut self) -> Option<(usize, u8)> {
        let count = self.list.count.checked_sub(1)?;
        let place = self.list.place;
        self.list = VarList {
            place: place + 2,
            count,
        };
        Some((place, self.text[place]))
    }
}

impl Vars<'_> {
    // How many are left.
    pub fn len(&self) -> usize
        ensures { result ≡ length (left self.now) }
    {
        self.list.count
    }
}

impl VarList {
    // As many as the text has.
    pub fn vars(self, text: &[u8]) -> Vars<'_>
        ensures { left result ≡ placed_of text.now self }
    {
        let space = (text.len() + 1).saturating_sub(self.place) / 2;
        Vars {
            text,
            list: VarList {
                place: self.place,
                count: self.count.min(space),
            },
        }
    }

    pub fn contains(self, text: &[u8], var: u8) -> bool
        ensures { result ≡ has (vars_of text.now self) var }
    {
        self.vars(text).any(|(_, other)| other == var)
    }

    // Whether a variable stands twice.
    pub fn repeats_one(self, text: &[u8]) -> bool
        ensures { result ≡ repeats (vars_of text.now self) }
    {
        let mut later = self.vars(text);
        'vars: while let Some((_, var)) = later.next() {
            let mut others = later;
            if others.any(|(_, other)| other == var) {
                return true;
            }
        }
        false
    }
}
