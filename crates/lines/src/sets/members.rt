// The members of a set.
ghost use Rattle.std.specs.Prelude.{◌≡◌, true, Decides};
ghost use Rattle.model.specs.Grammar.{is_var, Vars};
ghost use Rattle.reader.specs.Lists.{vars_of};
ghost use Rattle.lines.specs.Sets.{in_set, NoVar, With, WithAll, Within};

use crate::sets::VarSet;
use reader::VarList;

impl VarSet {
    pub(crate) fn new() -> VarSet
        ensures { NoVar result }
    {
        VarSet {
            present: [false; 26],
        }
    }

    pub(crate) fn contains(&self, var: u8) -> bool
        ensures { result ≡ in_set self.now var }
    {
        let letter = var.saturating_sub(b'a') as usize;
        self.present.get(letter).copied().unwrap_or(false)
    }

    pub(crate) fn insert(&mut self, var: u8)
        ensures { is_var var ≡ true → With self.old var self.new }
    {
        let letter = var.saturating_sub(b'a') as usize;
        if letter < self.present.len() {
            self.present[letter] = true;
        }
    }

    // Adds the variables of a list.
    pub(crate) fn add(&mut self, text: &[u8], list: VarList)
        ensures { Vars (vars_of text.now list) → WithAll self.old (vars_of text.now list) self.new }
    {
        for (_, var) in list.vars(text) {
            self.insert(var);
        }
    }

    // Whether every variable of the other set is in this one.
    pub(crate) fn includes(&self, other: &VarSet) -> bool
        ensures { Decides result (Within other.now self.now) }
    {
        self.present
            .iter()
            .zip(&other.present)
            .all(|(ours, theirs)| *ours || !*theirs)
    }
}
