// Products that are added inside brackets have the same variables, and each term has all left variables.
ghost use Rattle.lines.specs.Evenness.{Adds, HasVars, HasLastVars, Alike, PlusEvenly, SumsEvenly, TermHas, TermsHave};

use crate::sets::VarSet;
use reader::{Arena, Node, VarList};

// A tree, with the text in which it is written.
#[derive(Clone, Copy)]
pub(crate) struct Written<'a> {
    pub(crate) text: &'a [u8],
    pub(crate) arena: &'a Arena,
}

impl Written<'_> {
    // Adds the variables of a node.
    fn add_vars(self, at: usize, set: &mut VarSet)
        ensures { Adds self.entry.text.now self.entry.arena.now.nodes at set.old set.new }
    {
        let Some(node) = self.arena.get(at) else {
            return;
        };
        match node {
            Node::Access { place, vars, .. } => set.add(
                self.text,
                VarList {
                    place: place.saturating_add(2),
                    count: vars,
                },
            ),
            Node::Group { inner, .. } => self.add_vars(inner, set),
            Node::Times { left, right } | Node::Plus { left, right, .. } => {
                self.add_vars(left, set);
                self.add_vars(right, set);
            }
        }
    }

    pub(crate) fn vars(self, at: usize) -> VarSet
        ensures { HasVars self.entry.text.now self.entry.arena.now.nodes at result }
    {
        let mut set = VarSet::new();
        self.add_vars(at, &mut set);
        set
    }

    // The variables of the last product of a sum.
    fn last_vars(self, at: usize) -> VarSet
        ensures { HasLastVars self.entry.text.now self.entry.arena.now.nodes at result }
    {
        let Some(node) = self.arena.get(at) else {
            return VarSet::new();
        };
        match node {
            Node::Plus { right, .. } => self.vars(right),
            _ => self.vars(at),
        }
    }

    // Whether the products next to a plus have the same variables.
    fn alike(self, left: usize, right: usize) -> bool
        ensures { Alike self.entry.text.now self.entry.arena.now.nodes left right result }
    {
        let before = self.last_vars(left);
        let behind = self.vars(right);
        behind.includes(&before) && before.includes(&behind)
    }

    // A plus inside brackets, between products of different variables.
    fn uneven_plus(self, left: usize, right: usize, place: usize, inside: bool) -> Option<usize>
        ensures { PlusEvenly self.entry.text.now self.entry.arena.now.nodes left right place inside result }
    {
        (inside && !self.alike(left, right)).then_some(place)
    }

    // The first plus inside brackets between products of different variables.
    pub(crate) fn uneven_sum(self, at: usize, inside: bool) -> Option<usize>
        ensures { SumsEvenly self.entry.text.now self.entry.arena.now.nodes at inside result }
    {
        match self.arena.get(at)? {
            Node::Access { .. } => None,
            Node::Group { inner, .. } => self.uneven_sum(inner, true),
            Node::Times { left, right } => {
                let before = self.uneven_sum(left, inside);
                before.or(self.uneven_sum(right, inside))
            }
            Node::Plus { place, left, right } => {
                let before = self.uneven_sum(left, inside);
                let here = self.uneven_plus(left, right, place, inside);
                before.or(here).or(self.uneven_sum(right, inside))
            }
        }
    }

    // Whether a term has the left variables.
    fn has_left(self, at: usize, left: &VarSet) -> bool
        ensures { TermHas self.entry.text.now self.entry.arena.now.nodes at left.now result }
    {
        self.vars(at).includes(left)
    }

    // The start of the first term that lacks a left variable, where the node begins at a place.
    pub(crate) fn lacking_term(self, at: usize, start: usize, left: &VarSet) -> Option<usize>
        ensures { TermsHave self.entry.text.now self.entry.arena.now.nodes at start left.now result }
    {
        match self.arena.get(at)? {
            Node::Plus {
                place,
                left: sum,
                right,
            } => {
                let before = self.lacking_term(sum, start, left);
                let last = (!self.has_left(right, left)).then_some(place.saturating_add(1));
                before.or(last)
            }
            _ => (!self.has_left(at, left)).then_some(start),
        }
    }
}
