// How a name is made and read.
ghost use Rattle.std.specs.Prelude.{◌≡◌, ◌≤◌, true, false, [], length, nat_eq, MatchOption};
ghost use Rattle.std.specs.Cmp.{on_equiv, on_per, partial_equiv_from_equiv};
ghost use Rattle.std.specs.Cmp.Lexicographic.{pointwise, nat_list_eq_equiv};
ghost use Rattle.docks.specs.Tables.{is_name};
ghost use Rattle.docks.specs.Views.{name_bytes};

use super::Name;
use crate::fields::is_name;

// An empty name.
impl Default for Name {
    ghost is_default = { λ n. name_bytes n ≡ [] };

    fn default() -> Name {
        Name {
            bytes: [0; 16],
            len: 0,
        }
    }
}

// Names are equal by their texts; a derive would promise that what fills the arrays behind them is compared too.
impl PartialEq for Name {
    ghost eq = { λ a b. pointwise nat_eq (name_bytes a) (name_bytes b) };

    ghost laws = { on_per (λ n. name_bytes n) (partial_equiv_from_equiv nat_list_eq_equiv) };

    fn eq(&self, other: &Name) -> bool {
        self.as_bytes() == other.as_bytes()
    }
}

impl Eq for Name {
    ghost laws = { on_equiv (λ n. name_bytes n) nat_list_eq_equiv };
}

impl Name {
    // A field as a name, if it is one.
    pub(crate) fn new(field: &[u8]) -> Option<Name>
        ensures { MatchOption result (is_name field.now ≡ false) (λ n. (is_name field.now ≡ true) × (name_bytes n ≡ field.now)) }
    {
        if !is_name(field) {
            return None;
        }
        let mut bytes = [0; 16];
        bytes[0..field.len()].copy_from_slice(field);
        Some(Name {
            bytes,
            len: field.len(),
        })
    }

    pub fn as_bytes(&self) -> &[u8]
        ensures value { result.now ≡ name_bytes self.now }
        ensures bound { length result.now ≤ 16 }
    {
        &self.bytes[0..self.len]
    }
}
