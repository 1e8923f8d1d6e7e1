// The loop order has each variable of the terms once, and the variables of each access stand in it.
ghost use Rattle.std.specs.Prelude.{◌≡◌, ℕ, not, ◌||◌, List, map};
ghost use Rattle.model.specs.Tensors.{has, same};
ghost use Rattle.model.specs.Terms.{kept};
ghost use Rattle.model.specs.Grammar.{Vars};
ghost use Rattle.model.specs.Conditions.{first_fault};
ghost use Rattle.reader.specs.Lists.{vars_of};
ghost use Rattle.lines.specs.Sets.{in_set, SetOf};
ghost use Rattle.lines.specs.Checks.{unordered, order_faults};

use crate::accesses::Access;
use crate::sets::VarSet;
use reader::VarList;

// Whether a variable stands in the loop order again, or in no term.
fn strays(seen: &VarSet, used: &VarSet, var: u8) -> bool
    ensures { result ≡ (in_set seen.now var || not (in_set used.now var)) }
{
    seen.contains(var) || !used.contains(var)
}

// The first variable of the loop order that is repeated or in no term; the length where one is missing.
pub(crate) fn order_fault(text: &[u8], order: VarList, used: &VarSet) -> Option<usize>
    ensures { Vars (vars_of text.now order) → (us : List ℕ) → Vars us → SetOf us used.now → result ≡ first_fault (order_faults us text.now order) }
{
    let mut seen = VarSet::new();
    for (place, var) in order.vars(text) {
        if strays(&seen, used, var) {
            return Some(place);
        }
        seen.insert(var);
    }
    (!seen.includes(used)).then_some(text.len())
}

// Whether the variables stand as in the loop order.
fn in_order(text: &[u8], order: VarList, vars: VarList) -> bool
    ensures { result ≡ same (kept (has (vars_of text.now vars)) (vars_of text.now order)) (vars_of text.now vars) }
{
    let mut left = vars.vars(text);
    for (_, var) in order.vars(text) {
        if vars.contains(text, var) {
            let Some((_, next)) = left.next() else {
                return false;
            };
            if next != var {
                return false;
            }
        }
    }
    left.next().is_none()
}

pub(crate) fn first_unordered(text: &[u8], order: VarList, accesses: &[Access]) -> Option<usize>
    ensures { result ≡ first_fault (map (unordered (vars_of text.now order) text.now) accesses.now) }
{
    accesses
        .iter()
        .find(|access| !in_order(text, order, access.vars))
        .map(|access| access.place)
}
