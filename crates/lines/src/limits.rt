// The limits of a line, each by the first item that is too much.
ghost use Rattle.std.specs.Prelude.{◌≡◌, ◌≤◌, not, ◌&&◌, [], ◌∷◌, map};
ghost use Rattle.std.specs.List.{flat_map};
ghost use Rattle.model.specs.Grammar.{is_var};
ghost use Rattle.model.specs.Conditions.{first_fault, beyond, places, firsts, leftmost};
ghost use Rattle.lines.specs.Sets.{in_set};
ghost use Rattle.std.specs.Option.{option_or};
ghost use Rattle.lines.specs.Limits.{letters, crowded, Deep};

use crate::accesses::Access;
use crate::sets::VarSet;
use reader::{Arena, Node, VarList, is_var};

pub(crate) fn left_of(p: Option<usize>, q: Option<usize>) -> Option<usize>
    ensures { result ≡ leftmost p q }
{
    p.zip(q).map(|(a, b)| a.min(b)).or(p).or(q)
}

fn is_new(seen: &VarSet, b: u8) -> bool
    ensures { result ≡ (is_var b && not (in_set seen.now b)) }
{
    is_var(b) && !seen.contains(b)
}

// Where the fifth different variable stands first.
pub(crate) fn fifth_variable(text: &[u8]) -> Option<usize>
    ensures { result ≡ first_fault (beyond 4 (places (firsts [] (letters 0 text.now)))) }
{
    let mut seen = VarSet::new();
    let mut count = 0usize;
    for (place, b) in text.iter().enumerate() {
        if is_new(&seen, *b) {
            if count >= 4 {
                return Some(place);
            }
            count += 1;
            seen.insert(*b);
        }
    }
    None
}

fn fourth(text: &[u8], vars: VarList) -> Option<usize>
    ensures { result ≡ first_fault (crowded text.now vars) }
{
    vars.vars(text).nth(3).map(|(place, _)| place)
}

// The fourth variable in the first pair of argument brackets that has so many.
pub(crate) fn fourth_argument(text: &[u8], left: VarList, accesses: &[Access]) -> Option<usize>
    ensures { result ≡ option_or (first_fault (crowded text.now left)) (first_fault (flat_map (λ e. crowded text.now e.vars) accesses.now)) }
{
    if let Some(place) = fourth(text, left) {
        return Some(place);
    }
    for access in accesses {
        if let Some(place) = fourth(text, access.vars) {
            return Some(place);
        }
    }
    None
}

// The first bracket that opens while four are open, where `depth` are open around the node.
pub(crate) fn fifth_bracket(arena: &Arena, at: usize, depth: usize) -> Option<usize>
    requires { depth ≤ 4 }
    ensures { Deep arena.now.nodes at depth result }
{
    match arena.get(at)? {
        Node::Access { .. } => None,
        Node::Group { place, inner } => {
            if depth >= 4 {
                return Some(place);
            }
            fifth_bracket(arena, inner, depth + 1)
        }
        Node::Times { left, right } | Node::Plus { left, right, .. } => {
            let before = fifth_bracket(arena, left, depth);
            before.or(fifth_bracket(arena, right, depth))
        }
    }
}
