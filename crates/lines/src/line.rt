// A line that was read.
ghost use Rattle.std.specs.Prelude.{◌≡◌};
ghost use Rattle.reader.specs.Whole.{Parses, Stands};
ghost use Rattle.model.specs.Grammar.{Syntax as Line};
ghost use Rattle.model.specs.Conditions.{Spells};
ghost use Rattle.lines.specs.Describes.{Describes};

use crate::accesses::{Accesses, collect};
use reader::{Parsed, VarList};

// Where its parts begin and the tree of its right side, the variables of the left side and of the loop order, and the accesses.
#[derive(Clone, Copy)]
pub struct Syntax {
    pub parsed: Parsed,
    pub left: VarList,
    pub order: VarList,
    pub accesses: Accesses,
}

pub(crate) fn describe(text: &[u8], parsed: &Parsed) -> Syntax
    requires { Parses text.now parsed.now }
    ensures described { (l : Line) → Spells text.now l → Stands parsed.now l → Describes result l }
    ensures kept { result.parsed ≡ parsed.now }
{
    let mut accesses = Accesses::new();
    collect(&parsed.arena, parsed.root, &mut accesses);
    // Variables and the commas between them stand from behind the bracket up to the one before "=", and from behind ";" up to the end.
    let left = VarList {
        place: 2,
        count: (parsed.body - 3) / 2,
    };
    let order = VarList {
        place: parsed.order,
        count: (text.len() + 1 - parsed.order) / 2,
    };
    Syntax {
        parsed: *parsed,
        left,
        order,
        accesses,
    }
}
