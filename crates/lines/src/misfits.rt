// Each access has a slot that is filled with a tensor of its rank, and repeats no variable.
ghost use Rattle.std.specs.Prelude.{◌≡◌, map};
ghost use Rattle.model.specs.Conditions.{first_fault};
ghost use Rattle.lines.specs.Given.{slots_of};
ghost use Rattle.lines.specs.Checks.{misfit};

use crate::accesses::Access;
use crate::given::Slots;

fn misfits(text: &[u8], slots: &Slots, access: Access) -> bool
    ensures { result ≡ (misfit (slots_of slots.now) text.now access).1 }
{
    let count = access.vars.vars(text).len();
    !slots.fits(access.slot, count) || access.vars.repeats_one(text)
}

pub(crate) fn first_misfit(text: &[u8], slots: &Slots, accesses: &[Access]) -> Option<usize>
    ensures { result ≡ first_fault (map (misfit (slots_of slots.now) text.now) accesses.now) }
{
    accesses
        .iter()
        .find(|access| misfits(text, slots, **access))
        .map(|access| access.place)
}
