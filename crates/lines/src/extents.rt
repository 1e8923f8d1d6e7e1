// A variable has one extent at all accesses.
ghost use Rattle.std.specs.Prelude.{◌≡◌, map};
ghost use Rattle.std.specs.List.{flat_map};
ghost use Rattle.model.specs.Conditions.{first_fault, extent_in};
ghost use Rattle.lines.specs.Given.{slots_of};
ghost use Rattle.lines.specs.Sizes.{sized_of, first_extent, differs};

use crate::accesses::Access;
use crate::given::Slots;

// The extent of a variable in an access that has it.
fn extent_at(text: &[u8], slots: &Slots, access: Access, var: u8) -> Option<u32>
    ensures { result ≡ first_extent (sized_of (slots_of slots.now) text.now access) var }
{
    access
        .vars
        .vars(text)
        .zip(slots.extents(access.slot))
        .find(|((_, other), _)| *other == var)
        .map(|(_, extent)| *extent)
}

// The extent of a variable at the first access that has it.
fn extent_of(text: &[u8], slots: &Slots, accesses: &[Access], var: u8) -> u32
    ensures { result ≡ extent_in (flat_map (sized_of (slots_of slots.now) text.now) accesses.now) var }
{
    for access in accesses {
        if let Some(extent) = extent_at(text, slots, *access, var) {
            return extent;
        }
    }
    0
}

// The first variable of an access whose extent is another than at the first access that has it.
fn differs_at(text: &[u8], slots: &Slots, accesses: &[Access], access: Access) -> Option<usize>
    ensures { result ≡ first_fault (map (differs (slots_of slots.now) text.now accesses.now) (sized_of (slots_of slots.now) text.now access)) }
{
    access
        .vars
        .vars(text)
        .zip(slots.extents(access.slot))
        .find(|((_, var), extent)| **extent != extent_of(text, slots, accesses, *var))
        .map(|((place, _), _)| place)
}

pub(crate) fn first_differing(text: &[u8], slots: &Slots, accesses: &[Access]) -> Option<usize>
    ensures { result ≡ first_fault (flat_map (λ e. map (differs (slots_of slots.now) text.now accesses.now) (sized_of (slots_of slots.now) text.now e)) accesses.now) }
{
    for access in accesses {
        if let Some(place) = differs_at(text, slots, accesses, *access) {
            return Some(place);
        }
    }
    None
}
