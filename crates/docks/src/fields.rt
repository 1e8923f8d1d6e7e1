// What a line of a table says.
ghost use Rattle.std.specs.Prelude.{◌≡◌, [], ◌∷◌, Err, MatchOption};
ghost use Rattle.std.specs.Result.{result_map_both};
ghost use Rattle.docks.specs.declared.fault.TableFault.TheVariants.{Fields};
ghost use Rattle.docks.specs.Tables.{is_number, is_name, leg, fields, of_fields};

use crate::bytes::{capped_decimal, cut, is_name_byte};
use crate::fault::TableFault;
use semiring::{Semiring, Time};

// The time of what does not run.
pub const NONE: u32 = u32::MAX;

fn is_number(field: &[u8]) -> bool
    ensures { result ≡ is_number field.now }
{
    field.iter().all(u8::is_ascii_digit)
        && (field.len() == 1 || field.first().copied().unwrap_or(0) > b'0')
}

pub(crate) fn is_name(field: &[u8]) -> bool
    ensures { result ≡ is_name field.now }
{
    !field.is_empty() && field.len() <= 16 && field.iter().all(|b| is_name_byte(*b))
}

pub(crate) fn read_leg(field: &[u8]) -> Result<Time, TableFault>
    ensures { result_map_both (λ t. t.value) (λ f. f) result ≡ leg field.now }
{
    if matches!(field, [b'-']) {
        return Ok(Time::none());
    }
    if !is_number(field) {
        return Err(TableFault::Number);
    }
    let time = capped_decimal(field);
    if time == NONE {
        return Err(TableFault::TooLarge);
    }
    Ok(Time::new(time))
}

// The three fields of a line; none where it has more or fewer.
pub(crate) fn split(line: &[u8]) -> Option<(&[u8], &[u8], &[u8])>
    ensures { MatchOption result (of_fields (fields line.now) ≡ Err Fields) (λ t. fields line.now ≡ t.0.now ∷ t.1.now ∷ t.2.now ∷ []) }
{
    let (name, rest) = cut(line, b' ')?;
    let (leg_in, leg_out) = cut(rest, b' ')?;
    cut(leg_out, b' ')
        .is_none()
        .then_some((name, leg_in, leg_out))
}
