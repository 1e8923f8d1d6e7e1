// Reads a table from its text.
ghost use Rattle.std.specs.Prelude.{◌≡◌};
ghost use Rattle.std.specs.Result.{result_map_both};
ghost use Rattle.docks.specs.Tables.{lines, fields, of_fields, says, table as table_from};
ghost use Rattle.docks.specs.Views.{entry_of, entries};

use crate::bytes::next_line;
use crate::dock::Dock;
use crate::fault::{TableError, TableFault};
use crate::fields::{read_leg, split};
use crate::name::Name;
use crate::table::{MOST, Table};

// What one line says.
fn read_line(line: &[u8]) -> Result<Dock, TableFault>
    ensures { result_map_both entry_of (λ f. f) result ≡ of_fields (fields line.now) }
{
    let (name, leg_in, leg_out) = split(line).ok_or(TableFault::Fields)?;
    let name = Name::new(name).ok_or(TableFault::Name)?;
    let leg_in = read_leg(leg_in)?;
    let leg_out = read_leg(leg_out)?;
    Ok(Dock {
        name,
        leg_in,
        leg_out,
    })
}

// What the line with a number says.
fn read_numbered(number: usize, line: &[u8]) -> Result<Dock, TableError>
    ensures { result_map_both entry_of (λ e. e) result ≡ says number line.now }
{
    if number > MOST {
        return Err(TableError {
            line: number,
            fault: TableFault::TooMany,
        });
    }
    read_line(line).map_err(|fault| TableError {
        line: number,
        fault,
    })
}

// The docks of all lines in order, or the first line at fault.
pub fn read_table(text: &[u8]) -> Result<Table, TableError>
    ensures { result_map_both entries (λ e. e) result ≡ table_from 1 (lines text.now) }
{
    let mut table = Table::new();
    let mut rest = text;
    while !rest.is_empty() {
        let (line, after) = next_line(rest);
        let dock = read_numbered(table.len() + 1, line)?;
        table.push(dock);
        rest = after;
    }
    Ok(table)
}
