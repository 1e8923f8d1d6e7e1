// Plans one connection, from an origin over one cross dock to a destination, from a table of docks.
#![tactic(auto)]

mod reading;

use docks::{Table, any_runs, best_dock, count_docks, least_time, read_table};
use reading::{leg_slots, show_line};
use semiring::Time;
use std::io::Read;
use std::{env, io};

fn show_best(rt: &impl Print, table: &Table, least: Time) -> io::Result<()> {
    match best_dock(table).and_then(|i| table.docks().get(i)) {
        Some(dock) => println!(rt; "least time: {least} over {}", dock.name),
        None => println!(rt; "least time: none"),
    }
}

fn answer(rt: &impl Print, table: &Table) -> io::Result<()> {
    for dock in table.docks() {
        println!(rt; "{dock}")?;
    }
    let least = least_time(table);
    show_best(rt, table, least)?;
    let all = table.len();
    let count = count_docks(table);
    let any = if any_runs(table) { "yes" } else { "no" };
    println!(rt; "docks with both legs: {count}")?;
    println!(rt; "a connection runs: {any}")?;
    println!(rt; "planned 1 connection over {all} docks: {count} run, least {least}")
}

// Each argument is a line, read over the legs of the table.
fn read_lines(rt: &HostRuntime, table: &Table) -> io::Result<()> {
    let docks = u32::try_from(table.len()).unwrap_or(0);
    let slots = leg_slots(docks);
    for text in env::args(rt)?.skip(1) {
        show_line(rt, text.as_str(), &slots)?;
    }
    Ok(())
}

fn main(rt: HostRuntime) -> io::Result<()> {
    let mut text = Vec::new(rt.alloc());
    rt.stdin().read_to_end(&mut text)?;
    match read_table(text.as_slice()) {
        Ok(table) => {
            read_lines(&rt, &table)?;
            answer(&rt, &table)
        }
        Err(error) => println!(rt; "{error}"),
    }
}
