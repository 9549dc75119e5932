//! What a node does, row by row, in sections that each begin with nothing made. A row `section NAME` says what the rows
//! behind it are:
//!
//! - `runs`, as at the beginning: whole scripts. Rows of standard input add frames to a script; the row `run` runs it, and
//!   prints each of them with its reply. A row `from` does so where timestamps begin later. Other rows run it again in
//!   pieces, with calls that fail, or in part.
//! - `groups`: calls on a state with its groups and on open transactions, each of which is printed with its answer.
//! - `bench`: none. How many requests are refused of small scripts is printed at once.
//!
//! With a word no rows are read, and larger scripts are measured: with `time` nanoseconds a step are printed, and by which
//! power of the number of steps they grow; with `bytes` the memory of a tiny transaction, with `indexed` that of an
//! indexed triple.
#![tactic(auto)]

mod bench;
mod fields;
mod groups;
mod replies;
mod runs;
mod script;
mod sections;
mod statuses;

use anyhow::{Result, bail};
use fields::{Answer, RowFault, fields_of};
use script::Script;
use sections::Section;
use std::alloc::Global;
use std::sync::Wait;
use std::thread::Threads;

fn main(rt: HostRuntime) -> Result<()> {
    match bench::asked(&rt)? {
        Some(cost) => bench::print_cost(&rt, rt.alloc(), cost),
        None => run(&rt, rt.alloc()),
    }
}

// Answers each row in turn.
fn run<R: Input + Print + Threads + Wait + Sync>(rt: &R, alloc: Global) -> Result<()> {
    let mut section = Section::new(alloc);
    for line in rt.lines(alloc) {
        let line = line?;
        answer_line(rt, alloc, &mut section, line.as_str())?;
    }
    section.print_end(rt)?;
    Ok(())
}

// Enters the section that a row begins, or answers the row where it stands. Empty lines and those that begin with `#` are
// passed over.
fn answer_line<R: Print + Threads + Wait + Sync>(
    rt: &R,
    alloc: Global,
    section: &mut Section,
    row: &str,
) -> Result<()> {
    if row.is_empty() || row.starts_with('#') {
        return Ok(());
    }
    match Section::begun_by(alloc, row) {
        Some(next) => enter(rt, alloc, section, next),
        None => answer_row(rt, alloc, section, row),
    }
}

// Ends a section, and begins the next one in its place.
fn enter(rt: &impl Print, alloc: Global, section: &mut Section, next: Section) -> Result<()> {
    section.print_end(rt)?;
    *section = next;
    section.print_front(rt, alloc)
}

// Answers a row of a section.
fn answer_row<R: Print + Threads + Wait + Sync>(
    rt: &R,
    alloc: Global,
    section: &mut Section,
    row: &str,
) -> Result<()> {
    match section {
        Section::Runs { script } => print_row(rt, row, answer(rt, alloc, script, row))?,
        Section::Groups { kept } => groups::print_row(rt, alloc, kept, row)?,
        Section::Bench => println!(rt; "? {row}")?,
    }
    Ok(())
}

fn print_row(rt: &impl Print, row: &str, answer: Answer) -> Result<()> {
    match answer {
        Ok(text) => print!(rt; "{text}")?,
        Err(RowFault::Unreadable) => println!(rt; "? {row}")?,
        Err(RowFault::OutOfMemory) => bail!("out of memory"),
    }
    Ok(())
}

// What is printed for a row: nothing yet for one that adds to the script.
fn answer<R: Threads + Wait + Sync>(
    rt: &R,
    alloc: Global,
    script: &mut Script,
    row: &str,
) -> Answer {
    let fields = fields_of(alloc, row)?;
    let [table, said @ ..] = fields.as_slice() else {
        return Err(RowFault::Unreadable);
    };
    match *table {
        "frame" | "hex" | "filled" | "repeated" | "raw" => {
            script.add(alloc, row, &script::bytes_of_row(alloc, table, said)?)?;
            Ok(String::new(alloc))
        }
        "run" => runs::run(rt, alloc, script),
        "from" => runs::run_from(alloc, script, row, said),
        _ => {
            let text = answer_to(rt, alloc, script, table, said)?;
            Ok(format!(in alloc; "{row} => {text}\n")?)
        }
    }
}

// What a row of another table is answered.
fn answer_to<R: Threads + Wait + Sync>(
    rt: &R,
    alloc: Global,
    script: &Script,
    table: &str,
    said: &[&str],
) -> Answer {
    match table {
        "again" => runs::again(alloc, script, said),
        "groups" => runs::groups(alloc, script, said),
        "words" => runs::words(rt, alloc, said),
        "status" => statuses::status(alloc, said),
        _ => Err(RowFault::Unreadable),
    }
}
