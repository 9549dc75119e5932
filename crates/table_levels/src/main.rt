//! Reads rows from standard input and prints each with its answer. A row is the name of a table and its fields, with a tab between
//! any two. The row `section NAME` says what the rows behind it are, and has no answer:
//!
//! - `levels`, also at the beginning: what the fields of a query show at the nodes of its root, or what the whole query answers, also
//!   with the calls that were made for it, or at which nodes of its root the filters of its block hold, over a graph in memory. The
//!   rows `schema` and `set` make the graph of the rows behind them;
//! - `shapes`: what the rules of shape make of lists of nodes and of whole trees, and what recursion shows of a node.
#![tactic(auto)]

mod asked;
mod counted;
mod ground;
mod held;
mod shapes;
mod words;

use crate::ground::Ground;
use dg_values::{Mem, OutOfMemory};
use std::alloc::{AllocError, Global};
use std::io::{self, BufRead, BufReader};

// What rows are about.
#[derive(Clone, Copy)]
enum Section {
    Levels,
    Shapes,
}

fn main(rt: HostRuntime) -> io::Result<()> {
    let alloc = rt.alloc();
    let mut ground = match Ground::new(alloc) {
        Ok(ground) => ground,
        Err(OutOfMemory) => return Err(AllocError.into()),
    };
    let mut section = Section::Levels;
    for line in BufReader::new(alloc, rt.reader())?.lines(alloc) {
        let row = line?;
        if let Some(next) = section_of(row.as_str()) {
            section = next;
        } else if !is_passed_over(row.as_str()) {
            print_row(&rt, alloc, section, &mut ground, row.as_str())?;
        }
    }
    Ok(())
}

// The section that begins with a row, if one does.
fn section_of(row: &str) -> Option<Section> {
    match row {
        "section levels" => Some(Section::Levels),
        "section shapes" => Some(Section::Shapes),
        _ => None,
    }
}

// Whether a line is empty or a comment.
fn is_passed_over(line: &str) -> bool {
    line.is_empty() || line.starts_with('#')
}

fn print_row(
    rt: &impl Print,
    alloc: Global,
    section: Section,
    ground: &mut Ground,
    row: &str,
) -> io::Result<()> {
    let (table, fields) = row.split_once('\t').unwrap_or((row, ""));
    match answer(alloc, section, ground, table, fields) {
        Ok(Some(answer)) => println!(rt; "{row} => {answer}"),
        Ok(None) => println!(rt; "? {row}"),
        Err(OutOfMemory) => Err(AllocError.into()),
    }
}

// What a table of a section answers to the fields of a row; none where they can't be read.
fn answer(
    alloc: Global,
    section: Section,
    ground: &mut Ground,
    table: &str,
    fields: &str,
) -> Mem<Option<String>> {
    match section {
        Section::Levels => answer_of_levels(alloc, ground, table, fields),
        Section::Shapes => shapes::answer(alloc, table, fields),
    }
}

// The same of a table of levels.
fn answer_of_levels(
    alloc: Global,
    ground: &mut Ground,
    table: &str,
    fields: &str,
) -> Mem<Option<String>> {
    match table {
        "schema" => ground.declare(alloc, fields),
        "set" => ground.set(alloc, fields),
        "ring" => ground.ring(alloc, fields),
        "rows" => asked::rows(alloc, ground, fields),
        "within" => asked::within(alloc, ground, fields),
        "size" => asked::size(alloc, ground, fields),
        "answer" => asked::answer(alloc, ground, fields),
        "counted" => asked::with_calls(alloc, ground, fields),
        "held" => held::nodes(alloc, ground, fields),
        _ => Ok(None),
    }
}
