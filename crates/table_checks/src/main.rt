//! Reads rows from standard input and prints each with its answer. A row is the name of a table and a text or fields, with a
//! tab between any two. The row `section NAME` says what the rows behind it are, and has no answer:
//!
//! - `checks`, also at the beginning: what is wrong with a query or an upsert block, or in which order its blocks run; its
//!   plan, with what is read of its functions, or with all its parts; and what a maker of patterns builds. A row of the table
//!   `schema` declares the predicates of the rows behind it;
//! - `queries`: what the grammar of queries and of upsert blocks makes of the row;
//! - `bench`: this row prints what becomes of queries of ten forms, and there are none behind it.
//!
//! With the word `time` it reads no rows and prints what reading and checking the queries of these forms costs; with
//! `time parse` or `time check`, what the one does.
#![tactic(auto)]

mod answers;
mod bench;
mod parts;
mod patterns;
mod plans;
mod queries;

ghost use Rattle.std.specs.Prelude.{◌≤◌, length};

use anyhow::Result;
use dg_schema::{Schema, read_schema};
use dg_values::{Mem, OutOfMemory};
use std::alloc::{AllocError, Global};
use std::env;
use std::io::{self, BufRead, BufReader};
use std::time::Clock;

// The most bytes that a text has.
const MOST: usize = 1_048_576;

// What rows are about.
#[derive(Clone, Copy)]
enum Section {
    Checks,
    Queries,
    Bench,
}

fn main(rt: HostRuntime) -> Result<()> {
    let mut words = env::args(&rt)?.skip(1);
    if words.any(|word| word.as_str() == "time") {
        return bench::print_times(&rt, rt.alloc(), words.next());
    }
    print_rows(&rt, rt.alloc())
}

fn print_rows(rt: &(impl Input + Print + Clock), alloc: Global) -> Result<()> {
    let mut schema = Schema::new(alloc);
    let mut section = Section::Checks;
    for line in BufReader::new(alloc, rt.reader())?.lines(alloc) {
        let row = line?;
        if let Some(next) = section_of(row.as_str()) {
            section = next;
            print_front(rt, alloc, section)?;
        } else if !is_passed_over(row.as_str()) {
            print_row(rt, alloc, section, &mut schema, row.as_str())?;
        }
    }
    Ok(())
}

// The section that begins with a row, if one does.
fn section_of(row: &str) -> Option<Section> {
    match row {
        "section checks" => Some(Section::Checks),
        "section queries" => Some(Section::Queries),
        "section bench" => Some(Section::Bench),
        _ => None,
    }
}

// What is printed before the first row of a section.
fn print_front(rt: &(impl Print + Clock), alloc: Global, section: Section) -> Result<()> {
    match section {
        Section::Checks | Section::Queries => Ok(()),
        Section::Bench => bench::print_outcomes(rt, alloc),
    }
}

// Whether a line is empty or a comment.
fn is_passed_over(line: &str) -> bool {
    line.is_empty() || line.starts_with('#')
}

fn print_row(
    rt: &impl Print,
    alloc: Global,
    section: Section,
    schema: &mut Schema,
    row: &str,
) -> io::Result<()> {
    let (table, text) = row.split_once('\t').unwrap_or((row, ""));
    match answer(alloc, section, schema, table, text) {
        Ok(Some(answer)) => println!(rt; "{row} => {answer}"),
        Ok(None) => println!(rt; "? {row}"),
        Err(OutOfMemory) => Err(AllocError.into()),
    }
}

// What a table of a section answers to a text or fields; none where these can't be read.
fn answer(
    alloc: Global,
    section: Section,
    schema: &mut Schema,
    table: &str,
    text: &str,
) -> Mem<Option<String>> {
    match section {
        Section::Checks => answer_of_checks(alloc, schema, table, text),
        Section::Queries => queries::answer(alloc, table, text),
        Section::Bench => Ok(None),
    }
}

// The same of a table of checks.
fn answer_of_checks(
    alloc: Global,
    schema: &mut Schema,
    table: &str,
    text: &str,
) -> Mem<Option<String>> {
    if text.len() > MOST {
        return Ok(None);
    }
    match table {
        "schema" => declare(alloc, schema, text),
        "query" => answers::query(alloc, schema, text),
        "upsert" => answers::upsert(alloc, schema, text),
        "plan" => plans::plan(alloc, schema, text),
        "parts" => parts::parts(alloc, schema, text),
        "upsert_plan" => plans::upsert_plan(alloc, schema, text),
        "pattern" => patterns::pattern(alloc, text),
        _ => Ok(None),
    }
}

// Declares the predicates of a text in place of those before, and says how many these are.
fn declare(alloc: Global, schema: &mut Schema, text: &str) -> Mem<Option<String>>
    requires { length text.now ≤ 1048576 }
{
    match read_schema(alloc, text) {
        Ok(declared) => {
            let count = declared.definitions().len();
            *schema = declared;
            Ok(Some(format!(in alloc; "{count} declared")?))
        }
        Err(fault) => Ok(Some(fault.to_string(alloc)?)),
    }
}
