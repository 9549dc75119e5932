//! Reads rows from standard input and prints each with its answer: what the crates of texts, schemas, mutations and
//! answers make of the row. A row is the name of a table and its fields, with a tab between any two; a control character
//! within a field stands as its picture. The row `section bench` prints how many statements the benchmark reads, and no row behind
//! it can be read. With the word `time` no row is read, and it is printed what reading statements costs.
#![tactic(auto)]

mod bench;
mod faults;
mod mutations;
mod pictures;
mod readers;
mod schemas;
mod tokens;
mod trees;
mod words;

use crate::bench::print_costs;
use crate::pictures::plain;
use crate::schemas::Held;
use anyhow::Result;
use dg_values::{Mem, OutOfMemory};
use std::alloc::{AllocError, Global};
use std::env;
use std::io::{self, BufRead, BufReader};
use std::time::Clock;

// The most bytes that a text has.
const MOST: usize = 1_048_576;

fn main(rt: HostRuntime) -> Result<()> {
    let alloc = rt.alloc();
    if env::args(&rt)?.skip(1).any(|word| word.as_str() == "time") {
        return print_costs(&rt, alloc, true);
    }
    let mut held = Held::new(alloc);
    let mut closed = false;
    for line in BufReader::new(alloc, rt.reader())?.lines(alloc) {
        let row = line?;
        if !is_passed_over(row.as_str()) {
            print_answer(&rt, alloc, &mut held, &mut closed, row.as_str())?;
        }
    }
    Ok(())
}

// Whether a line is empty or a comment.
fn is_passed_over(line: &str) -> bool {
    line.is_empty() || line.starts_with('#')
}

// Prints what a row asks for, where rows can still be read.
fn print_answer(
    rt: &(impl Print + Clock),
    alloc: Global,
    held: &mut Held,
    closed: &mut bool,
    row: &str,
) -> Result<()> {
    if *closed {
        println!(rt; "? {row}")?;
        return Ok(());
    }
    if row == "section bench" {
        *closed = true;
        return print_costs(rt, alloc, false);
    }
    print_row(rt, alloc, held, row)?;
    Ok(())
}

fn print_row(rt: &impl Print, alloc: Global, held: &mut Held, row: &str) -> io::Result<()> {
    let (table, fields) = row.split_once('\t').unwrap_or((row, ""));
    match answer(alloc, held, table, fields) {
        Ok(Some(answer)) => println!(rt; "{row} => {answer}"),
        Ok(None) => println!(rt; "? {row}"),
        Err(OutOfMemory) => Err(AllocError.into()),
    }
}

// What a table answers to the fields of a row; none where they can't be read.
fn answer(alloc: Global, held: &mut Held, table: &str, fields: &str) -> Mem<Option<String>> {
    match table {
        "name" => readers::name(alloc, fields),
        "next" => readers::next(alloc, fields),
        "word" => words::word(alloc, fields),
        "deep" => words::deep(alloc, fields),
        "held" => schemas::call(alloc, held, fields),
        "tree" => trees::text(alloc, fields),
        "size" => trees::size(alloc, fields),
        "fault" => faults::fault(alloc, fields),
        "repeat" => mutations::repeated(alloc, fields),
        _ => {
            let text = plain(alloc, fields)?;
            answer_to_text(alloc, table, text.as_str())
        }
    }
}

// What a table of texts answers to one.
fn answer_to_text(alloc: Global, table: &str, text: &str) -> Mem<Option<String>> {
    if text.len() > MOST {
        return Ok(None);
    }
    match table {
        "tokens" => tokens::tokens(alloc, text),
        "front" => tokens::front(alloc, text),
        "pieces" => tokens::pieces(alloc, text),
        "says" => tokens::says(alloc, text),
        "unquoted" => tokens::unquoted(alloc, text),
        "schema" => schemas::definitions(alloc, text),
        "printed" => schemas::printed(alloc, text),
        "mutation" => mutations::mutation(alloc, text),
        "written" => mutations::written(alloc, text),
        "upsert" => mutations::upsert(alloc, text),
        "cut" => mutations::cut(alloc, text),
        _ => Ok(None),
    }
}
