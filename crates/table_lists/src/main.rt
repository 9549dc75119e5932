//! Reads rows that name calls on bases, operations, maps, posting lists, stores and keys, and prints each row with its
//! answer. With the word `time` it reads none, and prints what the storage core costs.
//!
//! A row is words between blanks. The first names its table and the second a command. What a row makes is kept for the
//! rows below it, up to one that begins anew with `new`. Maps, lists and stores are kept in versions: a row that changes
//! one makes the next version, and `list@2` names a version in the place of the newest. The answer is `?` where a row
//! can't be read, or names a call that may not be made. The row `section bench` prints what the calls of the benchmark find, and
//! no row behind it can be read.
#![tactic(auto)]

mod bases;
mod bench;
mod changes;
mod conflicts;
mod fault;
mod kept_list;
mod kept_store;
mod keys;
mod lists;
mod maps;
mod pages;
mod postings;
mod reads;
mod spelled_keys;
mod stores;
mod tables;
mod tablets;
mod tokens;
mod versions;
mod words;

use crate::bench::print_costs;
use crate::fault::Answer;
use crate::tables::Tables;
use anyhow::Result;
use std::alloc::Global;
use std::env;
use std::io::{self, BufRead, BufReader};
use std::time::Clock;

fn main(rt: HostRuntime) -> Result<()> {
    let alloc = rt.alloc();
    if env::args(&rt)?.skip(1).any(|word| word.as_str() == "time") {
        return print_costs(&rt, alloc, true);
    }
    let mut tables = Tables::new(alloc);
    for line in BufReader::new(alloc, rt.reader())?.lines(alloc) {
        let line = line?;
        let row = line.as_str();
        if !row.is_empty() && !row.starts_with('#') {
            print_answer(&rt, alloc, &mut tables, row)?;
        }
    }
    Ok(())
}

// Prints what a row asks for.
fn print_answer(
    rt: &(impl Print + Clock),
    alloc: Global,
    tables: &mut Tables,
    row: &str,
) -> Result<()> {
    if row == "section bench" && tables.close() {
        return print_costs(rt, alloc, false);
    }
    print_row(rt, row, tables.answer(alloc, row))?;
    Ok(())
}

fn print_row(rt: &impl Print, row: &str, answer: Answer<String>) -> io::Result<()> {
    match answer {
        Ok(text) => println!(rt; "{row} => {text}"),
        Err(fault) => println!(rt; "{row} => {fault}"),
    }
}
