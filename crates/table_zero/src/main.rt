//! Reads rows that name calls on oracles, graphs, checked statements, offers and the state that coordinates all, and
//! prints each row with its answer. With the word `time` it reads none, and prints what the calls of that state cost; with the words
//! `oracle` and `time` what those of the oracle alone cost; with the word `bytes` the bytes that stay in memory.
//!
//! A row is words between blanks. The first names its table and the second a command. What a row makes is kept for the
//! rows below it, up to one that begins anew with `new`. The answer is `?` where a row can't be read, or names a call
//! that may not be made. The row `section bench` prints what the calls of both benchmarks find, and no row behind it can be read.
#![tactic(auto)]

mod bench;
mod colors;
mod counted;
mod edges;
mod fault;
mod ground;
mod kept_oracle;
mod kept_zero;
mod large;
mod lawful;
mod listing;
mod lookups;
mod oracles;
mod postings;
mod starts;
mod steps;
mod tables;
mod triples;
mod words;
mod zeros;

use crate::bench::{print_bytes, print_costs, print_found, print_times};
use crate::fault::Answer;
use crate::tables::Tables;
use anyhow::Result;
use std::alloc::Global;
use std::env::{self, Env};
use std::io::{self, BufRead, BufReader};
use std::time::Clock;

fn main(rt: HostRuntime) -> Result<()> {
    let alloc = rt.alloc();
    if is_said(&rt, "bytes")? {
        return print_bytes(&rt, alloc);
    }
    if !is_said(&rt, "time")? {
        return print_answers(&rt, alloc);
    }
    if is_said(&rt, "oracle")? {
        return print_times(&rt, alloc);
    }
    print_costs(&rt, alloc, true)
}

// Whether a word is among the program's own.
fn is_said(rt: &(impl Env + Alloc), word: &str) -> Result<bool> {
    Ok(env::args(rt)?.skip(1).any(|said| said.as_str() == word))
}

// Prints what each row asks for.
fn print_answers(rt: &(impl Input + Print + Clock), alloc: Global) -> Result<()> {
    let mut tables = Tables::new();
    for line in BufReader::new(alloc, rt.reader())?.lines(alloc) {
        let line = line?;
        let row = line.as_str();
        if !row.is_empty() && !row.starts_with('#') {
            print_answer(rt, alloc, &mut tables, row)?;
        }
    }
    Ok(())
}

fn print_answer(
    rt: &(impl Print + Clock),
    alloc: Global,
    tables: &mut Tables,
    row: &str,
) -> Result<()> {
    if row == "section bench" && tables.close() {
        return print_found(rt, alloc);
    }
    print_row(rt, row, tables.answer(alloc, row))?;
    Ok(())
}

fn print_row(rt: &impl Print, row: &str, answer: Answer<String>) -> io::Result<()> {
    match answer {
        Ok(text) => println!(rt; "{row} => {text}"),
        Err(fault) => println!(rt; "{row} => {fault}"),
    }
}
