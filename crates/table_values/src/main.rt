//! Prints what the crates of values, tokens, tables, sets and nodes answer to rows of standard input.
//!
//! A row is the name of its table and fields, with ` | ` between them; its answer stands behind
//! ` => `. Lines that are empty or begin with `#` are passed over. What can't be read as a row is
//! answered by `?`.
#![tactic(auto)]

mod answers;
mod fault;
mod fields;
mod objects;
mod readings;
mod sets;
mod tables;
mod texts;
mod tokens;
mod uids;
mod verbs;

use crate::answers::answer;
use crate::fault::Fault;
use crate::sets::Kept;
use anyhow::Result;
use std::alloc::Global;
use std::io::{BufRead, BufReader};

fn main(rt: HostRuntime) -> Result<()> {
    let alloc = rt.alloc();
    let mut kept = Kept::new(alloc);
    for line in BufReader::new(alloc, rt.reader())?.lines(alloc) {
        let line = line?;
        if !line.is_empty() && !line.starts_with('#') {
            print_answer(&rt, alloc, &mut kept, line.as_str())?;
        }
    }
    Ok(())
}

// Prints a row and its answer.
fn print_answer(rt: &impl Print, alloc: Global, kept: &mut Kept, row: &str) -> Result<()> {
    match answer(alloc, kept, row) {
        Ok(answer) => println!(rt; "{row} => {answer}")?,
        Err(Fault::Unreadable) => println!(rt; "{row} => ?")?,
        Err(Fault::OutOfMemory) => return Err(Fault::OutOfMemory.into()),
    }
    Ok(())
}
