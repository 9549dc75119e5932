//! Turns of callers in one thread and in several. Each line of standard input names what the callers do and how often,
//! and the line that is printed repeats it and says what came of it, which is the same whatever the schedule.
#![tactic(auto)]

mod turns;
mod visits;

use anyhow::Result;
use std::alloc::{AllocError, Global};
use std::sync::Wait;
use std::thread::Threads;

fn main(rt: HostRuntime) -> Result<()> {
    run(&rt, rt.alloc())
}

// Answers each row in turn. Empty lines and those that begin with `#` are passed over.
fn run<R: Input + Print + Threads + Wait + Sync>(rt: &R, alloc: Global) -> Result<()> {
    for line in rt.lines(alloc) {
        let line = line?;
        let row = line.as_str();
        if row.is_empty() || row.starts_with('#') {
            continue;
        }
        match answer(rt, alloc, row)? {
            Some(text) => println!(rt; "{row} => {text}")?,
            None => println!(rt; "? {row}")?,
        }
    }
    Ok(())
}

// What comes of the turns that a row names, where it can be read.
fn answer<R: Threads + Wait + Sync>(
    rt: &R,
    alloc: Global,
    row: &str,
) -> Result<Option<String>, AllocError> {
    let Some((table, number)) = row.split_once(" | ") else {
        return Ok(None);
    };
    let Ok(number) = number.parse::<u32>() else {
        return Ok(None);
    };
    match table {
        "numbers" if number > 0 => Ok(Some(turns::numbers(alloc, number)?)),
        "two" => Ok(Some(turns::two(rt, alloc, number)?)),
        "note" => Ok(Some(turns::note(rt, alloc, number)?)),
        "four" => Ok(Some(turns::four(rt, alloc, number)?)),
        _ => Ok(None),
    }
}
