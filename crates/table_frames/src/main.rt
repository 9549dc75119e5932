//! Rows about sources, sinks, frames, scripts and replies. Each line of standard input asks one thing, and the line that is
//! printed repeats it and has the answer.
#![tactic(auto)]

mod fields;
mod frames;
mod refusals;
mod replies;
mod said;
mod scripts;
mod sinks;
mod sources;

use anyhow::{Result, bail};
use fields::{Answer, RowFault, fields_of};
use std::alloc::Global;

fn main(rt: HostRuntime) -> Result<()> {
    run(&rt, rt.alloc())
}

// Answers each row in turn. Empty lines and those that begin with `#` are passed over.
fn run(rt: &(impl Input + Print), alloc: Global) -> Result<()> {
    for line in rt.lines(alloc) {
        let line = line?;
        let row = line.as_str();
        if row.is_empty() || row.starts_with('#') {
            continue;
        }
        match answer(alloc, row) {
            Ok(text) => println!(rt; "{row} => {text}")?,
            Err(RowFault::Unreadable) => println!(rt; "? {row}")?,
            Err(RowFault::OutOfMemory) => bail!("out of memory"),
        }
    }
    Ok(())
}

// What the table that a row names answers to its fields.
fn answer(alloc: Global, row: &str) -> Answer {
    let fields = fields_of(alloc, row)?;
    let [table, said @ ..] = fields.as_slice() else {
        return Err(RowFault::Unreadable);
    };
    match *table {
        "source" => sources::in_memory(alloc, said),
        "text source" => sources::over_text(alloc, said),
        "broken source" => sources::over_broken(alloc, said),
        "sink" => sinks::in_memory(alloc, said),
        "whole" => sinks::whole(alloc, said),
        "growing sink" => sinks::growing(alloc, said),
        "full sink" => sinks::full(alloc, said),
        "gate" => sinks::gate(alloc, said),
        "name" => frames::name(alloc, said),
        "front" => frames::front(alloc, said),
        "roll" => frames::roll(alloc, said),
        "cuts" => frames::cuts(alloc, said),
        "frames" => frames::frames(alloc, said),
        "after" => frames::after(alloc, said),
        "bodies" => frames::bodies(alloc, said),
        "gen" => scripts::made(alloc, said),
        "reply" => replies::row(alloc, said),
        "refusal" => refusals::row(alloc, said),
        _ => Err(RowFault::Unreadable),
    }
}
