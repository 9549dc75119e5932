// What whole scripts cost, answered in memory by the engine: many tiny transactions, one large one, a key that is overwritten
// under an open reader, sessions in conflict, begins alone, reads, and triples loaded under indexes.

mod fault;
mod indexed;
mod memory;
mod rows;
mod running;
mod scripts;

use crate::bench::memory::print_bytes;
use crate::bench::rows::{print_counts, print_times};
use crate::bench::scripts::{FORMS, Form};
use anyhow::Result;
use std::alloc::Global;
use std::env::{self, Env};
use std::fs::Files;
use std::time::Clock;

// What a word of the program asks for.
#[derive(Clone, Copy)]
pub(crate) enum Cost {
    // `bytes`: the memory of a tiny transaction.
    Bytes,
    // `indexed`: that of an indexed triple.
    IndexedBytes,
    // `time`: the nanoseconds of a step of each script, and by which power of the number of steps they grow.
    Times,
}

// What the words of the program ask for, if anything.
pub(crate) fn asked(rt: &(impl Env + Alloc<A = Global>)) -> Result<Option<Cost>> {
    if has_word(rt, "bytes")? {
        return Ok(Some(Cost::Bytes));
    }
    if has_word(rt, "indexed")? {
        return Ok(Some(Cost::IndexedBytes));
    }
    if has_word(rt, "time")? {
        return Ok(Some(Cost::Times));
    }
    Ok(None)
}

fn has_word(rt: &(impl Env + Alloc<A = Global>), said: &str) -> Result<bool> {
    Ok(env::args(rt)?.skip(1).any(|word| word.as_str() == said))
}

// Prints what scripts cost.
pub(crate) fn print_cost(
    rt: &(impl Print + Clock + Files + Alloc<A = Global>),
    alloc: Global,
    cost: Cost,
) -> Result<()> {
    match cost {
        Cost::Bytes => print_bytes(rt, alloc, Form::Tiny),
        Cost::IndexedBytes => print_bytes(rt, alloc, Form::Indexed { changes: 1 }),
        Cost::Times => print_all_times(rt, alloc),
    }
}

fn print_all_times(rt: &(impl Print + Clock), alloc: Global) -> Result<()> {
    for form in FORMS {
        print_times(rt, alloc, form)?;
    }
    Ok(())
}

// Prints how many replies and refusals small scripts of each form have.
pub(crate) fn print_all_counts(rt: &impl Print, alloc: Global) -> Result<()> {
    for form in FORMS {
        print_counts(rt, alloc, form)?;
    }
    Ok(())
}
