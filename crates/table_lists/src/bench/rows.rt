// The lines that are printed.
use crate::bench::fault::Fault;
use anyhow::Result;
use std::alloc::Global;
use std::time::{Clock, Instant};

// How many bytes are taken before a time begins: more than the allocator keeps apart as small.
const LARGE: usize = 65_536;

// What a line is of.
#[derive(Clone, Copy)]
pub(crate) struct Row {
    // How many keys or layers there are.
    pub(crate) size: u64,
    // Whether times are printed.
    pub(crate) timed: bool,
}

// The time now. What was let go in small pieces before is first joined by the allocator, which it does when it is asked for a
// large one: else the row that asks next pays for all of it.
pub(crate) fn begin(rt: &impl Clock, alloc: Global) -> Result<Instant> {
    settle(alloc)?;
    Ok(Instant::now(rt)?)
}

// Takes a large piece of memory, and lets it go.
fn settle(alloc: Global) -> Result<(), Fault> {
    let mut bytes: Vec<u8> = Vec::with_capacity(alloc, LARGE)?;
    bytes.push(0)?;
    Ok(())
}

// Prints what so many calls since a time took each, or else how many of them found something.
pub(crate) fn print_row(
    rt: &(impl Print + Clock),
    row: Row,
    call: &str,
    calls: u64,
    since: Instant,
    found: u64,
) -> Result<()> {
    let taken = since.elapsed(rt)?.as_nanos();
    let size = row.size;
    if row.timed {
        let each = taken / u128::from(calls.max(1));
        println!(rt; "{size} {call}: {each} ns, {calls} calls")?;
    } else {
        println!(rt; "{size} {call}: {found} found, {calls} calls")?;
    }
    Ok(())
}
