// What the calls of the state that coordinates all cost: begins and ends, commits of one change, the next record, and alters; and
// beside begins and commits what the oracle alone takes.
mod alters;
mod begins;
mod both;
mod bytes;
mod commits;
mod fault;
mod mirror;
mod oracle;
mod records;
mod rows;

use crate::bench::alters::{print_many, print_one};
use crate::bench::begins::print_begins;
pub(crate) use crate::bench::bytes::print_bytes;
use crate::bench::commits::{Subjects, print_commits};
use crate::bench::oracle::print_clear;
pub(crate) use crate::bench::oracle::print_times;
use crate::bench::records::print_records;
use crate::bench::rows::Plan;
use anyhow::Result;
use std::alloc::Global;
use std::time::Clock;

// Prints what the calls found, and then what those of an oracle of plain keys found.
pub(crate) fn print_found(rt: &(impl Print + Clock), alloc: Global) -> Result<()> {
    print_costs(rt, alloc, false)?;
    print_clear(rt, alloc)
}

// Prints nanoseconds a call, and by which power of the size they grow, or else how many of the calls found something.
pub(crate) fn print_costs(rt: &(impl Print + Clock), alloc: Global, timed: bool) -> Result<()> {
    let plan = Plan::new(rt, timed)?;
    let sizes: &[u64] = if timed {
        &[1_000, 10_000, 100_000]
    } else {
        &[10, 100]
    };
    print_begins(rt, alloc, plan, sizes)?;
    print_commits(rt, alloc, plan, sizes, Subjects::Fresh)?;
    print_commits(rt, alloc, plan, sizes, Subjects::Same)?;
    print_records(rt, alloc, plan, sizes)?;
    let sizes: &[u64] = if timed {
        &[1_000, 10_000, 30_000]
    } else {
        &[10, 100]
    };
    print_one(rt, alloc, plan, sizes)?;
    let sizes: &[u64] = if timed {
        &[1_000, 5_000, 20_000]
    } else {
        &[10, 100]
    };
    print_many(rt, alloc, plan, sizes)
}
