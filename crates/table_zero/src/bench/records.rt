// What the next record costs.
use crate::bench::commits::{Subjects, filled};
use crate::bench::rows::{Calls, Plan, Series, begin};
use anyhow::Result;
use dg_zero::ZeroState;
use std::alloc::Global;
use std::time::Clock;

// How many timestamps beside each other are asked for.
const NEAR: u64 = 100;

// Calls of one state of Zero: near its first record, in the middle, and near the last.
#[derive(Clone, Copy)]
struct Made {
    first: Calls,
    middle: Calls,
    last: Calls,
}

// Prints what it costs to find the next record near the first of so many, in the middle, and near the last.
pub(crate) fn print_records(
    rt: &(impl Print + Clock),
    alloc: Global,
    plan: Plan,
    sizes: &[u64],
) -> Result<()> {
    let mut first = Series::new(plan, "records, the next one near the first");
    let mut middle = Series::new(plan, "records, the next one in the middle");
    let mut last = Series::new(plan, "records, the next one near the last");
    for size in sizes {
        let made = measured_of(rt, alloc, plan, *size)?;
        first.print(rt, made.first)?;
        middle.print(rt, made.middle)?;
        last.print(rt, made.last)?;
    }
    Ok(())
}

// Calls of a state with so many records.
fn measured_of(rt: &impl Clock, alloc: Global, plan: Plan, size: u64) -> Result<Made> {
    let mirror = filled(alloc, size, Subjects::Fresh)?;
    measured_at(rt, alloc, plan, &mirror.zero, size)
}

// Calls of a state of Zero that has so many records.
fn measured_at(
    rt: &impl Clock,
    alloc: Global,
    plan: Plan,
    zero: &ZeroState,
    size: u64,
) -> Result<Made> {
    // A transaction draws two timestamps.
    let newest = size.saturating_mul(2);
    let from = newest.saturating_sub(NEAR);
    Ok(Made {
        first: measured(rt, alloc, plan, zero, size, 0)?,
        middle: measured(rt, alloc, plan, zero, size, size)?,
        last: measured(rt, alloc, plan, zero, size, from)?,
    })
}

// Calls from a timestamp on.
fn measured(
    rt: &impl Clock,
    alloc: Global,
    plan: Plan,
    zero: &ZeroState,
    size: u64,
    from: u64,
) -> Result<Calls> {
    let calls = (1_000_000 / size.max(1)).max(10).min(1_000);
    let mut watch = plan.watch();
    let since = begin(rt, alloc)?;
    let found = look(zero, from, calls);
    watch.stop(rt, since)?;
    Ok(Calls {
        size,
        calls,
        found,
        watch,
    })
}

// How many of the timestamps have a record above them.
fn look(zero: &ZeroState, from: u64, calls: u64) -> u64 {
    let mut found: u64 = 0;
    for turn in 0..calls {
        let after = from.saturating_add(turn % NEAR);
        if zero.next_record(after).is_some() {
            found = found.saturating_add(1);
        }
    }
    found
}
