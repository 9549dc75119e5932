// What begins and ends cost.
ghost use Rattle.std.specs.Prelude.{IfOk, OnOk};
ghost use Rattle.table_zero.specs.Mirrors.{IsMirror};

use crate::bench::both::{Watches, end_one, oracle};
use crate::bench::commits::DEFINITIONS;
use crate::bench::fault::Fault;
use crate::bench::mirror::Mirror;
use crate::bench::rows::{Beside, Plan, Series, begin};
use anyhow::Result;
use dg_keys::ConflictKey;
use dg_oracle::Oracle;
use std::alloc::Global;
use std::time::Clock;

// Prints what so many begins and ends cost, each begin followed by its end.
pub(crate) fn print_begins(
    rt: &(impl Print + Clock),
    alloc: Global,
    plan: Plan,
    sizes: &[u64],
) -> Result<()> {
    let mut begins = Series::new(plan, "begins");
    let mut ends = Series::new(plan, "ends");
    let mut pairs = Series::new(plan, "begins with their ends");
    for size in sizes {
        let watches = measured(rt, alloc, plan, *size)?;
        begins.print_beside(rt, *size, *size, watches.begins)?;
        ends.print_beside(rt, *size, *size, watches.ends)?;
        let watches = passed(rt, alloc, plan, *size)?;
        pairs.print_beside(rt, *size, *size, watches)?;
    }
    Ok(())
}

// The watches of so many begins and ends.
fn measured(rt: &impl Clock, alloc: Global, plan: Plan, size: u64) -> Result<Watches> {
    let mut mirror = Mirror::new(alloc, DEFINITIONS)?;
    let mut oracle = oracle(alloc)?;
    let mut watches = Watches::new(plan);
    let _ = begin(rt, alloc)?;
    for _turn in 0..size {
        end_one(rt, alloc, &mut mirror, &mut oracle, &mut watches)?;
    }
    Ok(watches)
}

// The watches of as many, which run through all, so that the clock isn't read between calls.
fn passed(rt: &impl Clock, alloc: Global, plan: Plan, size: u64) -> Result<Beside> {
    let mut mirror = Mirror::new(alloc, DEFINITIONS)?;
    let mut oracle = oracle(alloc)?;
    let mut watches = Beside::new(plan);
    let since = begin(rt, alloc)?;
    let _ = pass(alloc, &mut mirror, size)?;
    watches.zero.stop(rt, since)?;
    let since = begin(rt, alloc)?;
    pass_alone(&mut oracle, size)?;
    watches.alone.stop(rt, since)?;
    Ok(watches)
}

// Begins and ends so many transactions, and answers how many of them were active.
pub(crate) fn pass(alloc: Global, mirror: &mut Mirror, size: u64) -> Result<u64, Fault>
    requires { IsMirror mirror.old.zero mirror.old.at }
{
    let mut ended: u64 = 0;
    for _turn in 0..size {
        let begun = mirror.begin(alloc)?;
        if mirror.end(alloc, begun.start)? {
            ended = ended.saturating_add(1);
        }
    }
    Ok(ended)
}

// Begins and ends so many transactions of the oracle alone.
pub(crate) fn pass_alone(oracle: &mut Oracle<ConflictKey>, size: u64) -> Result<(), Fault> {
    for _turn in 0..size {
        let start = oracle.begin()?;
        let _ = oracle.end(start);
    }
    Ok(())
}
