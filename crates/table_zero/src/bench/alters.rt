// What alters cost.
ghost use Rattle.std.specs.Prelude.{OnOk};
ghost use Rattle.table_zero.specs.Mirrors.{IsBare};

use crate::bench::fault::Fault;
use crate::bench::mirror::{alter, bare, definitions};
use crate::bench::rows::{Calls, Plan, Series, Watch, begin};
use anyhow::Result;
use dg_schema::Schema;
use dg_zero::ZeroState;
use std::alloc::Global;
use std::time::{Clock, Instant};

// Prints what one alter of so many new definitions costs.
pub(crate) fn print_one(
    rt: &(impl Print + Clock),
    alloc: Global,
    plan: Plan,
    sizes: &[u64],
) -> Result<()> {
    let mut series = Series::new(plan, "definitions, one alter of all");
    for size in sizes {
        let newer = numbered(alloc, 0, *size)?;
        let mut zero = bare(alloc)?;
        let mut watch = plan.watch();
        let since = begin(rt, alloc)?;
        let _ = alter(alloc, &mut zero, &newer)?;
        watch.stop(rt, since)?;
        series.print(
            rt,
            Calls {
                size: *size,
                calls: 1,
                found: declared(&zero),
                watch,
            },
        )?;
    }
    Ok(())
}

// Prints what so many alters cost, each of one new definition.
pub(crate) fn print_many(
    rt: &(impl Print + Clock),
    alloc: Global,
    plan: Plan,
    sizes: &[u64],
) -> Result<()> {
    let mut series = Series::new(plan, "definitions, an alter of each");
    for size in sizes {
        let mut zero = bare(alloc)?;
        let mut watch = plan.watch();
        let _ = begin(rt, alloc)?;
        alter_each(rt, alloc, &mut zero, *size, &mut watch)?;
        series.print(
            rt,
            Calls {
                size: *size,
                calls: *size,
                found: declared(&zero),
                watch,
            },
        )?;
    }
    Ok(())
}

// How many predicates are declared.
fn declared(zero: &ZeroState) -> u64 {
    zero.schema().definitions().len() as u64
}

// Makes so many alters of one new definition.
fn alter_each(
    rt: &impl Clock,
    alloc: Global,
    zero: &mut ZeroState,
    size: u64,
    watch: &mut Watch,
) -> Result<()>
    requires { IsBare zero.old }
{
    for turn in 0..size {
        let newer = numbered(alloc, turn, turn.saturating_add(1))?;
        let since = Instant::now(rt)?;
        let _ = alter(alloc, zero, &newer)?;
        watch.stop(rt, since)?;
    }
    Ok(())
}

// The definitions with numbers from one up to another.
fn numbered(alloc: Global, from: u64, to: u64) -> Result<Schema, Fault> {
    let mut text = String::new(alloc);
    for number in from..to {
        let line = format!(in alloc; "p{number}: int .\n")?;
        text.push_str(line.as_str())?;
    }
    definitions(alloc, text.as_str())
}
