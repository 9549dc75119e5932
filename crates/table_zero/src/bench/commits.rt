// What commits of one change cost.
ghost use Rattle.std.specs.Prelude.{IfOk};
ghost use Rattle.table_zero.specs.Mirrors.{IsMirror};

use crate::bench::both::{Watches, commit_one, oracle};
use crate::bench::fault::Fault;
use crate::bench::mirror::Mirror;
use crate::bench::rows::{Plan, Series, begin};
use anyhow::Result;
use dg_graph::{Change, Triple};
use dg_values::{Mem, OutOfMemory, Posting, Str, Value};
use std::alloc::Global;
use std::time::Clock;

// The predicate of all changes, and its definition.
pub(crate) const PRED: &str = "age";

pub(crate) const DEFINITIONS: &str = "age: int .";

// Whose value each commit sets.
#[derive(Clone, Copy)]
pub(crate) enum Subjects {
    // That of a subject that had none.
    Fresh,
    // That of the one subject.
    Same,
}

// Prints what so many commits of one change cost, each of a transaction that begins right before.
pub(crate) fn print_commits(
    rt: &(impl Print + Clock),
    alloc: Global,
    plan: Plan,
    sizes: &[u64],
    subjects: Subjects,
) -> Result<()> {
    let (begins, commits) = match subjects {
        Subjects::Fresh => (
            "begins before commits of fresh subjects",
            "commits of fresh subjects",
        ),
        Subjects::Same => (
            "begins before commits of one subject",
            "commits of one subject",
        ),
    };
    let mut begins = Series::new(plan, begins);
    let mut commits = Series::new(plan, commits);
    for size in sizes {
        let watches = measured(rt, alloc, plan, *size, subjects)?;
        begins.print_beside(rt, *size, *size, watches.begins)?;
        commits.print_beside(rt, *size, *size, watches.commits)?;
    }
    Ok(())
}

// The watches of so many begins and commits.
fn measured(
    rt: &impl Clock,
    alloc: Global,
    plan: Plan,
    size: u64,
    subjects: Subjects,
) -> Result<Watches> {
    let mut mirror = Mirror::new(alloc, DEFINITIONS)?;
    let mut oracle = oracle(alloc)?;
    let mut watches = Watches::new(plan);
    let _ = begin(rt, alloc)?;
    for turn in 0..size {
        let change = changed(alloc, subjects, turn)?;
        commit_one(rt, alloc, &mut mirror, &mut oracle, &mut watches, change)?;
    }
    Ok(watches)
}

// A state after so many commits of one change.
pub(crate) fn filled(alloc: Global, size: u64, subjects: Subjects) -> Result<Mirror, Fault>
    ensures { IfOk result (λ m. IsMirror m.zero m.at) }
{
    let mut mirror = Mirror::new(alloc, DEFINITIONS)?;
    for turn in 0..size {
        mirror.commit_one(alloc, changed(alloc, subjects, turn)?)?;
    }
    Ok(mirror)
}

// The change of a turn.
pub(crate) fn changed(alloc: Global, subjects: Subjects, turn: u64) -> Result<Change, Fault> {
    let s = match subjects {
        Subjects::Fresh => turn.saturating_add(1),
        Subjects::Same => 1,
    };
    let p = Str::from_str(alloc, PRED)?;
    let o = Posting::Val(Value::Int(i64::try_from(turn).unwrap_or(0)));
    Ok(Change::Set(Triple { s, p, o }))
}
