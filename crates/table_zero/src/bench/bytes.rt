// How many bytes transactions leave in memory, by what the process says of itself.
use crate::bench::begins::{pass, pass_alone};
use crate::bench::both::{commit_alone, oracle};
use crate::bench::commits::{DEFINITIONS, PRED, Subjects, filled};
use crate::bench::fault::Fault;
use crate::bench::mirror::Mirror;
use anyhow::Result;
use dg_keys::ConflictKey;
use dg_oracle::Oracle;
use dg_values::Str;
use std::alloc::Global;
use std::fs::{self, Files};

// How many transactions there are.
const MADE: u64 = 100_000;

// How many bytes a page of memory has.
const PAGE: u64 = 4_096;

// Prints what each of many transactions leaves. All stay in memory until the last has been told, as what is let go would be used
// again by the next: so each of these functions calls the next while it holds what it made.
pub(crate) fn print_bytes(
    rt: &(impl Print + Files + Alloc<A = Global>),
    alloc: Global,
) -> Result<()> {
    let mut mirror = Mirror::new(alloc, DEFINITIONS)?;
    let before = resident(rt)?;
    pass(alloc, &mut mirror, MADE)?;
    print_each(rt, "begin with its end", before)?;
    print_commits(rt, alloc)
}

// Those of commits, and then the oracle's.
fn print_commits(rt: &(impl Print + Files + Alloc<A = Global>), alloc: Global) -> Result<()> {
    let before = resident(rt)?;
    let _committed = filled(alloc, MADE, Subjects::Same)?;
    print_each(rt, "begin with its commit of one subject", before)?;
    print_ends_alone(rt, alloc)
}

// Those of the oracle alone: of ends, and then of commits.
fn print_ends_alone(rt: &(impl Print + Files + Alloc<A = Global>), alloc: Global) -> Result<()> {
    let mut ended = oracle(alloc)?;
    let before = resident(rt)?;
    pass_alone(&mut ended, MADE)?;
    print_each(rt, "begin with its end, the oracle alone", before)?;
    print_commits_alone(rt, alloc)
}

// Those of commits to the oracle alone.
fn print_commits_alone(rt: &(impl Print + Files + Alloc<A = Global>), alloc: Global) -> Result<()> {
    let before = resident(rt)?;
    let _alone = filled_alone(alloc)?;
    print_each(
        rt,
        "begin with its commit of one subject, the oracle alone",
        before,
    )
}

// Prints what each transaction has left since there were so many bytes.
fn print_each(
    rt: &(impl Print + Files + Alloc<A = Global>),
    what: &str,
    before: u64,
) -> Result<()> {
    let each = resident(rt)?.saturating_sub(before) / MADE;
    println!(rt; "{what}: {each} bytes, {MADE} calls")?;
    Ok(())
}

// The bytes of the process that are in memory.
fn resident(rt: &(impl Files + Alloc<A = Global>)) -> Result<u64> {
    let text = fs::read_to_string(rt, "/proc/self/statm")?;
    Ok(resident_in(text.as_str())?)
}

// The second of the numbers, which counts pages.
fn resident_in(text: &str) -> Result<u64, Fault> {
    let Some(word) = text.split(' ').nth(1) else {
        return Err(Fault::Untold);
    };
    match word.parse::<u64>() {
        Ok(pages) => Ok(pages.saturating_mul(PAGE)),
        Err(_) => Err(Fault::Untold),
    }
}

// An oracle after many commits of the key of one subject.
fn filled_alone(alloc: Global) -> Result<Oracle<ConflictKey>> {
    let mut filled = oracle(alloc)?;
    for _turn in 0..MADE {
        let keys = one_key(alloc)?;
        let start = filled.begin()?;
        commit_alone(&mut filled, start, keys)?;
    }
    Ok(filled)
}

// The key of the one subject.
fn one_key(alloc: Global) -> Result<Vec<ConflictKey>, Fault> {
    let p = Str::from_str(alloc, PRED)?;
    Ok(vec![in alloc; ConflictKey::Data { p, s: 1, o: None }]?)
}
