// What a commit and a verdict cost, beside a transaction that stays open over many commits.
ghost use Rattle.std.specs.Prelude.{◌≡◌, ◌<◌, ◌≤◌, IfOk};

use anyhow::Result;
use dg_oracle::{Oracle, Verdict};
use std::alloc::Global;
use std::time::{Clock, Instant};

// The start of the transaction that stays open.
const OPEN: u64 = 1;

// So many keys are judged, one at a time.
const JUDGED: u64 = 1_000;

// Prints how many keys of some were not committed.
pub(crate) fn print_clear(rt: &impl Print, alloc: Global) -> Result<()> {
    let oracle = filled(alloc, 1_000)?;
    let clear = clear_keys(&oracle);
    println!(rt; "after 1000 commits {clear} of {JUDGED} keys are clear")?;
    Ok(())
}

// Prints nanoseconds.
pub(crate) fn print_times(rt: &(impl Print + Clock), alloc: Global) -> Result<()> {
    for commits in [100, 1_000, 10_000, 100_000] {
        print_time(rt, alloc, commits)?;
    }
    Ok(())
}

fn print_time(rt: &(impl Print + Clock), alloc: Global, commits: u64) -> Result<()> {
    let before = Instant::now(rt)?;
    let oracle = filled(alloc, commits)?;
    let filled = before.elapsed(rt)?.as_nanos() / u128::from(commits.max(1));
    let before = Instant::now(rt)?;
    let clear = clear_keys(&oracle);
    let judged = before.elapsed(rt)?.as_nanos() / u128::from(JUDGED);
    println!(rt;
        "{commits} commits: {filled} ns a commit, {judged} ns a key judged, {clear} of {JUDGED} clear"
    )?;
    Ok(())
}

// An oracle with an open transaction and so many commits since its start, of four keys each.
fn filled(alloc: Global, commits: u64) -> Result<Oracle<u64>>
    ensures { IfOk result (λ oracle. oracle.line ≡ 0) }
{
    let mut oracle = Oracle::starting_at(alloc, OPEN)?;
    oracle.begin()?;
    for number in 0..commits {
        commit_one(alloc, &mut oracle, number)?;
    }
    Ok(oracle)
}

fn commit_one(alloc: Global, oracle: &mut Oracle<u64>, number: u64) -> Result<()>
    ensures { oracle.new.line ≡ oracle.old.line }
{
    let first = number.wrapping_mul(4);
    let mut keys = vec![in alloc;
        key_of(first),
        key_of(first | 1),
        key_of(first | 2),
        key_of(first | 3),
    ]?;
    keys.sort_unstable();
    let start = oracle.begin()?;
    if let Verdict::Clear = oracle.judge(start, keys.as_slice()) {
        oracle.commit(start, keys).map_err(|refused| refused.0)?;
    }
    Ok(())
}

// A key that looks drawn at random.
fn key_of(number: u64) -> u64 {
    number.wrapping_mul(0x9e37_79b9_7f4a_7c15) >> 30
}

// Every other one was committed, if there were enough commits.
fn judged_key(number: u64) -> u64 {
    if number % 2 == 0 {
        key_of(number)
    } else {
        key_of(u64::MAX - number)
    }
}

// How many of some keys were not committed since the open transaction's start.
fn clear_keys(oracle: &Oracle<u64>) -> u64
    requires { oracle.now.line ≤ 1 }
    ensures { result ≤ 1000 }
{
    let mut clear = 0;
    for number in 0..JUDGED {
        if let Verdict::Clear = oracle.judge(OPEN, &[judged_key(number)]) {
            clear += 1;
        }
    }
    clear
}
