// What looking up and putting costs in a map in pages, and beside it in a plain one.
use crate::bench::fault::Fault;
use crate::bench::plain::PlainMap;
use crate::bench::rows::{Row, begin, print_row};
use crate::bench::shuffle::drawn;
use anyhow::Result;
use dg_pages::Pages;
use std::alloc::Global;
use std::sync::Arc;
use std::time::Clock;

// How many keys are looked up.
const LOOKED: u64 = 10_000;

// How many keys are put into a map in pages.
const PUT: u64 = 1_000;

// Prints what it costs to look up a key and to put one, in a map of so many pairs and in a plain one, both made in order.
pub(crate) fn print_beside(
    rt: &(impl Print + Clock),
    alloc: Global,
    size: u64,
    timed: bool,
) -> Result<()> {
    let row = Row { size, timed };
    let paged = paged(alloc, size)?;
    let plain = plain(alloc, size)?;
    print_looks(rt, alloc, row, &paged, &plain)?;
    print_puts(rt, alloc, row, &paged, &plain)
}

// Those of look-ups. Each map is gone over once before its time begins, so that it doesn't matter which of them was made last.
fn print_looks(
    rt: &(impl Print + Clock),
    alloc: Global,
    row: Row,
    paged: &Pages<u64, u64>,
    plain: &PlainMap<u64, u64>,
) -> Result<()> {
    let keys = keys(alloc, row.size)?;
    let _warm = look(paged, keys.as_slice());
    let since = begin(rt, alloc)?;
    let found = look(paged, keys.as_slice());
    print_row(rt, row, "pairs, get", LOOKED, since, found)?;
    let _warm = look_plain(plain, keys.as_slice());
    let since = begin(rt, alloc)?;
    let found = look_plain(plain, keys.as_slice());
    print_row(rt, row, "plain pairs, get", LOOKED, since, found)
}

// Those of pairs that are put.
fn print_puts(
    rt: &(impl Print + Clock),
    alloc: Global,
    row: Row,
    paged: &Pages<u64, u64>,
    plain: &PlainMap<u64, u64>,
) -> Result<()> {
    let since = begin(rt, alloc)?;
    let made = put(alloc, paged, row.size)?;
    print_row(rt, row, "pairs, one put", PUT, since, made)?;
    let puts = plain_puts(row.size);
    let since = begin(rt, alloc)?;
    let made = put_plain(alloc, plain, row.size, puts)?;
    print_row(rt, row, "plain pairs, one put", puts, since, made)
}

// How many keys are put into a plain map: fewer where it has more to copy.
pub(crate) fn plain_puts(size: u64) -> u64 {
    (1_000_000 / size.max(1)).max(10).min(1_000)
}

// Keys of a map of so many, as if drawn at random.
fn keys(alloc: Global, size: u64) -> Result<Vec<u64>, Fault> {
    let mut keys = Vec::new(alloc);
    for turn in 0..LOOKED {
        keys.push(drawn(turn, size))?;
    }
    Ok(keys)
}

// How many of the keys are there.
fn look(map: &Pages<u64, u64>, keys: &[u64]) -> u64 {
    keys.iter().filter(|key| map.get(key).is_some()).count() as u64
}

// How many of the keys are there.
fn look_plain(map: &PlainMap<u64, u64>, keys: &[u64]) -> u64 {
    keys.iter().filter(|key| map.get(key).is_some()).count() as u64
}

// A map of so many pairs.
fn paged(alloc: Global, size: u64) -> Result<Pages<u64, u64>, Fault> {
    let mut changes = Vec::new(alloc);
    for before in 0..size {
        let key = before + 1;
        changes.push((Arc::new(alloc, key)?, Some(Arc::new(alloc, key)?)))?;
    }
    Ok(Pages::new(alloc)?.with_changes(alloc, changes)?)
}

// A plain map of so many pairs.
fn plain(alloc: Global, size: u64) -> Result<PlainMap<u64, u64>, Fault> {
    let mut pairs = Vec::new(alloc);
    for before in 0..size {
        let key = before + 1;
        pairs.push((Arc::new(alloc, key)?, Arc::new(alloc, key)?))?;
    }
    Ok(PlainMap::of(pairs))
}

// How many times one pair, another one each time, made a map.
fn put(alloc: Global, map: &Pages<u64, u64>, size: u64) -> Result<u64, Fault> {
    let mut made: u64 = 0;
    for turn in 0..PUT {
        let key = drawn(turn, size);
        let mut changes = Vec::new(alloc);
        changes.push((Arc::new(alloc, key)?, Some(Arc::new(alloc, key)?)))?;
        let _changed = map.with_changes(alloc, changes)?;
        made = made.saturating_add(1);
    }
    Ok(made)
}

// How many times one pair, another one each time, made a plain map.
fn put_plain(alloc: Global, map: &PlainMap<u64, u64>, size: u64, puts: u64) -> Result<u64, Fault> {
    let mut made: u64 = 0;
    for turn in 0..puts {
        let key = drawn(turn, size);
        let _changed = map.with(alloc, Arc::new(alloc, key)?, Arc::new(alloc, key)?)?;
        made = made.saturating_add(1);
    }
    Ok(made)
}
