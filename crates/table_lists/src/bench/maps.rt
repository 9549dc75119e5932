// What a map in pages costs.
use crate::bench::fault::Fault;
use crate::bench::rows::{Row, begin, print_row};
use crate::bench::shuffle::shuffled;
use anyhow::Result;
use dg_pages::Pages;
use std::alloc::Global;
use std::sync::Arc;
use std::time::Clock;

// How many changes are made together.
const TOGETHER: u64 = 100;

// How many times they are made.
const TIMES: u64 = 100;

// Prints what it costs to put so many pairs into a map, and to change some of them together.
pub(crate) fn print_map(
    rt: &(impl Print + Clock),
    alloc: Global,
    size: u64,
    timed: bool,
) -> Result<()> {
    let row = Row { size, timed };
    print_all(rt, alloc, row, "pairs, put at once", false)?;
    print_all(rt, alloc, row, "pairs, put at once, shuffled", true)?;
    print_each(rt, alloc, row)?;
    print_in_place(rt, alloc, row)
}

// Those of a map that is made of all at once.
fn print_all(
    rt: &(impl Print + Clock),
    alloc: Global,
    row: Row,
    call: &str,
    is_shuffled: bool,
) -> Result<()> {
    let since = begin(rt, alloc)?;
    let map = with_all(alloc, row.size, is_shuffled)?;
    print_row(rt, row, call, 1, since, last(&map, row.size))
}

// Those of a map that is made anew for each pair.
fn print_each(rt: &(impl Print + Clock), alloc: Global, row: Row) -> Result<()> {
    let call = "pairs, each put by itself, shuffled";
    let since = begin(rt, alloc)?;
    let map = with_each(alloc, row.size)?;
    print_row(rt, row, call, row.size, since, last(&map, row.size))
}

// Those of a map into which each pair is put in place, and of changes to it.
fn print_in_place(rt: &(impl Print + Clock), alloc: Global, row: Row) -> Result<()> {
    let call = "pairs, each put in place, shuffled";
    let since = begin(rt, alloc)?;
    let map = put_each(alloc, row.size)?;
    print_row(rt, row, call, row.size, since, last(&map, row.size))?;
    print_changes(rt, alloc, row, &map)
}

// Those of many changes together, spread and shuffled.
fn print_changes(
    rt: &(impl Print + Clock),
    alloc: Global,
    row: Row,
    map: &Pages<u64, u64>,
) -> Result<()> {
    print_changed(rt, alloc, row, map, "pairs, 100 changed at once", false)?;
    let call = "pairs, 100 changed at once, shuffled";
    print_changed(rt, alloc, row, map, call, true)
}

fn print_changed(
    rt: &(impl Print + Clock),
    alloc: Global,
    row: Row,
    map: &Pages<u64, u64>,
    call: &str,
    is_shuffled: bool,
) -> Result<()> {
    let since = begin(rt, alloc)?;
    let made = changed(alloc, map, row.size, is_shuffled)?;
    print_row(rt, row, call, TIMES, since, made)
}

// The value of the last key, which is its number.
fn last(map: &Pages<u64, u64>, size: u64) -> u64 {
    match map.get(&size) {
        Some(value) => **value,
        None => 0,
    }
}

// A map of so many pairs, put at once.
fn with_all(alloc: Global, size: u64, is_shuffled: bool) -> Result<Pages<u64, u64>, Fault> {
    let changes = changes(alloc, size, size, is_shuffled)?;
    Ok(Pages::new(alloc)?.with_changes(alloc, changes)?)
}

// A map of so many pairs, put one after the other in shuffled order.
fn with_each(alloc: Global, size: u64) -> Result<Pages<u64, u64>, Fault> {
    let mut map = Pages::new(alloc)?;
    for turn in 0..size {
        let mut changes = Vec::new(alloc);
        changes.push(change(alloc, shuffled(turn, size))?)?;
        map = map.with_changes(alloc, changes)?;
    }
    Ok(map)
}

// The same map, of which each pair was put in place.
fn put_each(alloc: Global, size: u64) -> Result<Pages<u64, u64>, Fault> {
    let mut map = Pages::new(alloc)?;
    for turn in 0..size {
        let number = shuffled(turn, size);
        map.put(alloc, Arc::new(alloc, number)?, Arc::new(alloc, number)?)?;
    }
    Ok(map)
}

// How many times changes made a map.
fn changed(
    alloc: Global,
    map: &Pages<u64, u64>,
    size: u64,
    is_shuffled: bool,
) -> Result<u64, Fault> {
    let mut made: u64 = 0;
    for _ in 0..TIMES {
        let changes = changes(alloc, size, TOGETHER, is_shuffled)?;
        let _changed = map.with_changes(alloc, changes)?;
        made = made.saturating_add(1);
    }
    Ok(made)
}

// Changes of so many keys of a map, spread over it or shuffled.
fn changes(
    alloc: Global,
    size: u64,
    count: u64,
    is_shuffled: bool,
) -> Result<Vec<(Arc<u64>, Option<Arc<u64>>)>, Fault> {
    let mut changes = Vec::new(alloc);
    for turn in 0..count {
        let key = if is_shuffled {
            shuffled(turn, size)
        } else {
            spread(turn, count, size)
        };
        changes.push(change(alloc, key)?)?;
    }
    Ok(changes)
}

// The key of a turn of so many, where these are spread over all keys in their order.
fn spread(turn: u64, count: u64, size: u64) -> u64 {
    let far = u128::from(turn).wrapping_mul(u128::from(size));
    let place = far.checked_div(u128::from(count)).unwrap_or(0);
    u64::try_from(place).unwrap_or(0).wrapping_add(1)
}

// A key gets its own number.
fn change(alloc: Global, key: u64) -> Result<(Arc<u64>, Option<Arc<u64>>), Fault> {
    Ok((Arc::new(alloc, key)?, Some(Arc::new(alloc, key)?)))
}
