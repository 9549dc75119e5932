// What a store costs.
ghost use Rattle.std.specs.Prelude.{◌≡◌, ◌<◌, ◌+◌, ◌↔◌, IfOk, IsTrue};
ghost use Rattle.std.specs.List.{AllByRecursion};
ghost use Rattle.dg_values.specs.Ascending.{Ascends};
ghost use Rattle.dg_delta.specs.Ops.{op_cmp};
ghost use Rattle.dg_keys.specs.Keys.{part_cmp};
ghost use Rattle.dg_list.specs.Lists.{newest_ts};

use crate::bench::beside::plain_puts;
use crate::bench::fault::Fault;
use crate::bench::plain::PlainMap;
use crate::bench::rows::{Row, begin, print_row};
use crate::bench::shuffle::{drawn, shuffled};
use anyhow::Result;
use dg_delta::Op;
use dg_keys::{Key, Part, Record};
use dg_sets::InOrder;
use dg_store::Store;
use dg_values::{List, Posting, Str};
use std::alloc::Global;
use std::sync::Arc;
use std::time::Clock;

// The predicate of all keys.
const PRED: &str = "knows";

// How many keys are looked up.
const LOOKED: u64 = 10_000;

// How many times a key is changed.
const CHANGED: u64 = 100;

// Prints what a key costs to look up in a store of so many, and a record that changes one.
pub(crate) fn print_store(
    rt: &(impl Print + Clock),
    alloc: Global,
    size: u64,
    timed: bool,
) -> Result<()> {
    let row = Row { size, timed };
    let held = held(alloc)?;
    let store = print_made(rt, alloc, row, held.as_slice())?;
    print_looks(rt, alloc, row, &store, held.as_slice())
}

// Prints what the record costs that makes a store, and answers that.
fn print_made(rt: &(impl Print + Clock), alloc: Global, row: Row, held: &[Str]) -> Result<Store>
    ensures { IfOk result (λ store. AllByRecursion (λ e. newest_ts e.1 < 1 + 1) store) }
{
    let rec = record(alloc, 1, 1, row.size)?;
    let since = begin(rt, alloc)?;
    let store = filled(alloc, &rec, held)?;
    let call = "keys, the record that made them";
    print_row(rt, row, call, 1, since, row.size)?;
    Ok(store)
}

// Prints what keys cost to look up, then what a record costs that changes one, and both in a plain map.
fn print_looks(
    rt: &(impl Print + Clock),
    alloc: Global,
    row: Row,
    store: &Store,
    held: &[Str],
) -> Result<()>
    requires { AllByRecursion (λ e. newest_ts e.1 < 1 + 1) store.now }
{
    let keys = keys(alloc, row.size)?;
    // All keys are gone over once before the time begins, and in a plain map too: so it doesn't matter which was made last.
    let _warm = look(store, keys.as_slice());
    let since = begin(rt, alloc)?;
    let found = look(store, keys.as_slice());
    print_row(rt, row, "keys, get", LOOKED, since, found)?;
    print_changed(rt, alloc, row, store, held)?;
    print_plain(rt, alloc, row, keys.as_slice())
}

// Prints what a record costs that changes one key.
fn print_changed(
    rt: &(impl Print + Clock),
    alloc: Global,
    row: Row,
    store: &Store,
    held: &[Str],
) -> Result<()>
    requires { AllByRecursion (λ e. newest_ts e.1 < 1 + 1) store.now }
{
    let middle = row.size / 2;
    let rec = record(alloc, 2, middle, middle)?;
    let since = begin(rt, alloc)?;
    let found = change(alloc, store, &rec, held)?;
    print_row(rt, row, "keys, with_record of one", CHANGED, since, found)
}

// Prints what the same keys cost in a plain map, where no record is read and no list is made.
fn print_plain(rt: &(impl Print + Clock), alloc: Global, row: Row, keys: &[Key]) -> Result<()> {
    let map = plain(alloc, row.size)?;
    let _warm = look_plain(&map, keys);
    let since = begin(rt, alloc)?;
    let found = look_plain(&map, keys);
    print_row(rt, row, "plain keys, get", LOOKED, since, found)?;
    let puts = plain_puts(row.size);
    let since = begin(rt, alloc)?;
    let made = put_plain(alloc, &map, row.size / 2, puts)?;
    print_row(rt, row, "plain keys, one put", puts, since, made)
}

// Prints what `with_record` of one key costs while a store grows to so many keys, which come in shuffled order.
pub(crate) fn print_filled(
    rt: &(impl Print + Clock),
    alloc: Global,
    size: u64,
    timed: bool,
) -> Result<()> {
    let row = Row { size, timed };
    let held = held(alloc)?;
    let since = begin(rt, alloc)?;
    let store = grown(alloc, size, held.as_slice())?;
    let last = key(alloc, size)?;
    let found = u64::from(store.get(&last).is_some());
    print_row(
        rt,
        row,
        "keys, each by with_record of one, shuffled",
        size,
        since,
        found,
    )
}

// A store of so many keys, each put by a record of its own, in shuffled order.
fn grown(alloc: Global, size: u64, held: &[Str]) -> Result<Store, Fault> {
    let mut store = Store::new(alloc)?;
    for turn in 0..size {
        let subject = shuffled(turn, size);
        let rec = record(alloc, turn + 1, subject, subject)?;
        store = put(alloc, &store, &rec, held)?;
    }
    Ok(store)
}

// How many of the keys have a list.
fn look(store: &Store, keys: &[Key]) -> u64 {
    keys.iter().filter(|key| store.get(key).is_some()).count() as u64
}

// How many of the keys are in a plain map.
fn look_plain(map: &PlainMap<Key, u64>, keys: &[Key]) -> u64 {
    keys.iter().filter(|key| map.get(key).is_some()).count() as u64
}

// A plain map of so many keys.
fn plain(alloc: Global, size: u64) -> Result<PlainMap<Key, u64>, Fault> {
    let mut pairs = Vec::new(alloc);
    for before in 0..size {
        let subject = before + 1;
        pairs.push((
            Arc::new(alloc, key(alloc, subject)?)?,
            Arc::new(alloc, subject)?,
        ))?;
    }
    Ok(PlainMap::of(pairs))
}

// How many times a subject's key, put into a plain map, made one.
fn put_plain(
    alloc: Global,
    map: &PlainMap<Key, u64>,
    subject: u64,
    puts: u64,
) -> Result<u64, Fault> {
    let mut made: u64 = 0;
    for _ in 0..puts {
        let key = Arc::new(alloc, key(alloc, subject)?)?;
        let _changed = map.with(alloc, key, Arc::new(alloc, subject)?)?;
        made = made.saturating_add(1);
    }
    Ok(made)
}

// How many times the record gave a store in which its first key has a list.
fn change(alloc: Global, store: &Store, rec: &Record, held: &[Str]) -> Result<u64, Fault>
    requires parts { Ascends part_cmp rec.now.parts }
    requires each { AllByRecursion (λ part. Ascends op_cmp part.ops) rec.now.parts }
    requires after { 0 < rec.now.ts }
    requires newer { AllByRecursion (λ e. newest_ts e.1 < rec.now.ts) store.now }
{
    let mut made: u64 = 0;
    for _ in 0..CHANGED {
        let _changed = put(alloc, store, rec, held)?;
        made = made.saturating_add(1);
    }
    Ok(made)
}

// The names of the predicates that are held.
fn held(alloc: Global) -> Result<Vec<Str>, Fault> {
    let mut held = Vec::new(alloc);
    held.push(Str::from_str(alloc, PRED)?)?;
    Ok(held)
}

// A store of one record.
fn filled(alloc: Global, rec: &Record, held: &[Str]) -> Result<Store, Fault>
    requires parts { Ascends part_cmp rec.now.parts }
    requires each { AllByRecursion (λ part. Ascends op_cmp part.ops) rec.now.parts }
    requires after { 0 < rec.now.ts }
    ensures { IfOk result (λ store. AllByRecursion (λ e. newest_ts e.1 < 1 + rec.now.ts) store) }
{
    put(alloc, &Store::new(alloc)?, rec, held)
}

// The store after one more record.
fn put(alloc: Global, store: &Store, rec: &Record, held: &[Str]) -> Result<Store, Fault>
    requires parts { Ascends part_cmp rec.now.parts }
    requires each { AllByRecursion (λ part. Ascends op_cmp part.ops) rec.now.parts }
    requires after { 0 < rec.now.ts }
    requires newer { AllByRecursion (λ e. newest_ts e.1 < rec.now.ts) store.now }
    ensures { IfOk result (λ store. AllByRecursion (λ e. newest_ts e.1 < 1 + rec.now.ts) store) }
{
    Ok(store.with_record(alloc, rec, held)?)
}

// Keys of a store of so many, as if drawn at random.
fn keys(alloc: Global, size: u64) -> Result<Vec<Key>, Fault> {
    let mut keys = Vec::new(alloc);
    for number in 0..LOOKED {
        keys.push(key(alloc, drawn(number, size))?)?;
    }
    Ok(keys)
}

// A record that puts one object to each subject of a range.
fn record(alloc: Global, ts: u64, first: u64, last: u64) -> Result<Record, Fault>
    ensures ts { IfOk result (λ rec. rec.ts ≡ ts) }
    ensures parts { IfOk result (λ rec. Ascends part_cmp rec.parts) }
    ensures each { IfOk result (λ rec. AllByRecursion (λ part. Ascends op_cmp part.ops) rec.parts) }
{
    let parts = parts(alloc, first, last)?;
    if !ascend(parts.as_slice()) {
        return Err(Fault::Unordered);
    }
    Ok(Record {
        ts,
        fresh: List::new(alloc),
        parts,
    })
}

// A part for each subject of a range.
fn parts(alloc: Global, first: u64, last: u64) -> Result<List<Part>, Fault>
    ensures { IfOk result (λ parts. AllByRecursion (λ part. Ascends op_cmp part.ops) parts) }
{
    let mut parts = List::new(alloc);
    for subject in first..=last {
        parts.push(part(alloc, subject)?)?;
    }
    Ok(parts)
}

// A part that puts one object to a subject.
fn part(alloc: Global, subject: u64) -> Result<Part, Fault>
    ensures { IfOk result (λ part. Ascends op_cmp part.ops) }
{
    let mut ops = List::new(alloc);
    ops.push(Op::Set(Posting::Uid(subject)))?;
    let key = key(alloc, subject)?;
    Ok(Part { key, ops })
}

fn key(alloc: Global, subject: u64) -> Result<Key, Fault> {
    let p = Str::from_str(alloc, PRED)?;
    Ok(Key::Data { p, s: subject })
}

// Whether each part's key is below the next.
fn ascend(parts: &[Part]) -> bool
    ensures { IsTrue result ↔ Ascends part_cmp parts.now }
{
    parts.is_sorted_by(|a, b| a.key.compare(&b.key).is_lt())
}
