// What a base of nodes costs.
ghost use Rattle.std.specs.Prelude.{◌≡◌, IfOk};
ghost use Rattle.dg_values.specs.Ascending.{Ascends};
ghost use Rattle.dg_values.specs.Order.{posting_cmp};

use crate::bench::fault::Fault;
use crate::bench::plain::PlainBase;
use crate::bench::rows::{Row, begin, print_row};
use anyhow::Result;
use dg_base::Base;
use dg_sets::ascend;
use dg_values::Posting;
use std::alloc::Global;
use std::time::Clock;

// How many nodes are looked for.
const LOOKED: u64 = 100_000;

// How many times all nodes are read.
const READ: u64 = 10;

// Prints what a base of so many nodes that lie close together costs, beside a list of their numbers.
pub(crate) fn print_base(
    rt: &(impl Print + Clock),
    alloc: Global,
    size: u64,
    timed: bool,
) -> Result<()> {
    let row = Row { size, timed };
    let numbers = numbers(alloc, size)?;
    let postings = postings(alloc, numbers.as_slice())?;
    let since = begin(rt, alloc)?;
    let base = pack(alloc, postings.as_slice())?;
    print_row(rt, row, "nodes, pack", 1, since, base.len() as u64)?;
    let bytes = base.packed().len();
    println!(rt; "{size} nodes, packed: {bytes} bytes")?;
    let plain = PlainBase::of(postings);
    print_finds(rt, alloc, row, &base, &plain, numbers.as_slice())?;
    print_walks(rt, alloc, row, &base, &plain, numbers.as_slice())
}

// Prints what it costs to look for a node.
fn print_finds(
    rt: &(impl Print + Clock),
    alloc: Global,
    row: Row,
    base: &Base,
    plain: &PlainBase,
    numbers: &[u64],
) -> Result<()> {
    let drawn = drawn(alloc, numbers)?;
    let since = begin(rt, alloc)?;
    let found = find(base, drawn.as_slice());
    print_row(rt, row, "nodes, find", LOOKED, since, found)?;
    let since = begin(rt, alloc)?;
    let found = find_plain(plain, drawn.as_slice());
    print_row(rt, row, "plain nodes, find", LOOKED, since, found)?;
    let since = begin(rt, alloc)?;
    let found = search(numbers, drawn.as_slice());
    print_row(rt, row, "numbers, binary_search", LOOKED, since, found)
}

// Prints what it costs to read all nodes.
fn print_walks(
    rt: &(impl Print + Clock),
    alloc: Global,
    row: Row,
    base: &Base,
    plain: &PlainBase,
    numbers: &[u64],
) -> Result<()> {
    let since = begin(rt, alloc)?;
    let read = walk(alloc, base)?;
    print_row(rt, row, "nodes, walk of all", READ, since, read)?;
    let since = begin(rt, alloc)?;
    let read = walk_plain(alloc, plain)?;
    print_row(rt, row, "plain nodes, walk of all", READ, since, read)?;
    let since = begin(rt, alloc)?;
    let read = copy(alloc, numbers)?;
    print_row(rt, row, "numbers, copy of all", READ, since, read)?;
    let since = begin(rt, alloc)?;
    let read = turn(alloc, numbers)?;
    print_row(rt, row, "numbers, postings of all", READ, since, read)
}

fn pack(alloc: Global, postings: &[Posting]) -> Result<Base, Fault>
    requires { Ascends posting_cmp postings.now }
{
    Ok(Base::pack(alloc, postings)?)
}

// How many of the nodes are there.
fn find(base: &Base, drawn: &[u64]) -> u64 {
    drawn
        .iter()
        .filter(|number| base.find(&Posting::Uid(**number)))
        .count() as u64
}

// How many of the nodes are in a plain base.
fn find_plain(base: &PlainBase, drawn: &[u64]) -> u64 {
    drawn
        .iter()
        .filter(|number| base.find(&Posting::Uid(**number)))
        .count() as u64
}

// How many of the numbers are there.
fn search(numbers: &[u64], drawn: &[u64]) -> u64 {
    drawn
        .iter()
        .filter(|number| numbers.binary_search(number).is_ok())
        .count() as u64
}

// How many postings were read, all of them several times.
fn walk(alloc: Global, base: &Base) -> Result<u64, Fault> {
    let mut read: u64 = 0;
    for _ in 0..READ {
        let items = base.walk(alloc, 0, base.len())?;
        read = read.saturating_add(items.len() as u64);
    }
    Ok(read)
}

// How many postings of a plain base were read, all of them several times.
fn walk_plain(alloc: Global, base: &PlainBase) -> Result<u64, Fault> {
    let mut read: u64 = 0;
    for _ in 0..READ {
        let items = base.walk(alloc)?;
        read = read.saturating_add(items.len() as u64);
    }
    Ok(read)
}

// How many numbers were copied, all of them several times.
fn copy(alloc: Global, numbers: &[u64]) -> Result<u64, Fault> {
    let mut read: u64 = 0;
    for _ in 0..READ {
        let items = numbers.to_vec(alloc)?;
        read = read.saturating_add(items.len() as u64);
    }
    Ok(read)
}

// How many postings were made, of all numbers several times.
fn turn(alloc: Global, numbers: &[u64]) -> Result<u64, Fault> {
    let mut read: u64 = 0;
    for _ in 0..READ {
        let mut items = Vec::with_capacity(alloc, numbers.len())?;
        for number in numbers {
            items.push(Posting::Uid(*number))?;
        }
        read = read.saturating_add(items.len() as u64);
    }
    Ok(read)
}

// Numbers of which each lies at most 200 above the one before, as if drawn at random.
fn numbers(alloc: Global, size: u64) -> Result<Vec<u64>, Fault> {
    let mut numbers = Vec::new(alloc);
    let mut last: u64 = 1_000_000;
    for at in 0..size {
        let drawn = at.wrapping_mul(0x9e37_79b9_7f4a_7c15) >> 30;
        last = last.saturating_add(drawn % 200 + 1);
        numbers.push(last)?;
    }
    Ok(numbers)
}

// Numbers of the list and between them, as if drawn at random.
fn drawn(alloc: Global, numbers: &[u64]) -> Result<Vec<u64>, Fault> {
    let least = numbers.first().copied().unwrap_or(0);
    let most = numbers.last().copied().unwrap_or(0);
    let mut drawn = Vec::new(alloc);
    for at in 0..LOOKED {
        let number = at.wrapping_mul(0x9e37_79b9_7f4a_7c15) >> 20;
        drawn.push(least.wrapping_add(number % most.saturating_sub(least).max(1)))?;
    }
    Ok(drawn)
}

// Postings of numbers, which have to ascend.
fn postings(alloc: Global, numbers: &[u64]) -> Result<Vec<Posting>, Fault>
    ensures { IfOk result (λ postings. Ascends posting_cmp postings.items) }
{
    let mut postings = Vec::new(alloc);
    for number in numbers {
        postings.push(Posting::Uid(*number))?;
    }
    if !ascend(postings.as_slice()) {
        return Err(Fault::Unordered);
    }
    Ok(postings)
}
