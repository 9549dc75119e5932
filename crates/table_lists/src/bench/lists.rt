// What a posting list costs.
ghost use Rattle.std.specs.Prelude.{◌≡◌, ◌≤◌, ◌<◌, ◌+◌, IfOk};
ghost use Rattle.std.specs.Arc.{arc_value};
ghost use Rattle.dg_list.specs.Lists.{newest_ts, reading};

use crate::bench::fault::Fault;
use crate::bench::plain::PlainBase;
use crate::bench::rows::{Row, begin, print_row};
use anyhow::Result;
use dg_base::Base;
use dg_delta::{Layer, Op};
use dg_list::PList;
use dg_values::{Posting, Steps};
use std::alloc::Global;
use std::marker::Brand;
use std::sync::Arc;
use std::sync::ledger::{Blank, Ledger};
use std::time::Clock;

// How many layers are put on top, and how many nodes are looked for.
const CALLS: u64 = 1_000;

// What each layer of a list does.
#[derive(Clone, Copy)]
enum Growth {
    // Puts in a node.
    Adding,
    // Puts in a node in the place of the one before.
    Replacing,
}

// Prints what a list with so many layers of one node each costs.
pub(crate) fn print_list(
    rt: &(impl Print + Clock),
    alloc: Global,
    size: u64,
    timed: bool,
) -> Result<()> {
    let row = Row { size, timed };
    let since = begin(rt, alloc)?;
    let list = grown(alloc, size, Growth::Adding)?;
    print_row(
        rt,
        row,
        "layers, each with_layer and its layer",
        size,
        since,
        size,
    )?;
    print_pushes(rt, alloc, row, &list)?;
    print_reads::<Brand>(rt, alloc, row, &list, Blank::new(1))
}

// Prints what a list costs of which each of so many layers takes the place of all below.
pub(crate) fn print_replaced(
    rt: &(impl Print + Clock),
    alloc: Global,
    size: u64,
    timed: bool,
) -> Result<()> {
    let row = Row { size, timed };
    let since = begin(rt, alloc)?;
    let list = grown(alloc, size, Growth::Replacing)?;
    print_row(
        rt,
        row,
        "replaced, each with_layer and its layer",
        size,
        since,
        size,
    )?;
    print_newest::<Brand>(rt, alloc, row, &list, Blank::new(1))
}

// Prints what it costs to read what such a list is now.
fn print_newest<L: Ledger>(
    rt: &(impl Print + Clock),
    alloc: Global,
    row: Row,
    list: &PList,
    blank: Blank,
) -> Result<()>
    requires name { blank.name ≡ L.name }
    requires parts { blank.parts ≡ L.parts }
    requires some { 0 < blank.parts }
    requires base { list.now.base_ts ≡ 0 }
{
    let mut reads: Steps<L> = Steps::new(blank);
    let since = begin(rt, alloc)?;
    let found = look(list, row.size, 0, CALLS, &mut reads);
    print_row(rt, row, "replaced, has_at of no node", CALLS, since, found)?;
    let since = begin(rt, alloc)?;
    let found = read(alloc, list, row.size, CALLS, &mut reads)?;
    print_row(
        rt,
        row,
        "replaced, read_at of the newest",
        CALLS,
        since,
        found,
    )
}

// Prints what a layer costs that is put on top.
fn print_pushes(rt: &(impl Print + Clock), alloc: Global, row: Row, list: &PList) -> Result<()>
    requires { newest_ts list.now ≤ row.size }
{
    let Some(next) = row.size.checked_add(1) else {
        return Err(Fault::Unordered.into());
    };
    let top = layer(alloc, next, Growth::Adding)?;
    let since = begin(rt, alloc)?;
    let made = push(alloc, list, &top)?;
    print_row(rt, row, "layers, with_layer", CALLS, since, made)
}

// How many times the layer was put on the list.
fn push(alloc: Global, list: &PList, top: &Arc<Layer>) -> Result<u64, Fault>
    requires { newest_ts list.now < (arc_value top.now).ts }
{
    let mut made: u64 = 0;
    for _ in 0..CALLS {
        let _pushed = list.with_layer(alloc, Arc::try_clone(top)?)?;
        made = made.saturating_add(1);
    }
    Ok(made)
}

// Prints what reading the list costs.
fn print_reads<L: Ledger>(
    rt: &(impl Print + Clock),
    alloc: Global,
    row: Row,
    list: &PList,
    blank: Blank,
) -> Result<()>
    requires name { blank.name ≡ L.name }
    requires parts { blank.parts ≡ L.parts }
    requires some { 0 < blank.parts }
    requires base { list.now.base_ts ≡ 0 }
{
    let mut reads: Steps<L> = Steps::new(blank);
    let newest = row.size;
    let calls = calls_over(newest);
    let since = begin(rt, alloc)?;
    let found = look(list, newest, newest, CALLS, &mut reads);
    print_row(
        rt,
        row,
        "layers, has_at of the newest node",
        CALLS,
        since,
        found,
    )?;
    let since = begin(rt, alloc)?;
    let found = look(list, newest, 0, calls, &mut reads);
    print_row(rt, row, "layers, has_at of no node", calls, since, found)?;
    let since = begin(rt, alloc)?;
    let found = read(alloc, list, 2, calls, &mut reads)?;
    print_row(
        rt,
        row,
        "layers, read_at of the second",
        calls,
        since,
        found,
    )?;
    print_merge(rt, alloc, row, list, &mut reads)
}

// How many calls are made that go over so many layers.
fn calls_over(layers: u64) -> u64 {
    (1_000_000 / layers.max(1)).max(10).min(CALLS)
}

// Prints what it costs to read the whole list, to merge it into a base, and to read that.
fn print_merge<L: Ledger>(
    rt: &(impl Print + Clock),
    alloc: Global,
    row: Row,
    list: &PList,
    reads: &mut Steps<L>,
) -> Result<()>
    requires { list.now.base_ts ≡ 0 }
{
    let call = "layers, read_at of the newest";
    print_read(rt, alloc, row, call, list, reads)?;
    let base = print_merged(rt, alloc, row, list, reads)?;
    let rolled = roll(alloc, list, base, row.size)?;
    print_read(rt, alloc, row, "in a base, read_at", &rolled, reads)?;
    print_plain(rt, alloc, row, list, reads)?;
    print_found(rt, alloc, row, &rolled, reads)?;
    print_roll(rt, alloc, row, list, reads)
}

// Prints what it costs to read the newest of a list.
fn print_read<L: Ledger>(
    rt: &(impl Print + Clock),
    alloc: Global,
    row: Row,
    call: &str,
    list: &PList,
    reads: &mut Steps<L>,
) -> Result<()>
    requires { list.now.base_ts ≤ row.size }
{
    let calls = calls_over(row.size);
    let since = begin(rt, alloc)?;
    let found = read(alloc, list, row.size, calls, reads)?;
    print_row(rt, row, call, calls, since, found)
}

// Prints what it costs to merge a list into a base, and answers that.
fn print_merged<L: Ledger>(
    rt: &(impl Print + Clock),
    alloc: Global,
    row: Row,
    list: &PList,
    reads: &mut Steps<L>,
) -> Result<Arc<Base>>
    requires { list.now.base_ts ≡ 0 }
    ensures { IfOk result (λ base. arc_value base ≡ reading list.now row.size) }
{
    let since = begin(rt, alloc)?;
    let base = merge(alloc, list, row.size, reads)?;
    print_row(rt, row, "layers, merged", 1, since, base.len() as u64)?;
    Ok(base)
}

// Prints what it costs to read the same of a plain base.
fn print_plain<L: Ledger>(
    rt: &(impl Print + Clock),
    alloc: Global,
    row: Row,
    list: &PList,
    reads: &mut Steps<L>,
) -> Result<()>
    requires { list.now.base_ts ≡ 0 }
{
    let calls = calls_over(row.size);
    let plain = plain(alloc, list, row.size, reads)?;
    let since = begin(rt, alloc)?;
    let found = read_plain(alloc, &plain, calls)?;
    print_row(rt, row, "in a plain base, read_at", calls, since, found)
}

// Prints what it costs to find the newest node in a base.
fn print_found<L: Ledger>(
    rt: &(impl Print + Clock),
    alloc: Global,
    row: Row,
    rolled: &PList,
    reads: &mut Steps<L>,
) -> Result<()>
    requires { rolled.now.base_ts ≤ row.size }
{
    let since = begin(rt, alloc)?;
    let found = look(rolled, row.size, row.size, CALLS, reads);
    print_row(rt, row, "in a base, has_at", CALLS, since, found)
}

// Prints what it costs to put a base under the newer half of the layers.
fn print_roll<L: Ledger>(
    rt: &(impl Print + Clock),
    alloc: Global,
    row: Row,
    list: &PList,
    reads: &mut Steps<L>,
) -> Result<()>
    requires { list.now.base_ts ≡ 0 }
{
    let half = row.size / 2;
    let base = merge(alloc, list, half, reads)?;
    let since = begin(rt, alloc)?;
    let rolled = roll(alloc, list, base, half)?;
    let found = look(&rolled, half, half, 1, reads);
    print_row(
        rt,
        row,
        "layers, with_base under half of them",
        1,
        since,
        found,
    )
}

// A base that is the list at a timestamp.
fn merge<L: Ledger>(
    alloc: Global,
    list: &PList,
    upto: u64,
    reads: &mut Steps<L>,
) -> Result<Arc<Base>, Fault>
    requires { list.now.base_ts ≤ upto }
    ensures { IfOk result (λ base. arc_value base ≡ reading list.now upto) }
{
    Ok(Arc::new(alloc, list.merged(alloc, upto, reads)?)?)
}

// The list over its base of what is at or below a timestamp.
fn roll(alloc: Global, list: &PList, base: Arc<Base>, upto: u64) -> Result<PList, Fault>
    requires from { list.now.base_ts ≤ upto }
    requires base { arc_value base ≡ reading list.now upto }
    ensures { IfOk result (λ list. list.base_ts ≡ upto) }
{
    Ok(list.with_base(alloc, base, upto)?)
}

// A plain base that is the list at a timestamp.
fn plain<L: Ledger>(
    alloc: Global,
    list: &PList,
    ts: u64,
    reads: &mut Steps<L>,
) -> Result<PlainBase, Fault>
    requires { list.now.base_ts ≤ ts }
{
    Ok(PlainBase::of(list.read_at(alloc, ts, reads)?))
}

// How many postings of a plain base were read.
fn read_plain(alloc: Global, base: &PlainBase, calls: u64) -> Result<u64, Fault> {
    let mut read: u64 = 0;
    for _ in 0..calls {
        let items = base.walk(alloc)?;
        read = read.saturating_add(items.len() as u64);
    }
    Ok(read)
}

// How many postings were read.
fn read<L: Ledger>(
    alloc: Global,
    list: &PList,
    ts: u64,
    calls: u64,
    reads: &mut Steps<L>,
) -> Result<u64, Fault>
    requires { list.now.base_ts ≤ ts }
{
    let mut read: u64 = 0;
    for _ in 0..calls {
        let items = list.read_at(alloc, ts, reads)?;
        read = read.saturating_add(items.len() as u64);
    }
    Ok(read)
}

// How many times a node was found.
fn look<L: Ledger>(list: &PList, ts: u64, node: u64, calls: u64, reads: &mut Steps<L>) -> u64
    requires { list.now.base_ts ≤ ts }
{
    let item = Posting::Uid(node);
    let mut found: u64 = 0;
    for _ in 0..calls {
        if list.has_at(ts, &item, reads) {
            found = found.saturating_add(1);
        }
    }
    found
}

// A list with a layer for each timestamp up to this one.
fn grown(alloc: Global, newest: u64, growth: Growth) -> Result<PList, Fault>
    ensures newest { IfOk result (λ list. newest_ts list ≤ newest) }
    ensures base { IfOk result (λ list. list.base_ts ≡ 0) }
{
    let mut list = PList::empty(alloc)?;
    for before in 0..newest {
        list = list.with_layer(alloc, layer(alloc, before + 1, growth)?)?;
    }
    Ok(list)
}

// A layer that puts in the node with the number of its timestamp.
fn layer(alloc: Global, ts: u64, growth: Growth) -> Result<Arc<Layer>, Fault>
    ensures { IfOk result (λ layer. (arc_value layer).ts ≡ ts) }
{
    let mut ops = Vec::new(alloc);
    if let Growth::Replacing = growth {
        ops.push(Op::Del(Posting::Uid(ts.saturating_sub(1))))?;
    }
    ops.push(Op::Set(Posting::Uid(ts)))?;
    let Some(layer) = Layer::new(ts, ops) else {
        return Err(Fault::Unordered);
    };
    Ok(Arc::new(alloc, layer)?)
}
