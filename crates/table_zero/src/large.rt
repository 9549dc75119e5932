// Calls at a large size, on what a row names in few words.
use crate::counted;
use crate::edges::{checked, fault_text};
use crate::fault::{Answer, Fault};
use crate::ground::{Ground, schema_of};
use crate::lawful::lawful_at;
use crate::words::{halved, number, text};
use dg_edges::Resolved;
use dg_graph::{Change, Triple};
use dg_keys::Part;
use dg_values::{Mem, OutOfMemory, Posting, Str, Value};
use std::alloc::Global;
use std::fmt::Write;

// The most numbers, triples or statements that a row names.
const MOST: u64 = 20_000;

// The most new names.
const MOST_NAMES: usize = 50_000;

// How many nodes are pointed to.
const POINTED: u64 = 100;

fn size(word: &str) -> Answer<u64> {
    let size = number(word)?;
    if size > MOST {
        return Err(Fault::Unfit);
    }
    Ok(size)
}

// The numbers below a size, with a blank behind each.
fn numbers(alloc: Global, size: u64) -> Answer<Str> {
    let mut text = String::new(alloc);
    for n in 0..size {
        write!(text, "{n} ")?;
    }
    Ok(Str::from_string(text))
}

// How many operations parts have.
fn count_ops(parts: &[Part]) -> usize {
    let mut count: usize = 0;
    for part in parts {
        count = count.saturating_add(part.ops.as_slice().len());
    }
    count
}

// What an offer has, by which node 1 gets the numbers below a size as its value.
pub(crate) fn offered(alloc: Global, ground: &Ground, rest: &str) -> Answer<String> {
    let (pred, count) = halved(rest);
    let value = numbers(alloc, size(count)?)?;
    let letters = value.as_str().len();
    let o = Posting::Val(Value::Text(value));
    let p = text(alloc, pred)?;
    let changes = [Change::Set(Triple { s: 1, p, o })];
    let at = lawful_at(alloc, ground, &changes)?;
    let offer = counted::offer(alloc, &at, 7, &changes)?;
    let keys = offer.keys.as_slice().len();
    let parts = parts_sums(alloc, offer.parts.as_slice())?;
    Ok(format!(in alloc; "{letters} letters, {keys} keys, {parts}")?)
}

fn parts_sums(alloc: Global, parts: &[Part]) -> Mem<String> {
    let count = parts.len();
    let ops = count_ops(parts);
    Ok(format!(in alloc; "{count} parts, {ops} operations")?)
}

// Lets each node below a size point to one of the hundred nodes from 0 on.
pub(crate) fn pointed(alloc: Global, ground: &mut Ground, rest: &str) -> Answer<String> {
    let (pred, count) = halved(rest);
    for s in 0..size(count)? {
        let p = text(alloc, pred)?;
        let o = Posting::Uid(s % POINTED);
        ground.apply_one(Change::Set(Triple { s, p, o }))?;
    }
    let count = ground.at.graph.triples().len();
    Ok(format!(in alloc; "{count} triples")?)
}

// How many new names and changes many statements have, each of a new node that points to the next, and a last one.
pub(crate) fn stated(alloc: Global, ground: &Ground, rest: &str) -> Answer<String> {
    let (pred, rest) = halved(rest);
    let (count, tail) = halved(rest);
    let text = statements(alloc, pred, size(count)?, tail)?;
    match checked(alloc, &ground.at.schema, text.as_str())? {
        Err(fault) => fault_text(alloc, &fault),
        Ok(r) => stated_sums(alloc, ground, &r),
    }
}

fn statements(alloc: Global, pred: &str, size: u64, tail: &str) -> Answer<String> {
    let mut text = String::new(alloc);
    for n in 0..size {
        let next = n.saturating_add(1);
        write!(text, "_:n{n} {pred} _:n{next} . ")?;
    }
    write!(text, "{tail}")?;
    Ok(text)
}

fn stated_sums(alloc: Global, ground: &Ground, r: &Resolved) -> Answer<String> {
    let names = r.new_names(alloc)?.len();
    if names > MOST_NAMES {
        return Err(Fault::Unfit);
    }
    let changes = counted::expanded(alloc, &ground.at, r, 1)?.len();
    Ok(format!(in alloc; "{names} names, {changes} changes")?)
}

// What the parts of an alter have.
pub(crate) fn altered(alloc: Global, ground: &Ground, rest: &str) -> Answer<String> {
    let newer = schema_of(alloc, rest)?;
    let at = lawful_at(alloc, ground, &[])?;
    let parts = counted::alter_parts(alloc, &at, &newer)?;
    Ok(parts_sums(alloc, parts.as_slice())?)
}
