// The table of posting lists.
use crate::fault::{Answer, Fault};
use crate::kept_list::KeptList;
use crate::postings::{layer, posting, postings_text};
use crate::versions::{add, at};
use crate::words::{first, number, only_number, truth};
use dg_delta::{Layer, Op};
use dg_values::Posting;
use std::alloc::Global;

pub(crate) fn answer(
    alloc: Global,
    lists: &mut Vec<KeptList>,
    version: Option<u64>,
    command: &str,
    words: &[&str],
) -> Answer<String> {
    if command == "new" {
        lists.clear();
        return add(alloc, lists, KeptList::empty(alloc)?);
    }
    let list = at(lists.as_slice(), version)?;
    match made(alloc, list, command, words)? {
        Some(made) => add(alloc, lists, made),
        None => asked(alloc, list, command, words),
    }
}

// The list after a command that makes one.
fn made(alloc: Global, list: &KeptList, command: &str, words: &[&str]) -> Answer<Option<KeptList>> {
    match command {
        "share" => Ok(Some(list.share()?)),
        "layer" => {
            let (ts, ops) = first(words)?;
            let layer = layer(alloc, number(ts)?, ops)?;
            Ok(Some(list.with_layer(alloc, layer)?))
        }
        "base" => Ok(Some(list.with_base(alloc, only_number(words)?)?)),
        "grow" => Ok(Some(grown(alloc, list, only_number(words)?)?)),
        _ => Ok(None),
    }
}

// The list with so many layers more, each of which puts in the node of its timestamp.
fn grown(alloc: Global, list: &KeptList, count: u64) -> Answer<KeptList> {
    let mut list = list.share()?;
    for _ in 0..count {
        let ts = list.newest().saturating_add(1);
        let mut ops = Vec::new(alloc);
        ops.push(Op::Set(Posting::Uid(ts)))?;
        let layer = Layer::new(ts, ops).ok_or(Fault::Unfit)?;
        list = list.with_layer(alloc, layer)?;
    }
    Ok(list)
}

fn asked(alloc: Global, list: &KeptList, command: &str, words: &[&str]) -> Answer<String> {
    match (command, words) {
        ("read", [ts]) => read(alloc, list, number(ts)?),
        ("merged", [ts]) => merged(alloc, list, number(ts)?),
        ("has", [ts, item]) => has(alloc, list, number(ts)?, item),
        ("layered", [ts]) => Ok(truth(alloc, list.layered(number(ts)?))?),
        _ => Err(Fault::Unfit),
    }
}

fn read(alloc: Global, list: &KeptList, ts: u64) -> Answer<String> {
    let items = list.read(alloc, ts)?;
    Ok(postings_text(alloc, items.as_slice())?)
}

fn merged(alloc: Global, list: &KeptList, ts: u64) -> Answer<String> {
    let base = list.merged(alloc, ts)?;
    let items = base.walk(alloc, 0, base.len())?;
    Ok(postings_text(alloc, items.as_slice())?)
}

fn has(alloc: Global, list: &KeptList, ts: u64, item: &str) -> Answer<String> {
    let item = posting(alloc, item)?;
    Ok(truth(alloc, list.has(ts, &item)?)?)
}
