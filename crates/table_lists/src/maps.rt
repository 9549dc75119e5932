// The table of ordered maps from numbers to numbers.
use crate::fault::{Answer, Fault};
use crate::pages::{made, page_text, run_text, walked, walked_above};
use crate::versions::{add, at};
use crate::words::{number, only_number};
use dg_pages::Pages;
use std::alloc::Global;
use std::sync::Arc;

pub(crate) fn answer(
    alloc: Global,
    maps: &mut Vec<Pages<u64, u64>>,
    version: Option<u64>,
    command: &str,
    words: &[&str],
) -> Answer<String> {
    if command == "new" {
        maps.clear();
        return add(alloc, maps, Pages::new(alloc)?);
    }
    let map = at(maps.as_slice(), version)?;
    match command {
        "share" => {
            let shared = map.share()?;
            add(alloc, maps, shared)
        }
        "change" => {
            let changed = map.with_changes(alloc, changes(alloc, words)?)?;
            add(alloc, maps, changed)
        }
        "get" => found(alloc, map, only_number(words)?),
        "from" => next(alloc, map, only_number(words)?),
        "above" => above(alloc, map, only_number(words)?),
        "run" => run_text(alloc, map, only_number(words)?),
        "runs" => walked_above(alloc, map, only_number(words)?),
        "page" => page_text(alloc, map, only_number(words)?),
        "walk" => walked(alloc, map),
        _ => {
            let changed = made(alloc, map, command, words)?;
            add(alloc, maps, changed)
        }
    }
}

fn changes(alloc: Global, words: &[&str]) -> Answer<Vec<(Arc<u64>, Option<Arc<u64>>)>> {
    let mut changes = Vec::new(alloc);
    for word in words {
        changes.push(change(alloc, word)?)?;
    }
    Ok(changes)
}

// A key, `=`, and the value that it gets, or `none` where it is taken out.
fn change(alloc: Global, word: &str) -> Answer<(Arc<u64>, Option<Arc<u64>>)> {
    let Some((key, value)) = word.split_once('=') else {
        return Err(Fault::Unfit);
    };
    let key = Arc::new(alloc, number(key)?)?;
    match value {
        "none" => Ok((key, None)),
        _ => Ok((key, Some(Arc::new(alloc, number(value)?)?))),
    }
}

// The value at a key.
fn found(alloc: Global, map: &Pages<u64, u64>, key: u64) -> Answer<String> {
    match map.get(&key) {
        Some(value) => Ok(value.to_string(alloc)?),
        None => Ok(String::from_str(alloc, "none")?),
    }
}

// The least key at or above one, and its value.
fn next(alloc: Global, map: &Pages<u64, u64>, from: u64) -> Answer<String> {
    pair_text(alloc, map.next_from(&from))
}

// The least key above one, and its value.
fn above(alloc: Global, map: &Pages<u64, u64>, key: u64) -> Answer<String> {
    pair_text(alloc, map.next_above(&key))
}

fn pair_text(alloc: Global, pair: Option<(&Arc<u64>, &Arc<u64>)>) -> Answer<String> {
    match pair {
        Some((key, value)) => Ok(format!(in alloc; "{}={}", **key, **value)?),
        None => Ok(String::from_str(alloc, "none")?),
    }
}
