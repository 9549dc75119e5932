// The table of stores of posting lists.
ghost use Rattle.std.specs.Prelude.{◌↔◌, IfOk, IsTrue};
ghost use Rattle.std.specs.List.{AllByRecursion};
ghost use Rattle.dg_values.specs.Ascending.{Ascends};
ghost use Rattle.dg_delta.specs.Ops.{op_cmp};
ghost use Rattle.dg_keys.specs.Keys.{part_cmp};

use crate::fault::{Answer, Fault};
use crate::kept_store::KeptStore;
use crate::keys::{key, key_text};
use crate::postings::{layer, posting, postings_text};
use crate::versions::{add, at};
use crate::words::{any, halves, number, only_number, text, truth};
use dg_delta::merge_ops;
use dg_keys::{Part, Record};
use dg_sets::InOrder;
use dg_store::parts_of;
use dg_values::{List, Mem, OutOfMemory, Str};
use std::alloc::Global;
use std::sync::Arc;

pub(crate) fn answer(
    alloc: Global,
    stores: &mut Vec<KeptStore>,
    version: Option<u64>,
    command: &str,
    words: &[&str],
) -> Answer<String> {
    if command == "new" {
        stores.clear();
        return add(alloc, stores, KeptStore::new(alloc)?);
    }
    let store = at(stores.as_slice(), version)?;
    match made(alloc, store, command, words)? {
        Some(made) => add(alloc, stores, made),
        None => asked(alloc, store, command, words),
    }
}

// The store after a command that makes one.
fn made(
    alloc: Global,
    store: &KeptStore,
    command: &str,
    words: &[&str],
) -> Answer<Option<KeptStore>> {
    match command {
        "share" => Ok(Some(store.share()?)),
        "record" => Ok(Some(recorded(alloc, store, words)?)),
        "base" => {
            let (words, upto) = halves(words, "|")?;
            let key = key(alloc, words)?;
            Ok(Some(store.with_base(alloc, &key, only_number(upto)?)?))
        }
        "parts" => Ok(Some(parted(alloc, store, words)?)),
        "each" => Ok(Some(one_by_one(alloc, store, words)?)),
        "bases" => Ok(Some(rolled(alloc, store, words)?)),
        _ => Ok(None),
    }
}

// The store after a record: its timestamp, the names of the predicates that are held, and its parts, with `|` between.
fn recorded(alloc: Global, store: &KeptStore, words: &[&str]) -> Answer<KeptStore> {
    let (ts, words) = halves(words, "|")?;
    let (held, words) = halves(words, "|")?;
    let held = names(alloc, held)?;
    let rec = record(alloc, only_number(ts)?, words)?;
    store.with_record(alloc, &rec, held.as_slice())
}

// The store after parts: their timestamp, and the parts, with `|` between.
fn parted(alloc: Global, store: &KeptStore, words: &[&str]) -> Answer<KeptStore> {
    let (ts, words) = halves(words, "|")?;
    let rec = record(alloc, only_number(ts)?, words)?;
    store.with_parts(alloc, rec.ts, rec.parts.as_slice())
}

// The store after parts that are put one by one: the timestamp of the first, each other one's by one more, and the parts.
fn one_by_one(alloc: Global, store: &KeptStore, words: &[&str]) -> Answer<KeptStore> {
    let (ts, words) = halves(words, "|")?;
    let first = only_number(ts)?;
    let mut made = store.share()?;
    for (place, words) in words.split(|word| *word == "|").enumerate() {
        let part = part(alloc, words)?;
        made.put_part(alloc, first.saturating_add(place as u64), &part)?;
    }
    Ok(made)
}

// The store after bases: a timestamp, and the keys of their lists, with `|` between.
fn rolled(alloc: Global, store: &KeptStore, words: &[&str]) -> Answer<KeptStore> {
    let (upto, words) = halves(words, "|")?;
    let mut keys = Vec::new(alloc);
    for words in words.split(|word| *word == "|") {
        keys.push(Arc::new(alloc, key(alloc, words)?)?)?;
    }
    store.with_bases(alloc, keys.as_slice(), only_number(upto)?)
}

fn names(alloc: Global, words: &[&str]) -> Answer<Vec<Str>> {
    let mut names = Vec::new(alloc);
    for word in any(words) {
        names.push(text(alloc, word)?)?;
    }
    Ok(names)
}

// A record of parts, whose keys have to ascend.
fn record(alloc: Global, ts: u64, words: &[&str]) -> Answer<Record>
    ensures parts { IfOk result (λ rec. Ascends part_cmp rec.parts) }
    ensures each { IfOk result (λ rec. AllByRecursion (λ part. Ascends op_cmp part.ops) rec.parts) }
{
    let parts = parts(alloc, words)?;
    if !ascend(parts.as_slice()) {
        return Err(Fault::Unfit);
    }
    let fresh = List::new(alloc);
    Ok(Record { ts, fresh, parts })
}

// Whether each part's key is below the next.
fn ascend(parts: &[Part]) -> bool
    ensures { IsTrue result ↔ Ascends part_cmp parts.now }
{
    parts.is_sorted_by(|a, b| a.key.compare(&b.key).is_lt())
}

fn parts(alloc: Global, words: &[&str]) -> Answer<List<Part>>
    ensures { IfOk result (λ parts. AllByRecursion (λ part. Ascends op_cmp part.ops) parts) }
{
    let mut parts = List::new(alloc);
    for words in words.split(|word| *word == "|") {
        parts.push(part(alloc, words)?)?;
    }
    Ok(parts)
}

// A part: a key and operations, which have to ascend, with `:` between.
fn part(alloc: Global, words: &[&str]) -> Answer<Part>
    ensures { IfOk result (λ part. Ascends op_cmp part.ops) }
{
    let (words, ops) = halves(words, ":")?;
    let key = key(alloc, words)?;
    let layer = layer(alloc, 1, ops)?;
    let ops = List::from_vec(merge_ops(alloc, layer.ops(), &[])?);
    Ok(Part { key, ops })
}

fn asked(alloc: Global, store: &KeptStore, command: &str, words: &[&str]) -> Answer<String> {
    match command {
        "get" => listed(alloc, store, words),
        "from" => next(alloc, store, words),
        "above" => above(alloc, store, words),
        "run" => run(alloc, store, words),
        "of" => parts_on(alloc, words),
        "layered" => layered(alloc, store, words),
        "read" => read(alloc, store, words),
        "has" => has(alloc, store, words),
        _ => Err(Fault::Unfit),
    }
}

// Whether a key has a list.
fn listed(alloc: Global, store: &KeptStore, words: &[&str]) -> Answer<String> {
    let key = key(alloc, words)?;
    let found = match store.store().get(&key) {
        Some(_) => "a list",
        None => "none",
    };
    Ok(String::from_str(alloc, found)?)
}

// The least key at or above one.
fn next(alloc: Global, store: &KeptStore, words: &[&str]) -> Answer<String> {
    let from = key(alloc, words)?;
    match store.store().scan(&from) {
        Some((key, _)) => Ok(key_text(alloc, key)?),
        None => Ok(String::from_str(alloc, "none")?),
    }
}

// The least key above one.
fn above(alloc: Global, store: &KeptStore, words: &[&str]) -> Answer<String> {
    let after = key(alloc, words)?;
    match store.store().scan_above(&after) {
        Some((key, _)) => Ok(key_text(alloc, key)?),
        None => Ok(String::from_str(alloc, "none")?),
    }
}

// The first keys above one, where they stand together.
fn run(alloc: Global, store: &KeptStore, words: &[&str]) -> Answer<String> {
    let after = key(alloc, words)?;
    let mut texts = Vec::new(alloc);
    for (key, _) in store.store().run_above(&after) {
        texts.push(key_text(alloc, key)?)?;
    }
    if texts.is_empty() {
        return Ok(String::from_str(alloc, "none")?);
    }
    Ok(texts.as_slice().join(alloc, ", ")?)
}

// The keys of the parts of a predicate, among parts whose keys have to ascend.
fn parts_on(alloc: Global, words: &[&str]) -> Answer<String> {
    let (pred, words) = halves(words, "|")?;
    let [pred] = *pred else {
        return Err(Fault::Unfit);
    };
    let rec = record(alloc, 1, words)?;
    let pred = text(alloc, pred)?;
    Ok(keys_text(alloc, parts_of(rec.parts.as_slice(), &pred))?)
}

fn keys_text(alloc: Global, parts: &[Part]) -> Mem<String> {
    if parts.is_empty() {
        return Ok(String::from_str(alloc, "none")?);
    }
    let mut texts = Vec::new(alloc);
    for part in parts {
        texts.push(key_text(alloc, &part.key)?)?;
    }
    Ok(texts.as_slice().join(alloc, ", ")?)
}

// Whether the list of a key has a layer at or below a timestamp.
fn layered(alloc: Global, store: &KeptStore, words: &[&str]) -> Answer<String> {
    let (words, upto) = halves(words, "|")?;
    let key = key(alloc, words)?;
    let upto = only_number(upto)?;
    match store.store().get(&key) {
        Some(list) => Ok(truth(alloc, list.layered(upto))?),
        None => Ok(String::from_str(alloc, "none")?),
    }
}

// The list of a key at a timestamp.
fn read(alloc: Global, store: &KeptStore, words: &[&str]) -> Answer<String> {
    let (words, ts) = halves(words, "|")?;
    let list = store.list(alloc, &key(alloc, words)?)?;
    let items = list.read(alloc, only_number(ts)?)?;
    Ok(postings_text(alloc, items.as_slice())?)
}

// Whether the list of a key has a posting at a timestamp.
fn has(alloc: Global, store: &KeptStore, words: &[&str]) -> Answer<String> {
    let (words, rest) = halves(words, "|")?;
    let [ts, item] = rest else {
        return Err(Fault::Unfit);
    };
    let list = store.list(alloc, &key(alloc, words)?)?;
    let item = posting(alloc, item)?;
    Ok(truth(alloc, list.has(number(ts)?, &item)?)?)
}
