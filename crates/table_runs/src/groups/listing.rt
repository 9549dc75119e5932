// Names, keys, parts and offers, as answers show them.
use crate::groups::fault::Answer;
use crate::groups::postings::{changes_text, op_text};
use crate::groups::words::listed;
use dg_delta::Op;
use dg_keys::{ConflictKey, Key, Part, conflict_text};
use dg_values::{Mem, OutOfMemory, Str};
use dg_zero::Offer;
use std::alloc::Global;

fn names_text(alloc: Global, names: &[Str]) -> Mem<String> {
    let mut texts = Vec::new(alloc);
    for name in names {
        texts.push(String::from_str(alloc, name.as_str())?)?;
    }
    listed(alloc, texts.as_slice())
}

pub(crate) fn key_text(alloc: Global, key: &ConflictKey) -> Mem<String> {
    let mut text = Str::from_str(alloc, "")?;
    conflict_text(alloc, &mut text, key)?;
    Ok(text.into_string())
}

fn keys_text(alloc: Global, keys: &[ConflictKey]) -> Mem<String> {
    let mut texts = Vec::new(alloc);
    for key in keys {
        texts.push(key_text(alloc, key)?)?;
    }
    listed(alloc, texts.as_slice())
}

// The subject and the predicate of a list.
pub(crate) fn list_text(alloc: Global, key: &Key) -> Mem<String> {
    match key {
        Key::Data { p, s } => Ok(format!(in alloc; "{s} {p}")?),
        _ => Ok(String::from_str(alloc, "another key")?),
    }
}

fn ops_text(alloc: Global, ops: &[Op]) -> Mem<String> {
    let mut texts = Vec::new(alloc);
    for op in ops {
        texts.push(op_text(alloc, op)?)?;
    }
    Ok(texts.as_slice().join(alloc, " ")?)
}

fn part_text(alloc: Global, part: &Part) -> Mem<String> {
    let list = list_text(alloc, &part.key)?;
    let ops = ops_text(alloc, part.ops.as_slice())?;
    Ok(format!(in alloc; "{list}: {ops}")?)
}

fn parts_text(alloc: Global, parts: &[Part]) -> Mem<String> {
    let mut texts = Vec::new(alloc);
    for part in parts {
        texts.push(part_text(alloc, part)?)?;
    }
    listed(alloc, texts.as_slice())
}

// What an offer says.
pub(crate) fn offer_text(alloc: Global, offer: &Offer) -> Answer<String> {
    let preds = names_text(alloc, offer.preds.as_slice())?;
    let keys = keys_text(alloc, offer.keys.as_slice())?;
    let changes = changes_text(alloc, offer.changes.as_slice())?;
    let parts = parts_text(alloc, offer.parts.as_slice())?;
    let start = offer.start;
    Ok(format!(in alloc; "{start}; {preds}; {keys}; {changes}; {parts}")?)
}
