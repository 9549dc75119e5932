// Names, keys, parts, tablets and records, as answers show them.
use crate::postings::op_text;
use crate::words::listed;
use dg_delta::Op;
use dg_keys::{ConflictKey, Key, Part, Record, Tablet, conflict_text};
use dg_values::{Mem, OutOfMemory, Str};
use std::alloc::Global;

pub(crate) fn names_text(alloc: Global, names: &[Str]) -> Mem<String> {
    let mut texts = Vec::new(alloc);
    for name in names {
        texts.push(String::from_str(alloc, name.as_str())?)?;
    }
    listed(alloc, texts.as_slice())
}

pub(crate) fn key_text(alloc: Global, key: &ConflictKey) -> Mem<String> {
    let mut text = Str::from_str(alloc, "")?;
    conflict_text(alloc, &mut text, key)?;
    Ok(text.into_string())
}

pub(crate) fn keys_text(alloc: Global, keys: &[ConflictKey]) -> Mem<String> {
    let mut texts = Vec::new(alloc);
    for key in keys {
        texts.push(key_text(alloc, key)?)?;
    }
    listed(alloc, texts.as_slice())
}

// The key of a list: a subject and its predicate, or what is filed under the predicate and by what.
fn list_text(alloc: Global, key: &Key) -> Mem<String> {
    match key.copy(alloc)? {
        Key::Data { p, s } => Ok(format!(in alloc; "{s} {p}")?),
        Key::Index { p, t } => key_text(alloc, &ConflictKey::Index { p, t, s: None }),
        Key::Reverse { p, o } => Ok(format!(in alloc; "reverse {p} {o}")?),
        Key::Count { p, n } => Ok(format!(in alloc; "count {p} {n}")?),
        Key::RCount { p, n } => Ok(format!(in alloc; "rcount {p} {n}")?),
    }
}

fn ops_text(alloc: Global, ops: &[Op]) -> Mem<String> {
    let mut texts = Vec::new(alloc);
    for op in ops {
        texts.push(op_text(alloc, op)?)?;
    }
    Ok(texts.as_slice().join(alloc, " ")?)
}

fn part_text(alloc: Global, part: &Part) -> Mem<String> {
    let list = list_text(alloc, &part.key)?;
    let ops = ops_text(alloc, part.ops.as_slice())?;
    Ok(format!(in alloc; "{list}: {ops}")?)
}

pub(crate) fn parts_text(alloc: Global, parts: &[Part]) -> Mem<String> {
    let mut texts = Vec::new(alloc);
    for part in parts {
        texts.push(part_text(alloc, part)?)?;
    }
    listed(alloc, texts.as_slice())
}

pub(crate) fn tablets_text(alloc: Global, tablets: &[Tablet]) -> Mem<String> {
    let mut texts = Vec::new(alloc);
    for tablet in tablets {
        texts.push(format!(in alloc; "{} in {}", tablet.pred, tablet.group)?)?;
    }
    listed(alloc, texts.as_slice())
}

// A record: its timestamp, its new tablets and its parts.
pub(crate) fn record_text(alloc: Global, written: &Record) -> Mem<String> {
    let fresh = tablets_text(alloc, written.fresh.as_slice())?;
    let parts = parts_text(alloc, written.parts.as_slice())?;
    Ok(format!(in alloc; "at {}; new {fresh}; parts {parts}", written.ts)?)
}
