// The table of keys of posting lists.
use crate::fault::{Answer, Fault};
use crate::tokens::{token, token_text};
use crate::words::{halves, number, order, shown, text, truth};
use dg_keys::Key;
use dg_sets::InOrder;
use dg_values::{Mem, OutOfMemory};
use std::alloc::Global;

pub(crate) fn answer(alloc: Global, command: &str, words: &[&str]) -> Answer<String> {
    match command {
        "copy" => Ok(key_text(alloc, &key(alloc, words)?.copy(alloc)?)?),
        "pred" => Ok(shown(alloc, key(alloc, words)?.pred())?),
        _ => {
            let (before, behind) = halves(words, "|")?;
            compared(alloc, command, &key(alloc, before)?, &key(alloc, behind)?)
        }
    }
}

// Two keys, compared in the way that the command names.
fn compared(alloc: Global, command: &str, a: &Key, b: &Key) -> Answer<String> {
    match command {
        "order" => Ok(order(alloc, a.compare(b))?),
        "cmp" => Ok(order(alloc, a.cmp(b))?),
        "below" => Ok(truth(alloc, a < b)?),
        "equal" => Ok(truth(alloc, a == b)?),
        _ => Err(Fault::Unfit),
    }
}

// The key that words stand for.
pub(crate) fn key(alloc: Global, words: &[&str]) -> Answer<Key> {
    match *words {
        ["index", pred, tokenizer, value] => {
            let p = text(alloc, pred)?;
            let t = token(alloc, tokenizer, value)?;
            Ok(Key::Index { p, t })
        }
        [kind, pred, number] => numbered(alloc, kind, pred, number),
        _ => Err(Fault::Unfit),
    }
}

// A key of a predicate and a number.
fn numbered(alloc: Global, kind: &str, pred: &str, written: &str) -> Answer<Key> {
    let p = text(alloc, pred)?;
    let n = number(written)?;
    match kind {
        "data" => Ok(Key::Data { p, s: n }),
        "reverse" => Ok(Key::Reverse { p, o: n }),
        "count" => Ok(Key::Count { p, n }),
        "rcount" => Ok(Key::RCount { p, n }),
        _ => Err(Fault::Unfit),
    }
}

pub(crate) fn key_text(alloc: Global, key: &Key) -> Mem<String> {
    let (kind, last) = match key {
        Key::Data { s, .. } => ("data", s.to_string(alloc)?),
        Key::Index { t, .. } => ("index", token_text(alloc, t)?),
        Key::Reverse { o, .. } => ("reverse", o.to_string(alloc)?),
        Key::Count { n, .. } => ("count", n.to_string(alloc)?),
        Key::RCount { n, .. } => ("rcount", n.to_string(alloc)?),
    };
    let pred = shown(alloc, key.pred())?;
    Ok(format!(in alloc; "{kind} {pred} {last}")?)
}
