// The table of the keys by which commits conflict.
use crate::fault::{Answer, Fault};
use crate::postings::posting;
use crate::tokens::token;
use crate::words::{first, halves, number, order, shown, text, truth};
use dg_keys::{ConflictKey, cmp_conflict, conflict_text, copy_keys};
use dg_sets::{InOrder, ascend, place_of, put};
use dg_values::{Mem, OutOfMemory, Posting, Str};
use std::alloc::Global;

pub(crate) fn answer(
    alloc: Global,
    keys: &mut Vec<ConflictKey>,
    command: &str,
    words: &[&str],
) -> Answer<String> {
    match command {
        "new" => {
            keys.clear();
            Ok(keys.len().to_string(alloc)?)
        }
        "put" => kept(alloc, keys, conflict(alloc, words)?),
        "keys" => copied(alloc, keys.as_slice()),
        "append" => appended(alloc, words),
        "place" | "text" | "copy" => of_one(alloc, keys.as_slice(), command, words),
        _ => of_two(alloc, command, words),
    }
}

// Puts a key among those that are kept, and says how many there are.
fn kept(alloc: Global, keys: &mut Vec<ConflictKey>, key: ConflictKey) -> Answer<String> {
    if !ascend(keys.as_slice()) {
        return Err(Fault::Unfit);
    }
    put(keys, key)?;
    Ok(keys.len().to_string(alloc)?)
}

// What the command asks of one key.
fn of_one(alloc: Global, keys: &[ConflictKey], command: &str, words: &[&str]) -> Answer<String> {
    let key = conflict(alloc, words)?;
    let answer = asked_of(alloc, keys, command, &key);
    drop(key);
    answer
}

fn asked_of(
    alloc: Global,
    keys: &[ConflictKey],
    command: &str,
    key: &ConflictKey,
) -> Answer<String> {
    match command {
        "place" => place(alloc, keys, key),
        "copy" => text_of_copy(alloc, key),
        _ => Ok(text_behind(alloc, "", key)?),
    }
}

// The text of a copy of a key.
fn text_of_copy(alloc: Global, key: &ConflictKey) -> Answer<String> {
    let copy = key.copy(alloc)?;
    let text = text_behind(alloc, "", &copy);
    drop(copy);
    Ok(text?)
}

// The text that words begin with, and behind it that of the key that the others stand for.
fn appended(alloc: Global, words: &[&str]) -> Answer<String> {
    let (front, words) = first(words)?;
    let key = conflict(alloc, words)?;
    let answer = text_behind_word(alloc, front, &key);
    drop(key);
    answer
}

fn text_behind_word(alloc: Global, front: &str, key: &ConflictKey) -> Answer<String> {
    let front = text(alloc, front)?;
    Ok(text_behind(alloc, front.as_str(), key)?)
}

// Where a key is among those that are kept, or belongs.
fn place(alloc: Global, keys: &[ConflictKey], key: &ConflictKey) -> Answer<String> {
    if !ascend(keys) {
        return Err(Fault::Unfit);
    }
    match place_of(keys, key) {
        Ok(place) => Ok(format!(in alloc; "at {place}")?),
        Err(place) => Ok(format!(in alloc; "missing at {place}")?),
    }
}

// The texts of copies of the keys that are kept, and whether the copies equal them.
fn copied(alloc: Global, keys: &[ConflictKey]) -> Answer<String> {
    let copied = copy_keys(alloc, keys)?;
    let mut texts = Vec::new(alloc);
    for key in &copied {
        texts.push(text_behind(alloc, "", key)?)?;
    }
    let texts = texts.as_slice().join(alloc, ", ")?;
    let equal = copied.as_slice() == keys;
    Ok(format!(in alloc; "{texts}: {equal}")?)
}

// A text with that of a key at its end.
fn text_behind(alloc: Global, front: &str, key: &ConflictKey) -> Mem<String> {
    let mut text = Str::from_str(alloc, front)?;
    conflict_text(alloc, &mut text, key)?;
    Ok(text.into_string())
}

// Two keys, compared in the way that the command names.
fn of_two(alloc: Global, command: &str, words: &[&str]) -> Answer<String> {
    let (before, behind) = halves(words, "|")?;
    let a = conflict(alloc, before)?;
    let answer = beside(alloc, command, &a, behind);
    drop(a);
    answer
}

// A key, and the one that words stand for.
fn beside(alloc: Global, command: &str, a: &ConflictKey, words: &[&str]) -> Answer<String> {
    let b = conflict(alloc, words)?;
    let answer = compared(alloc, command, a, &b);
    drop(b);
    answer
}

fn compared(alloc: Global, command: &str, a: &ConflictKey, b: &ConflictKey) -> Answer<String> {
    match command {
        "compare" => Ok(order(alloc, cmp_conflict(a, b))?),
        "order" => Ok(order(alloc, a.compare(b))?),
        "cmp" => Ok(order(alloc, a.cmp(b))?),
        "below" => Ok(truth(alloc, a < b)?),
        "equal" => Ok(truth(alloc, a == b)?),
        _ => Err(Fault::Unfit),
    }
}

// The key that words stand for.
fn conflict(alloc: Global, words: &[&str]) -> Answer<ConflictKey> {
    match *words {
        ["data", pred, node] => data(alloc, pred, node, None),
        ["data", pred, node, object] => {
            let object = posting(alloc, object)?;
            data(alloc, pred, node, Some(object))
        }
        ["index", pred, tokenizer, value] => index(alloc, pred, tokenizer, value, None),
        ["index", pred, tokenizer, value, node] => {
            index(alloc, pred, tokenizer, value, Some(number(node)?))
        }
        ["count", pred, node] => count(alloc, pred, node),
        ["rcount", pred, node] => rcount(alloc, pred, node),
        _ => Err(Fault::Unfit),
    }
}

fn data(alloc: Global, pred: &str, node: &str, o: Option<Posting>) -> Answer<ConflictKey> {
    let p = text(alloc, pred)?;
    let s = number(node)?;
    Ok(ConflictKey::Data { p, s, o })
}

fn index(
    alloc: Global,
    pred: &str,
    tokenizer: &str,
    value: &str,
    s: Option<u64>,
) -> Answer<ConflictKey> {
    let p = text(alloc, pred)?;
    let t = token(alloc, tokenizer, value)?;
    Ok(ConflictKey::Index { p, t, s })
}

fn count(alloc: Global, pred: &str, node: &str) -> Answer<ConflictKey> {
    let p = text(alloc, pred)?;
    let s = number(node)?;
    Ok(ConflictKey::Count { p, s })
}

fn rcount(alloc: Global, pred: &str, node: &str) -> Answer<ConflictKey> {
    let p = text(alloc, pred)?;
    let o = number(node)?;
    Ok(ConflictKey::RCount { p, o })
}
