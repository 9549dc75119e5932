// What the words of a row stand for.
use dg_graph::{Change, Triple};
use dg_values::{Kind, Mem, OutOfMemory, Posting, Str, Value, ValueFault, read_value};
use std::alloc::Global;

fn kind_of(word: &str) -> Option<Kind> {
    match word {
        "int" => Some(Kind::Int),
        "text" => Some(Kind::Text),
        "bool" => Some(Kind::Bool),
        "time" => Some(Kind::Time),
        _ => None,
    }
}

/// The value of a text of a kind.
pub(crate) fn value_of(alloc: Global, kind: &str, text: &str) -> Mem<Option<Value>> {
    let Some(kind) = kind_of(kind) else {
        return Ok(None);
    };
    match read_value(alloc, kind, text) {
        Ok(value) => Ok(Some(value)),
        Err(ValueFault::BadLiteral) => Ok(None),
        Err(ValueFault::OutOfMemory) => Err(OutOfMemory),
    }
}

// Digits are a node; a kind, a colon and a text are a value.
fn object_of(alloc: Global, word: &str) -> Mem<Option<Posting>> {
    match word.split_once(':') {
        Some((kind, text)) => Ok(value_of(alloc, kind, text)?.map(Posting::Val)),
        None => Ok(word.parse::<u64>().ok().map(Posting::Uid)),
    }
}

/// A triple that is set: a subject, a predicate and an object, with a blank between any two.
pub(crate) fn change_of(alloc: Global, words: &str) -> Mem<Option<Change>> {
    let Some((s, rest)) = words.split_once(' ') else {
        return Ok(None);
    };
    let Some((p, o)) = rest.split_once(' ') else {
        return Ok(None);
    };
    let Ok(s) = s.parse::<u64>() else {
        return Ok(None);
    };
    let Some(o) = object_of(alloc, o)? else {
        return Ok(None);
    };
    let p = Str::from_str(alloc, p)?;
    Ok(Some(Change::Set(Triple { s, p, o })))
}
