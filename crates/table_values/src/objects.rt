// Values and postings as rows have them, their copies and their orders.
use crate::fault::Fault;
use crate::fields::{number, plain};
use crate::readings::{shown, value_of_text};
use crate::tokens::tokenizer_of;
use dg_sets::InOrder;
use dg_values::{Kind, Moment, Posting, Str, Value, cmp_posting, cmp_value};
use std::alloc::Global;

// The first and the last second that a moment may have.
const FIRST_SECOND: i64 = -62_167_219_200;

const LAST_SECOND: i64 = 253_402_300_799;

// A posting of a word for its kind and a text: `uid 7`, or a value.
pub(crate) fn posting_of(alloc: Global, field: &str) -> Result<Posting, Fault> {
    match field.strip_prefix("uid ") {
        Some(uid) => Ok(Posting::Uid(number(uid)?)),
        None => Ok(Posting::Val(value_of(alloc, field)?)),
    }
}

// A value of a word for its kind and a text: `int 7`, `text "a"`, or `moment 0 5`, which is a time
// by its seconds and nanoseconds.
pub(crate) fn value_of(alloc: Global, field: &str) -> Result<Value, Fault> {
    let (kind, text) = field.split_once(' ').ok_or(Fault::Unreadable)?;
    match kind {
        "int" => value_of_text(alloc, Kind::Int, text),
        "text" => value_of_text(alloc, Kind::Text, plain(alloc, text)?.as_str()),
        "bool" => value_of_text(alloc, Kind::Bool, text),
        "time" => value_of_text(alloc, Kind::Time, text),
        "moment" => Ok(Value::Time(moment_of(text)?)),
        _ => Err(Fault::Unreadable),
    }
}

fn moment_of(text: &str) -> Result<Moment, Fault> {
    let (secs, nanos) = text.split_once(' ').ok_or(Fault::Unreadable)?;
    let secs = secs.parse::<i64>().ok().ok_or(Fault::Unreadable)?;
    let nanos = nanos.parse::<u32>().ok().ok_or(Fault::Unreadable)?;
    if secs < FIRST_SECOND || secs > LAST_SECOND || nanos >= 1_000_000_000 {
        return Err(Fault::Unreadable);
    }
    Ok(Moment::new(secs, nanos))
}

// A posting as rows have it.
pub(crate) fn posting_text(alloc: Global, posting: &Posting) -> Result<String, Fault> {
    match posting {
        Posting::Uid(uid) => Ok(format!(in alloc; "uid {uid}")?),
        Posting::Val(value) => value_text(alloc, value),
    }
}

fn value_text(alloc: Global, value: &Value) -> Result<String, Fault> {
    let kind = word_of(value);
    let text = shown(alloc, value)?;
    Ok(format!(in alloc; "{kind} {text}")?)
}

fn word_of(value: &Value) -> &'static str {
    match value {
        Value::Int(_) => "int",
        Value::Text(_) => "text",
        Value::Bool(_) => "bool",
        Value::Time(_) => "time",
    }
}

// `copy | POSTING`: the posting and a copy of it, as they are printed for a programmer.
pub(crate) fn copy_row(alloc: Global, fields: &[&str]) -> Result<String, Fault> {
    let [field] = *fields else {
        return Err(Fault::Unreadable);
    };
    let posting = posting_of(alloc, field)?;
    let copy = posting.copy(alloc)?;
    Ok(format!(in alloc; "{posting:?}, copy {copy:?}")?)
}

// `order OF | A | B`: how A stands to B, and B to A.
pub(crate) fn order_row(alloc: Global, call: &str, fields: &[&str]) -> Result<String, Fault> {
    let [a, b] = *fields else {
        return Err(Fault::Unreadable);
    };
    match call {
        "postings" => posting_order(alloc, &posting_of(alloc, a)?, &posting_of(alloc, b)?),
        "values" => value_order(alloc, &value_of(alloc, a)?, &value_of(alloc, b)?),
        "texts" => text_order(alloc, plain(alloc, a)?, plain(alloc, b)?),
        "tokenizers" => tokenizer_order(alloc, a, b),
        _ => Err(Fault::Unreadable),
    }
}

fn posting_order(alloc: Global, a: &Posting, b: &Posting) -> Result<String, Fault> {
    let (there, back, in_sets) = (cmp_posting(a, b), cmp_posting(b, a), a.compare(b));
    Ok(format!(in alloc; "{there:?}, back {back:?}, in sets {in_sets:?}")?)
}

fn value_order(alloc: Global, a: &Value, b: &Value) -> Result<String, Fault> {
    let (there, back) = (cmp_value(a, b), cmp_value(b, a));
    Ok(format!(in alloc; "{there:?}, back {back:?}")?)
}

fn text_order(alloc: Global, a: String, b: String) -> Result<String, Fault> {
    let (a, b) = (Str::from_string(a), Str::from_string(b));
    let (there, back, in_sets, same) = (a.cmp(&b), b.cmp(&a), a.compare(&b), a == b);
    Ok(format!(in alloc; "{there:?}, back {back:?}, in sets {in_sets:?}, same {same}")?)
}

fn tokenizer_order(alloc: Global, a: &str, b: &str) -> Result<String, Fault> {
    let (a, b) = (tokenizer_of(a)?, tokenizer_of(b)?);
    let (there, back) = (a.cmp(&b), b.cmp(&a));
    Ok(format!(in alloc; "{there:?}, back {back:?}")?)
}
