// The text of a conflict key.
ghost use Rattle.std.specs.Prelude.{◌≡◌, ◌++◌, IfOk, OnOk, OnErr, string_bytes};
ghost use Rattle.json.specs.Print.{quoted};
ghost use Rattle.dg_keys.specs.Conflicts.{and_text, conflict_text, key_value_text, node_text, posting_text, tokenizer_text};

use crate::ConflictKey;
use dg_tokens::IndexToken;
use dg_values::{Mem, OutOfMemory, Posting, Str, Tokenizer, Value, write_value};
use serde_json::Value as Json;
use std::alloc::Global;

// A text in quotes, as a string of JSON.
fn quote(alloc: Global, text: Str) -> Mem<Str>
    ensures { IfOk result (λ s. s ≡ quoted text) }
{
    let json = Json::String(text.into_string());
    Ok(Str::from_string(json.to_string(alloc)?))
}

// Numbers and truth values as they print, texts and times in quotes.
fn value_text(alloc: Global, value: &Value) -> Mem<Str>
    ensures { IfOk result (λ s. s ≡ key_value_text value.now) }
{
    let mut plain = Str::from_str(alloc, "")?;
    write_value(alloc, &mut plain, value)?;
    match value {
        Value::Int(_) | Value::Bool(_) => Ok(plain),
        Value::Text(_) | Value::Time(_) => quote(alloc, plain),
    }
}

// A node in hexadecimal.
fn node_text(alloc: Global, node: u64) -> Mem<Str>
    ensures { IfOk result (λ s. s ≡ node_text node) }
{
    Ok(Str::from_string(format!(in alloc; "0x{node:x}")?))
}

fn posting_text(alloc: Global, posting: &Posting) -> Mem<Str>
    ensures { IfOk result (λ s. s ≡ posting_text posting.now) }
{
    match posting {
        Posting::Uid(n) => node_text(alloc, *n),
        Posting::Val(value) => value_text(alloc, value),
    }
}

// A blank and the object, where there is one.
fn and_object(alloc: Global, object: &Option<Posting>) -> Mem<Str>
    ensures { IfOk result (λ s. s ≡ and_text posting_text object.now) }
{
    match object {
        None => Str::from_str(alloc, ""),
        Some(posting) => {
            let posting = posting_text(alloc, posting)?;
            Ok(Str::from_string(format!(in alloc; " {posting}")?))
        }
    }
}

// A blank and the subject, where there is one.
fn and_subject(alloc: Global, subject: Option<u64>) -> Mem<Str>
    ensures { IfOk result (λ s. s ≡ and_text node_text subject) }
{
    match subject {
        None => Str::from_str(alloc, ""),
        Some(node) => Ok(Str::from_string(format!(in alloc; " 0x{node:x}")?)),
    }
}

fn tokenizer_word(tokenizer: Tokenizer) -> &'static str
    ensures { result.now ≡ tokenizer_text tokenizer }
{
    match tokenizer {
        Tokenizer::Exact => "exact",
        Tokenizer::Hash => "hash",
        Tokenizer::Term => "term",
        Tokenizer::Trigram => "trigram",
        Tokenizer::Int => "int",
        Tokenizer::Bool => "bool",
        Tokenizer::Year => "year",
        Tokenizer::Month => "month",
        Tokenizer::Day => "day",
        Tokenizer::Hour => "hour",
    }
}

fn data_text(alloc: Global, p: &Str, s: u64, o: &Option<Posting>) -> Mem<Str>
    ensures { IfOk result (λ text. text ≡ conflict_text (ConflictKey.Data p.now s o.now)) }
{
    let object = and_object(alloc, o)?;
    Ok(Str::from_string(format!(in alloc; "data {p} 0x{s:x}{object}")?))
}

fn index_text(alloc: Global, p: &Str, t: &IndexToken, s: Option<u64>) -> Mem<Str>
    ensures { IfOk result (λ text. text ≡ conflict_text (ConflictKey.Index p.now t.now s)) }
{
    let word = tokenizer_word(t.tokenizer);
    let value = value_text(alloc, &t.value)?;
    let subject = and_subject(alloc, s)?;
    Ok(Str::from_string(format!(in alloc; "index {p} {word} {value}{subject}")?))
}

fn key_text(alloc: Global, key: &ConflictKey) -> Mem<Str>
    ensures { IfOk result (λ text. text ≡ conflict_text key.now) }
{
    match key {
        ConflictKey::Data { p, s, o } => data_text(alloc, p, *s, o),
        ConflictKey::Index { p, t, s } => index_text(alloc, p, t, *s),
        ConflictKey::Count { p, s } => {
            Ok(Str::from_string(format!(in alloc; "count {p} 0x{s:x}")?))
        }
        ConflictKey::RCount { p, o } => {
            Ok(Str::from_string(format!(in alloc; "rcount {p} 0x{o:x}")?))
        }
    }
}

/// Appends the text of a key: its kind, predicate, and token or node, with a blank between any two. Nodes are in
/// hexadecimal behind `0x`; numbers and truth values print plain, texts and times as strings of JSON. After an error
/// the text is as before.
pub fn conflict_text(alloc: Global, out: &mut Str, key: &ConflictKey) -> Mem<()>
    ensures ok { OnOk result (out.new ≡ out.old ++ conflict_text key.now) }
    ensures err { OnErr result (out.new ≡ out.old) }
{
    let text = key_text(alloc, key)?;
    out.push_str(text.as_str())
}
