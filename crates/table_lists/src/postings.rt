// Postings and operations, as rows write them.
use crate::fault::{Answer, Fault};
use crate::words::{any, listed, number, shown, text};
use dg_delta::{Layer, Op};
use dg_values::{Kind, Mem, OutOfMemory, Posting, Str, Value, read_value, write_value};
use std::alloc::Global;

// What a word stands for: digits for a node, and for a value its kind, a colon and its text.
pub(crate) fn posting(alloc: Global, word: &str) -> Answer<Posting> {
    if word.contains(':') {
        Ok(Posting::Val(value(alloc, word)?))
    } else {
        Ok(Posting::Uid(number(word)?))
    }
}

// What a word stands for: the kind of a value, a colon and its text.
pub(crate) fn value(alloc: Global, word: &str) -> Answer<Value> {
    let Some((kind, written)) = word.split_once(':') else {
        return Err(Fault::Unfit);
    };
    let kind = kind_of(kind)?;
    Ok(read_value(alloc, kind, text(alloc, written)?.as_str())?)
}

fn kind_of(word: &str) -> Answer<Kind> {
    match word {
        "int" => Ok(Kind::Int),
        "text" => Ok(Kind::Text),
        "bool" => Ok(Kind::Bool),
        "time" => Ok(Kind::Time),
        _ => Err(Fault::Unfit),
    }
}

pub(crate) fn postings(alloc: Global, words: &[&str]) -> Answer<Vec<Posting>> {
    let mut postings = Vec::new(alloc);
    for word in any(words) {
        postings.push(posting(alloc, word)?)?;
    }
    Ok(postings)
}

pub(crate) fn posting_word(alloc: Global, posting: &Posting) -> Mem<String> {
    match posting {
        Posting::Uid(node) => Ok(node.to_string(alloc)?),
        Posting::Val(value) => value_word(alloc, value),
    }
}

pub(crate) fn value_word(alloc: Global, value: &Value) -> Mem<String> {
    let kind = match value {
        Value::Int(_) => "int",
        Value::Text(_) => "text",
        Value::Bool(_) => "bool",
        Value::Time(_) => "time",
    };
    let mut text = Str::from_str(alloc, "")?;
    write_value(alloc, &mut text, value)?;
    let shown = shown(alloc, &text)?;
    Ok(format!(in alloc; "{kind}:{shown}")?)
}

pub(crate) fn postings_text(alloc: Global, postings: &[Posting]) -> Mem<String> {
    let mut texts = Vec::new(alloc);
    for posting in postings {
        texts.push(posting_word(alloc, posting)?)?;
    }
    listed(alloc, texts.as_slice())
}

// What pairs of words stand for: `set` or `del`, and a posting.
pub(crate) fn ops(alloc: Global, words: &[&str]) -> Answer<Vec<Op>> {
    let mut ops = Vec::new(alloc);
    for pair in any(words).chunks(2) {
        ops.push(op(alloc, pair)?)?;
    }
    Ok(ops)
}

pub(crate) fn op(alloc: Global, words: &[&str]) -> Answer<Op> {
    match *words {
        ["set", word] => Ok(Op::Set(posting(alloc, word)?)),
        ["del", word] => Ok(Op::Del(posting(alloc, word)?)),
        _ => Err(Fault::Unfit),
    }
}

pub(crate) fn op_text(alloc: Global, op: &Op) -> Mem<String> {
    let word = if op.is_set() { "set" } else { "del" };
    let posting = posting_word(alloc, op.posting())?;
    Ok(format!(in alloc; "{word} {posting}")?)
}

pub(crate) fn ops_text(alloc: Global, ops: &[Op]) -> Mem<String> {
    let mut texts = Vec::new(alloc);
    for op in ops {
        texts.push(op_text(alloc, op)?)?;
    }
    listed(alloc, texts.as_slice())
}

// A layer of operations, which have to ascend.
pub(crate) fn layer(alloc: Global, ts: u64, words: &[&str]) -> Answer<Layer> {
    match Layer::new(ts, ops(alloc, words)?) {
        Some(layer) => Ok(layer),
        None => Err(Fault::Unfit),
    }
}
