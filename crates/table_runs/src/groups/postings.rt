// Postings and what is made of them, as rows write them.
use crate::groups::fault::{Answer, Fault};
use crate::groups::words::{listed, number, text};
use dg_delta::Op;
use dg_graph::{Change, Triple};
use dg_values::{Kind, Mem, OutOfMemory, Posting, Str, Value, read_value, write_value};
use std::alloc::Global;

// From how many nodes on a run is long.
const LONG: usize = 10;

// What a word stands for: digits for a node, and for a value its kind, a colon and its text.
fn posting(alloc: Global, word: &str) -> Answer<Posting> {
    match word.split_once(':') {
        Some((kind, written)) => {
            let value = read_value(alloc, kind_of(kind)?, written)?;
            Ok(Posting::Val(value))
        }
        None => Ok(Posting::Uid(number(word)?)),
    }
}

// The value that a word stands for.
pub(crate) fn value(alloc: Global, word: &str) -> Answer<Value> {
    match posting(alloc, word)? {
        Posting::Val(value) => Ok(value),
        Posting::Uid(_) => Err(Fault::Unfit),
    }
}

fn kind_of(word: &str) -> Answer<Kind> {
    match word {
        "int" => Ok(Kind::Int),
        "text" => Ok(Kind::Text),
        "bool" => Ok(Kind::Bool),
        "time" => Ok(Kind::Time),
        _ => Err(Fault::Unfit),
    }
}

fn posting_text(alloc: Global, posting: &Posting) -> Mem<String> {
    match posting {
        Posting::Uid(node) => Ok(node.to_string(alloc)?),
        Posting::Val(value) => value_text(alloc, value),
    }
}

fn value_text(alloc: Global, value: &Value) -> Mem<String> {
    let kind = match value {
        Value::Int(_) => "int",
        Value::Text(_) => "text",
        Value::Bool(_) => "bool",
        Value::Time(_) => "time",
    };
    let mut text = Str::from_str(alloc, "")?;
    write_value(alloc, &mut text, value)?;
    Ok(format!(in alloc; "{kind}:{text}")?)
}

pub(crate) fn postings_text(alloc: Global, postings: &[Posting]) -> Mem<String> {
    let mut texts = Vec::new(alloc);
    for posting in postings {
        texts.push(posting_text(alloc, posting)?)?;
    }
    listed(alloc, texts.as_slice())
}

// Nodes. Of a long run without a gap only the ends are told.
pub(crate) fn nodes_text(alloc: Global, nodes: &[u64]) -> Mem<String> {
    let mut texts = Vec::new(alloc);
    for run in nodes.chunk_by(|a, b| a.checked_add(1) == Some(*b)) {
        push_run(alloc, &mut texts, run)?;
    }
    listed(alloc, texts.as_slice())
}

// Adds a run of nodes.
fn push_run(alloc: Global, texts: &mut Vec<String>, run: &[u64]) -> Mem<()> {
    if let [first, .., last] = run
        && LONG <= run.len()
    {
        texts.push(format!(in alloc; "{first} to {last}")?)?;
        return Ok(());
    }
    for node in run {
        texts.push(node.to_string(alloc)?)?;
    }
    Ok(())
}

// An operation: `set` or `del`, and the posting.
pub(crate) fn op_text(alloc: Global, op: &Op) -> Mem<String> {
    let word = if op.is_set() { "set" } else { "del" };
    let posting = posting_text(alloc, op.posting())?;
    Ok(format!(in alloc; "{word} {posting}")?)
}

// What three words stand for: a subject, a predicate and an object.
fn triple(alloc: Global, words: &[&str]) -> Answer<Triple> {
    let [s, p, o] = *words else {
        return Err(Fault::Unfit);
    };
    let s = number(s)?;
    let p = text(alloc, p)?;
    let o = posting(alloc, o)?;
    Ok(Triple { s, p, o })
}

fn triple_text(alloc: Global, triple: &Triple) -> Mem<String> {
    let object = posting_text(alloc, &triple.o)?;
    Ok(format!(in alloc; "{} {} {object}", triple.s, triple.p)?)
}

// What four words stand for: `set` or `del`, and a triple.
fn change(alloc: Global, words: &[&str]) -> Answer<Change> {
    let Some((word, rest)) = words.split_first() else {
        return Err(Fault::Unfit);
    };
    match *word {
        "set" => Ok(Change::Set(triple(alloc, rest)?)),
        "del" => Ok(Change::Del(triple(alloc, rest)?)),
        _ => Err(Fault::Unfit),
    }
}

pub(crate) fn changes(alloc: Global, words: &[&str]) -> Answer<Vec<Change>> {
    let mut changes = Vec::new(alloc);
    for four in words.chunks(4) {
        changes.push(change(alloc, four)?)?;
    }
    Ok(changes)
}

// The changes that set an object of each of a count of nodes: a predicate, the first node and the count, and what stands
// before the node's number in the object, if anything.
pub(crate) fn run_of(alloc: Global, words: &[&str]) -> Answer<Vec<Change>> {
    let (p, first, count, before) = match *words {
        [p, first, count] => (p, first, count, ""),
        [p, first, count, before] => (p, first, count, before),
        _ => return Err(Fault::Unfit),
    };
    let (first, count) = (number(first)?, number(count)?);
    let Some(end) = first.checked_add(count) else {
        return Err(Fault::Unfit);
    };
    let mut changes = Vec::new(alloc);
    for s in first..end {
        let p = text(alloc, p)?;
        let o = posting(alloc, format!(in alloc; "{before}{s}")?.as_str())?;
        changes.push(Change::Set(Triple { s, p, o }))?;
    }
    Ok(changes)
}

fn change_text(alloc: Global, change: &Change) -> Mem<String> {
    let word = match change {
        Change::Set(_) => "set",
        Change::Del(_) => "del",
    };
    let triple = triple_text(alloc, change.triple())?;
    Ok(format!(in alloc; "{word} {triple}")?)
}

pub(crate) fn changes_text(alloc: Global, changes: &[Change]) -> Mem<String> {
    let mut texts = Vec::new(alloc);
    for change in changes {
        texts.push(change_text(alloc, change)?)?;
    }
    listed(alloc, texts.as_slice())
}
