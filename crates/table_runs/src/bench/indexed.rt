// Scripts that load triples under indexes.
use crate::bench::scripts::push_frame;
use anyhow::Result;
use std::alloc::Global;

// The predicates: of names by their whole text and by their words, and of edges that are listed from their ends too.
pub(crate) const INDEXES: &str = "name: string @index(exact, term) .\nknows: [uid] @reverse .";

// How many statements one body has at most.
const BODY: u64 = 1_000;

// How many words there are that names share.
const WORDS: u64 = 1_000;

// How many nodes are known by the others.
const KNOWN: u64 = 1_000;

// Transactions of so many changes, one of them maybe of fewer, until there are so many triples.
pub(crate) fn push_indexed(
    alloc: Global,
    text: &mut String,
    count: u64,
    changes: u64,
) -> Result<()> {
    for part in 0..count.div_ceil(changes.max(1)) {
        let first = part.saturating_mul(changes);
        push_transaction(alloc, text, first, count.min(first.saturating_add(changes)))?;
    }
    Ok(())
}

// A transaction of the triples from one number to below another.
fn push_transaction(alloc: Global, text: &mut String, first: u64, end: u64) -> Result<()> {
    text.push_str("begin 1\n")?;
    for part in 0..end.saturating_sub(first).div_ceil(BODY) {
        let from = first.saturating_add(part.saturating_mul(BODY));
        let body = triples(alloc, from, end.min(from.saturating_add(BODY)))?;
        push_frame(alloc, text, "mutate 1", body.as_str())?;
    }
    text.push_str("commit 1\n")?;
    Ok(())
}

// Statements of triples from one number to below another.
fn triples(alloc: Global, first: u64, end: u64) -> Result<String> {
    let mut text = String::new(alloc);
    for number in first..end {
        let line = triple(alloc, number)?;
        text.push_str(line.as_str())?;
        text.push_str("\n")?;
    }
    Ok(text)
}

// Every other triple is an edge to a node that many know, and the rest are names of two words, of which many share the first.
fn triple(alloc: Global, number: u64) -> Result<String> {
    let node = (number / 2).saturating_add(1);
    if number % 2 == 1 {
        let known = node % KNOWN + 1;
        return Ok(format!(in alloc; "<0x{node:x}> <knows> <0x{known:x}> .")?);
    }
    let word = node % WORDS;
    Ok(format!(in alloc; "<0x{node:x}> <name> \"word{word} n{node}\" .")?)
}
