// The table of bases: one is packed, and then found in and walked, and its bytes are shown.
use crate::fault::{Answer, Fault};
use crate::postings::{posting, postings, postings_text};
use crate::words::{hex, number, truth};
use dg_base::Base;
use dg_sets::ascend;
use dg_values::{Mem, OutOfMemory, Posting};
use std::alloc::Global;

pub(crate) fn answer(
    alloc: Global,
    kept: &mut Option<Base>,
    command: &str,
    words: &[&str],
) -> Answer<String> {
    let made = match command {
        "new" => packed(alloc, postings(alloc, words)?.as_slice())?,
        "range" => packed(alloc, ranged(alloc, words)?.as_slice())?,
        _ => return answer_of_kept(alloc, kept, command, words),
    };
    let len = made.len();
    *kept = Some(made);
    Ok(len.to_string(alloc)?)
}

// The answer of a row about the base that was made last.
fn answer_of_kept(
    alloc: Global,
    kept: &Option<Base>,
    command: &str,
    words: &[&str],
) -> Answer<String> {
    match kept {
        Some(base) => asked(alloc, base, command, words),
        None => Err(Fault::Unfit),
    }
}

// A base of postings, which have to ascend.
fn packed(alloc: Global, items: &[Posting]) -> Answer<Base> {
    if !ascend(items) {
        return Err(Fault::Unfit);
    }
    Ok(Base::pack(alloc, items)?)
}

// Nodes from a first one on, so many and so far apart, and postings behind them.
fn ranged(alloc: Global, words: &[&str]) -> Answer<Vec<Posting>> {
    let [from, count, apart, rest @ ..] = words else {
        return Err(Fault::Unfit);
    };
    let mut items = nodes(alloc, number(from)?, number(count)?, number(apart)?)?;
    for item in postings(alloc, rest)? {
        items.push(item)?;
    }
    Ok(items)
}

fn nodes(alloc: Global, from: u64, count: u64, apart: u64) -> Answer<Vec<Posting>> {
    let mut nodes = Vec::new(alloc);
    let mut next = Some(from);
    for _ in 0..count {
        let Some(node) = next else {
            return Err(Fault::Unfit);
        };
        nodes.push(Posting::Uid(node))?;
        next = node.checked_add(apart);
    }
    Ok(nodes)
}

fn asked(alloc: Global, base: &Base, command: &str, words: &[&str]) -> Answer<String> {
    match (command, words) {
        ("len", []) => Ok(base.len().to_string(alloc)?),
        ("bytes", []) => Ok(hex(alloc, base.packed())?),
        ("find", [word]) => Ok(truth(alloc, base.find(&posting(alloc, word)?))?),
        ("seek", [word]) => Ok(base.seek(&posting(alloc, word)?).to_string(alloc)?),
        ("walk", [from, most]) => walked(alloc, base, number(from)?, number(most)?),
        _ => Err(Fault::Unfit),
    }
}

fn walked(alloc: Global, base: &Base, from: u64, most: u64) -> Answer<String> {
    let (Ok(from), Ok(most)) = (usize::try_from(from), usize::try_from(most)) else {
        return Err(Fault::Unfit);
    };
    let items = base.walk(alloc, from, most)?;
    Ok(postings_text(alloc, items.as_slice())?)
}
