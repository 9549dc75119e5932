// The table of operations: layers made, and operations merged, asked and applied.
use crate::fault::{Answer, Fault};
use crate::postings::{layer, op, op_text, ops, ops_text, posting, postings, postings_text};
use crate::words::{first, halves, number};
use dg_delta::{Layer, apply, decide, merge_ops};
use dg_sets::ascend;
use std::alloc::Global;

// The timestamp of a layer whose operations alone count.
const ANY_TIME: u64 = 1;

pub(crate) fn answer(alloc: Global, command: &str, words: &[&str]) -> Answer<String> {
    match command {
        "copy" => Ok(op_text(alloc, &op(alloc, words)?.copy(alloc)?)?),
        "layer" => layered(alloc, words),
        "merge" => merged(alloc, words),
        "decide" => decided(alloc, words),
        "apply" => applied(alloc, words),
        _ => Err(Fault::Unfit),
    }
}

// A layer at a timestamp, or that its operations don't ascend.
fn layered(alloc: Global, words: &[&str]) -> Answer<String> {
    let (ts, words) = first(words)?;
    match Layer::new(number(ts)?, ops(alloc, words)?) {
        Some(layer) => {
            let ops = ops_text(alloc, layer.ops())?;
            Ok(format!(in alloc; "at {}: {ops}", layer.ts())?)
        }
        None => Ok(String::from_str(alloc, "refused")?),
    }
}

// Older and newer operations in one.
fn merged(alloc: Global, words: &[&str]) -> Answer<String> {
    let (older, newer) = halves(words, "|")?;
    let older = layer(alloc, ANY_TIME, older)?;
    let newer = layer(alloc, ANY_TIME, newer)?;
    let ops = merge_ops(alloc, older.ops(), newer.ops())?;
    Ok(ops_text(alloc, ops.as_slice())?)
}

// What operations say of a posting.
fn decided(alloc: Global, words: &[&str]) -> Answer<String> {
    let (ops, word) = halves(words, "|")?;
    let [word] = word else {
        return Err(Fault::Unfit);
    };
    let layer = layer(alloc, ANY_TIME, ops)?;
    let said = match decide(layer.ops(), &posting(alloc, word)?) {
        Some(true) => "in",
        Some(false) => "out",
        None => "unsaid",
    };
    Ok(String::from_str(alloc, said)?)
}

// A list after operations.
fn applied(alloc: Global, words: &[&str]) -> Answer<String> {
    let (list, ops) = halves(words, "|")?;
    let list = postings(alloc, list)?;
    if !ascend(list.as_slice()) {
        return Err(Fault::Unfit);
    }
    let layer = layer(alloc, ANY_TIME, ops)?;
    let list = apply(alloc, list.as_slice(), layer.ops())?;
    Ok(postings_text(alloc, list.as_slice())?)
}
