// The rows by their commands.
ghost use Rattle.std.specs.Prelude.{◌≡◌};

use crate::groups::fault::{Answer, Fault};
use crate::groups::kept::Kept;
use crate::groups::listing::{list_text, offer_text};
use crate::groups::postings::{changes, postings_text, run_of};
use crate::groups::schemas::{schema_of, schema_text};
use crate::groups::words::{halved, listed, number, small, text, told, truth, words_of};
use crate::groups::{counted, lookups};
use dg_graph::Snapshot;
use dg_group::{GroupState, entries_of_histories, records_of_histories};
use dg_keys::Key;
use dg_node::ClusterFault;
use dg_schema::PredDef;
use dg_store::Store;
use dg_txn::{current_pins, pinned_graphs};
use dg_values::{Mem, OutOfMemory, Str};
use dg_zero::{CommitFault, ZeroFault};
use std::alloc::Global;

// The most keys of a predicate that a row prints.
const MOST_KEYS: u64 = 6;

pub(crate) fn answer(alloc: Global, kept: &mut Option<Kept>, row: &str) -> Answer<String> {
    let (command, rest) = halved(row);
    match command {
        "new" => {
            *kept = Some(Kept::new(alloc, small(rest)?)?);
            told(alloc, "made")
        }
        "laws" => {
            records_of_histories();
            entries_of_histories();
            pinned_graphs();
            current_pins();
            told(alloc, "hold")
        }
        _ => match kept {
            Some(kept) => changed(alloc, kept, command, rest),
            None => Err(Fault::Unfit),
        },
    }
}

// The calls that append an entry.
fn changed(alloc: Global, kept: &mut Kept, command: &str, rest: &str) -> Answer<String> {
    match command {
        "begin" => match kept.begin(alloc, small(rest)?)? {
            Ok(start) => Ok(start.to_string(alloc)?),
            Err(fault) => fault_text(alloc, &fault),
        },
        "end" => truth(alloc, kept.end(small(rest)?)?),
        "commit" => match kept.commit(alloc, small(rest)?)? {
            Ok(ts) => Ok(ts.to_string(alloc)?),
            Err(fault) => refused_text(alloc, &fault),
        },
        "alter" => match kept.alter(alloc, &schema_of(alloc, rest)?)? {
            Ok((start, ts)) => Ok(format!(in alloc; "{start} {ts}")?),
            Err(fault) => hindrance_text(alloc, &fault),
        },
        "lease" => leased(alloc, kept, rest),
        "glance" => glanced(alloc, kept, rest),
        _ => added(alloc, kept, command, rest),
    }
}

fn leased(alloc: Global, kept: &mut Kept, rest: &str) -> Answer<String> {
    let (author, rest) = halved(rest);
    let (top, count) = halved(rest);
    match kept.lease(alloc, small(author)?, number(top)?, number(count)?)? {
        Ok(first) => Ok(first.to_string(alloc)?),
        Err(fault) => fault_text(alloc, &fault),
    }
}

// The objects of a subject in the present graph.
fn glanced(alloc: Global, kept: &mut Kept, rest: &str) -> Answer<String> {
    let (author, rest) = halved(rest);
    let (s, p) = halved(rest);
    let p = text(alloc, p)?;
    match kept.glance(alloc, small(author)?, &p, number(s)?)? {
        Ok(objects) => Ok(postings_text(alloc, objects.as_slice())?),
        Err(fault) => fault_text(alloc, &fault),
    }
}

// The calls that add changes to an open transaction.
fn added(alloc: Global, kept: &mut Kept, command: &str, rest: &str) -> Answer<String> {
    let (name, words) = halved(rest);
    match command {
        "add" => {
            let words = words_of(alloc, words)?;
            let changes = changes(alloc, words.as_slice())?;
            kept.add(alloc, small(name)?, changes)?;
            told(alloc, "added")
        }
        "grow" => {
            let words = words_of(alloc, words)?;
            let changes = run_of(alloc, words.as_slice())?;
            kept.add(alloc, small(name)?, changes)?;
            told(alloc, "added")
        }
        _ => asked(alloc, kept, command, name, words),
    }
}

// The calls that append nothing.
fn asked(alloc: Global, kept: &mut Kept, command: &str, name: &str, rest: &str) -> Answer<String> {
    match command {
        "read" => {
            let (s, p) = halved(rest);
            read(alloc, kept, name, s, &text(alloc, p)?)
        }
        "reads" => reads(alloc, kept, name, rest),
        "offer" => offer_text(alloc, &kept.offer(alloc, small(name)?)?),
        "empty" => truth(alloc, kept.txn(small(name)?)?.is_empty()),
        "schema" => schema_text(alloc, kept.txn(small(name)?)?.schema()),
        "group" => group_text(alloc, kept, small(name)?),
        _ => looked_up(alloc, kept, command, name, rest),
    }
}

// The look-ups, in the present graph or as a transaction sees them.
fn looked_up(
    alloc: Global,
    kept: &mut Kept,
    command: &str,
    name: &str,
    rest: &str,
) -> Answer<String> {
    match name {
        "now" => lookups::answer(alloc, &kept.present(alloc)?, command, rest),
        _ => lookups::answer(alloc, kept.txn(small(name)?)?, command, rest),
    }
}

// The objects of a subject, as a transaction sees them.
fn read(alloc: Global, kept: &Kept, name: &str, s: &str, p: &Str) -> Answer<String> {
    let objects = counted::objects(alloc, kept.txn(small(name)?)?, p, number(s)?)?;
    Ok(postings_text(alloc, objects.as_slice())?)
}

// The objects of several subjects. A bar stands between any two.
fn reads(alloc: Global, kept: &Kept, name: &str, rest: &str) -> Answer<String> {
    let (p, rest) = halved(rest);
    let p = text(alloc, p)?;
    let mut texts = Vec::new(alloc);
    for s in words_of(alloc, rest)?.as_slice() {
        texts.push(read(alloc, kept, name, s, &p)?)?;
    }
    Ok(texts.as_slice().join(alloc, " | ")?)
}

// What a group has applied, and its copies of declared predicates.
fn group_text(alloc: Global, kept: &Kept, number: u32) -> Answer<String> {
    let Some(group) = group_of(kept.owned().groups(), number) else {
        return Err(Fault::Unfit);
    };
    let definitions = kept.owned().zero().schema().definitions();
    let copies = listed(alloc, copy_texts(alloc, group, definitions)?.as_slice())?;
    Ok(format!(in alloc; "last {}; {copies}", group.last())?)
}

fn group_of(groups: &[GroupState], number: u32) -> Option<&GroupState> {
    groups.iter().find(|group| group.number() == number)
}

fn copy_texts(alloc: Global, group: &GroupState, definitions: &[PredDef]) -> Mem<Vec<String>> {
    let mut texts = Vec::new(alloc);
    for definition in definitions {
        let pred = definition.name.as_str();
        if let (Some(mark), Some(store)) = (group.rolled(pred), group.store(pred)) {
            let keys = store_text(alloc, store, pred)?;
            texts.push(format!(in alloc; "{pred} from {mark}: {keys}")?)?;
        }
    }
    Ok(texts)
}

// The first keys of a predicate's lists.
fn store_text(alloc: Global, store: &Store, pred: &str) -> Mem<String> {
    let p = Str::from_str(alloc, pred)?;
    let from = Key::Data { p, s: 0 };
    let mut texts = Vec::new(alloc);
    let mut next = store.scan(&from);
    for _ in 0..MOST_KEYS {
        let Some((key, _)) = next else {
            break;
        };
        texts.push(list_text(alloc, key)?)?;
        next = store.scan_above(key);
    }
    if texts.is_empty() {
        return Ok(String::from_str(alloc, "none")?);
    }
    Ok(texts.as_slice().join(alloc, " + ")?)
}

// Why a call is refused.
fn fault_text(alloc: Global, fault: &ZeroFault) -> Answer<String> {
    match fault {
        ZeroFault::OutOfMemory => told(alloc, "out of memory"),
        ZeroFault::TimestampsSpent { next } => Ok(format!(in alloc; "timestamps spent at {next}")?),
        ZeroFault::UidsSpent { next } => Ok(format!(in alloc; "nodes spent at {next}")?),
        ZeroFault::Pending { start } => Ok(format!(in alloc; "pending {start}")?),
        _ => Err(Fault::Unfit),
    }
}

// Why definitions may not be added.
fn hindrance_text(alloc: Global, fault: &ClusterFault) -> Answer<String> {
    match fault {
        ClusterFault::OutOfMemory => told(alloc, "out of memory"),
        ClusterFault::Pending { start } => Ok(format!(in alloc; "pending {start}")?),
        ClusterFault::HasData { pred } => Ok(format!(in alloc; "data of {pred}")?),
        ClusterFault::TimestampsSpent { next } => {
            Ok(format!(in alloc; "timestamps spent at {next}")?)
        }
        _ => Err(Fault::Unfit),
    }
}

// Why a commit is refused.
fn refused_text(alloc: Global, fault: &CommitFault) -> Answer<String> {
    match fault {
        CommitFault::OutOfMemory { .. } => told(alloc, "out of memory"),
        CommitFault::Moving { pred } => Ok(format!(in alloc; "moving {pred}")?),
        CommitFault::Conflict { text, ts, .. } => Ok(format!(in alloc; "{text} at {ts}")?),
        CommitFault::TimestampsSpent { next, .. } => {
            Ok(format!(in alloc; "timestamps spent at {next}")?)
        }
    }
}
