// Walks over the keys of a span, over pins and own gains.
ghost use Rattle.std.specs.Prelude.{[], ◌≡◌, ◌≤◌, ◌++◌, IfOk, OnOk, filter_map, flat_map};
ghost use Rattle.std.specs.List.{AllByRecursion, cons_option};
ghost use Rattle.dg_graph.specs.Lookups.{node_in};
ghost use Rattle.dg_keys.specs.Keys.{key_cmp};
ghost use Rattle.dg_pages.specs.Entries.{IsMap, entries_of, entries_above};
ghost use Rattle.dg_txn.specs.Own.{seen};
ghost use Rattle.dg_txn.specs.Spans.{IsStart};
ghost use Rattle.dg_txn.specs.Walks.{shown, shown_at, changed_lists, entry_shows, entries_from, AreShown};

use crate::Present;
use crate::gains::Gains;
use crate::overlay::read_over;
use crate::span::Span;
use dg_keys::Key;
use dg_list::PList;
use dg_store::Store;
use dg_values::{Mem, OutOfMemory, Posting, Steps};
use std::alloc::Global;
use std::cmp::Ordering;
use std::sync::Arc;
use std::sync::ledger::Ledger;

// Adds the node that a posting is, where it is one.
fn push_node(found: &mut Vec<u64>, posting: &Posting) -> Mem<()>
    ensures { OnOk result (found.new.items ≡ found.old.items ++ cons_option (node_in posting.now) []) }
{
    match posting {
        Posting::Uid(n) => Ok(found.push(*n)?),
        Posting::Val(_) => Ok(()),
    }
}

// Adds the nodes among postings.
pub fn push_nodes(found: &mut Vec<u64>, list: &[Posting]) -> Mem<()>
    ensures { OnOk result (found.new.items ≡ found.old.items ++ filter_map node_in list.now) }
{
    for posting in list {
        push_node(found, posting)?;
    }
    Ok(())
}

// Adds the nodes that a key shows by its list.
fn push_shown(found: &mut Vec<u64>, key: &Key, list: &[Posting]) -> Mem<()>
    ensures { OnOk result (found.new.items ≡ found.old.items ++ shown key.now list.now) }
{
    match key {
        Key::Data { s, .. } => match list {
            [] => Ok(()),
            [_, ..] => Ok(found.push(*s)?),
        },
        _ => push_nodes(found, list),
    }
}

// Reads the list of a key that is in the span, and adds the nodes that it shows.
fn visit<L: Ledger>(
    alloc: Global,
    base: &Present,
    gains: &Gains,
    place: Ordering,
    key: &Key,
    found: &mut Vec<u64>,
    reads: &mut Steps<L>,
) -> Mem<()>
    ensures found { OnOk result (found.new.items ≡ found.old.items ++ shown_at place key.now (seen base.now.schema base.now.graph gains.now key.now)) }
    ensures more_reads { reads.old ≤ reads.new }
{
    match place {
        Ordering::Less => Ok(()),
        Ordering::Equal => {
            let list = read_over(alloc, base, gains, key, reads)?;
            push_shown(found, key, list.as_slice())
        }
        Ordering::Greater => Ok(()),
    }
}

// Adds what an entry of a store shows, whose list is read once.
fn visit_stored<L: Ledger>(
    alloc: Global,
    at: u64,
    gains: &Gains,
    span: &Span,
    key: &Key,
    list: &PList,
    found: &mut Vec<u64>,
    reads: &mut Steps<L>,
) -> Mem<()>
    requires based { list.now.base_ts ≤ at }
    ensures found { OnOk result (found.new.items ≡ found.old.items ++ entry_shows span.now at gains.now (key.now, list.now)) }
    ensures more_reads { reads.old ≤ reads.new }
{
    if !span.place(key).is_eq() || gains.has(key) {
        return Ok(());
    }
    let list = list.read_at(alloc, at, reads)?;
    push_shown(found, key, list.as_slice())
}

// Adds what entries of a store show.
fn visit_run<L: Ledger>(
    alloc: Global,
    at: u64,
    gains: &Gains,
    span: &Span,
    run: &[(Arc<Key>, Arc<PList>)],
    found: &mut Vec<u64>,
    reads: &mut Steps<L>,
) -> Mem<()>
    requires based { AllByRecursion (λ e. e.1.base_ts ≤ at) (entries_of run.now) }
    ensures found { OnOk result (found.new.items ≡ found.old.items ++ flat_map (entry_shows span.now at gains.now) (entries_of run.now)) }
    ensures more_reads { reads.old ≤ reads.new }
{
    for (key, list) in run {
        visit_stored(alloc, at, gains, span, key, list, found, reads)?;
    }
    Ok(())
}

// Adds what the entries of a store above a key show, one run of them after the other, up to the end of the span.
fn visit_above<L: Ledger>(
    alloc: Global,
    at: u64,
    gains: &Gains,
    store: &Store,
    span: &Span,
    start: &Key,
    found: &mut Vec<u64>,
    reads: &mut Steps<L>,
) -> Mem<()>
    requires based { AllByRecursion (λ e. e.1.base_ts ≤ at) store.now }
    ensures found { OnOk result (found.new.items ≡ found.old.items ++ flat_map (entry_shows span.now at gains.now) (entries_above key_cmp start.now store.now)) }
    ensures ascend { OnOk result (IsMap key_cmp store.now) }
    ensures more_reads { reads.old ≤ reads.new }
{
    let mut after = start;
    loop {
        let run = store.run_above(after);
        let Some(last) = run.last() else {
            return Ok(());
        };
        visit_run(alloc, at, gains, span, run, found, reads)?;
        if span.place(&last.0).is_gt() {
            return Ok(());
        }
        after = &last.0;
    }
}

// Adds what the entries of a store from a key on show.
fn visit_from<L: Ledger>(
    alloc: Global,
    at: u64,
    gains: &Gains,
    store: &Store,
    span: &Span,
    start: &Key,
    found: &mut Vec<u64>,
    reads: &mut Steps<L>,
) -> Mem<()>
    requires based { AllByRecursion (λ e. e.1.base_ts ≤ at) store.now }
    ensures found { OnOk result (found.new.items ≡ found.old.items ++ flat_map (entry_shows span.now at gains.now) (entries_from start.now store.now)) }
    ensures ascend { OnOk result (IsMap key_cmp store.now) }
    ensures more_reads { reads.old ≤ reads.new }
{
    if let Some(list) = store.get(start) {
        visit_stored(alloc, at, gains, span, start, list, found, reads)?;
    }
    visit_above(alloc, at, gains, store, span, start, found, reads)
}

// The nodes that the keys of a span show whose lists own changes change, from one key on.
fn own_shown<L: Ledger>(
    alloc: Global,
    base: &Present,
    gains: &Gains,
    span: &Span,
    start: &Key,
    reads: &mut Steps<L>,
) -> Mem<Vec<u64>>
    requires start { IsStart span.now start.now }
    ensures shown { IfOk result (λ v. AreShown span.now (changed_lists (seen base.now.schema base.now.graph gains.now) gains.now) v.items) }
    ensures more_reads { reads.old ≤ reads.new }
{
    let mut found = Vec::new(alloc);
    let mut next = gains.key_from(start);
    while let Some(key) = next {
        let place = span.place(key);
        if place.is_gt() {
            return Ok(found);
        }
        visit(alloc, base, gains, place, key, &mut found, reads)?;
        next = gains.key_above(key);
    }
    Ok(found)
}

// The nodes that the keys of a span show, in no order. Each list of the span that stands in the store of its predicate or
// among the gains is read once. The keys of a store come page by page, so most of them aren't searched for.
pub fn nodes_shown<L: Ledger>(
    alloc: Global,
    base: &Present,
    gains: &Gains,
    span: &Span,
    reads: &mut Steps<L>,
) -> Mem<Vec<u64>>
    ensures shown { IfOk result (λ v. AreShown span.now (seen base.now.schema base.now.graph gains.now) v.items) }
    ensures more_reads { reads.old ≤ reads.new }
{
    let start = span.start(alloc)?;
    let (at, store) = base.lists_of(span.pred.as_str());
    let mut found = own_shown(alloc, base, gains, span, &start, reads)?;
    match store {
        None => Ok(found),
        Some(store) => {
            visit_from(alloc, at, gains, store, span, &start, &mut found, reads)?;
            Ok(found)
        }
    }
}
