// Reads, each with a new count.
ghost use Rattle.std.specs.Prelude.{◌≡◌, ◌<◌, true, IfOk};
ghost use Rattle.dg_graph.specs.Graphs.{objects};
ghost use Rattle.table_runs.specs.Questions.{is_answered, found_in};

use crate::groups::lookups::Lookup;
use dg_graph::Snapshot;
use dg_uids::Uids;
use dg_values::{Mem, Posting, Steps, Str};
use std::alloc::Global;
use std::marker::Brand;
use std::sync::ledger::{Blank, Ledger};

// The objects of a subject.
pub(crate) fn objects<S: Snapshot>(alloc: Global, snap: &S, p: &Str, s: u64) -> Mem<Vec<Posting>>
    ensures { IfOk result (λ v. v.items ≡ objects (S.graph snap.now) p.now s) }
{
    objects_in::<S, Brand>(alloc, snap, p, s, Blank::new(1))
}

fn objects_in<S: Snapshot, L: Ledger>(
    alloc: Global,
    snap: &S,
    p: &Str,
    s: u64,
    blank: Blank,
) -> Mem<Vec<Posting>>
    requires name { blank.name ≡ L.name }
    requires parts { blank.parts ≡ L.parts }
    requires some { 0 < blank.parts }
    ensures { IfOk result (λ v. v.items ≡ objects (S.graph snap.now) p.now s) }
{
    let mut reads = Steps::<L>::new(blank);
    snap.objects(alloc, p.as_str(), s, &mut reads)
}

// The nodes that a look-up finds.
pub(crate) fn nodes<S: Snapshot>(alloc: Global, snap: &S, lookup: &Lookup) -> Mem<Uids>
    requires answered { is_answered (S.declared snap.now) lookup.now ≡ true }
    ensures { IfOk result (λ uids. uids ≡ found_in (S.graph snap.now) lookup.now) }
{
    nodes_in::<S, Brand>(alloc, snap, lookup, Blank::new(1))
}

fn nodes_in<S: Snapshot, L: Ledger>(
    alloc: Global,
    snap: &S,
    lookup: &Lookup,
    blank: Blank,
) -> Mem<Uids>
    requires name { blank.name ≡ L.name }
    requires parts { blank.parts ≡ L.parts }
    requires some { 0 < blank.parts }
    requires answered { is_answered (S.declared snap.now) lookup.now ≡ true }
    ensures { IfOk result (λ uids. uids ≡ found_in (S.graph snap.now) lookup.now) }
{
    let mut reads = Steps::<L>::new(blank);
    match lookup {
        Lookup::Subjects { p, o } => snap.subjects(alloc, p.as_str(), *o, &mut reads),
        Lookup::Token { p, t } => snap.by_token(alloc, p.as_str(), t, &mut reads),
        Lookup::Range {
            p,
            tokenizer,
            low,
            high,
        } => snap.by_token_range(
            alloc,
            p.as_str(),
            *tokenizer,
            low.as_ref(),
            high.as_ref(),
            &mut reads,
        ),
        Lookup::Holders { p } => snap.holders(alloc, p.as_str(), &mut reads),
        Lookup::Count {
            p,
            reverse,
            low,
            high,
        } => snap.by_count(alloc, p.as_str(), *reverse, *low, *high, &mut reads),
    }
}
