// Calls that read lists, each time with a new count of reads.
ghost use Rattle.std.specs.Prelude.{◌≡◌, ◌≢◌, ◌+◌, ◌<◌, ◌^◌, [], true, IfOk, length};
ghost use Rattle.dg_edges.specs.Deltas.{AreFitting};
ghost use Rattle.dg_edges.specs.Expanding.{new_names};
ghost use Rattle.dg_graph.specs.Graphs.{IsLawful};
ghost use Rattle.dg_schema.specs.Definitions.{with_definitions};
ghost use Rattle.dg_zero.specs.Listings.{AreGainsAndLosses};
ghost use Rattle.dg_zero.specs.Offers.{IsSound, IsMadeOf};
ghost use Rattle.table_zero.specs.Questions.{is_answered, found_in};

use crate::lookups::Lookup;
use dg_edges::{Resolved, conflict_keys, deltas_of, expand, offer_of, schema_deltas};
use dg_graph::{Change, Plain, Snapshot};
use dg_keys::{ConflictKey, Part};
use dg_schema::Schema;
use dg_uids::Uids;
use dg_values::{Mem, Posting, Steps, Str};
use dg_zero::Offer;
use std::alloc::Global;
use std::marker::Brand;
use std::sync::ledger::{Blank, Ledger};

// The objects of a subject.
pub(crate) fn objects<S: Snapshot>(alloc: Global, snap: &S, p: &Str, s: u64) -> Mem<Vec<Posting>> {
    objects_in::<S, Brand>(alloc, snap, p, s, Blank::new(1))
}

fn objects_in<S: Snapshot, L: Ledger>(
    alloc: Global,
    snap: &S,
    p: &Str,
    s: u64,
    blank: Blank,
) -> Mem<Vec<Posting>>
    requires name { blank.name ≡ L.name }
    requires parts { blank.parts ≡ L.parts }
    requires some { 0 < blank.parts }
{
    let mut reads = Steps::<L>::new(blank);
    snap.objects(alloc, p.as_str(), s, &mut reads)
}

// The offer of changes.
pub(crate) fn offer<S: Snapshot>(
    alloc: Global,
    snap: &S,
    start: u64,
    changes: &[Change],
) -> Mem<Offer>
    requires fitting { AreFitting (S.declared snap.now) changes.now }
    requires lawful { IsLawful (S.declared snap.now) (S.graph snap.now) }
    ensures start { IfOk result (λ offer. offer.start ≡ start) }
    ensures changes { IfOk result (λ offer. offer.changes ≡ changes.now) }
    ensures sound { changes.now ≢ [] → IfOk result (λ offer. IsSound (S.declared snap.now) (S.graph snap.now) offer.preds offer.keys offer.parts) }
    ensures made_of { IfOk result (λ offer. IsMadeOf (S.declared snap.now) (S.graph snap.now) offer.changes offer.keys offer.parts) }
{
    offer_in::<S, Brand>(alloc, snap, start, changes, Blank::new(1))
}

fn offer_in<S: Snapshot, L: Ledger>(
    alloc: Global,
    snap: &S,
    start: u64,
    changes: &[Change],
    blank: Blank,
) -> Mem<Offer>
    requires name { blank.name ≡ L.name }
    requires parts { blank.parts ≡ L.parts }
    requires some { 0 < blank.parts }
    requires fitting { AreFitting (S.declared snap.now) changes.now }
    requires lawful { IsLawful (S.declared snap.now) (S.graph snap.now) }
    ensures start { IfOk result (λ offer. offer.start ≡ start) }
    ensures changes { IfOk result (λ offer. offer.changes ≡ changes.now) }
    ensures sound { changes.now ≢ [] → IfOk result (λ offer. IsSound (S.declared snap.now) (S.graph snap.now) offer.preds offer.keys offer.parts) }
    ensures made_of { IfOk result (λ offer. IsMadeOf (S.declared snap.now) (S.graph snap.now) offer.changes offer.keys offer.parts) }
{
    let mut reads = Steps::<L>::new(blank);
    offer_of(alloc, snap, start, changes, &mut reads)
}

// The parts and the keys of changes.
pub(crate) fn parts_and_keys(
    alloc: Global,
    at: &Plain,
    changes: &[Change],
) -> Mem<(Vec<Part>, Vec<ConflictKey>)>
    requires fitting { AreFitting at.now.schema changes.now }
    requires lawful { IsLawful at.now.schema at.now.graph }
{
    parts_and_keys_in::<Brand>(alloc, at, changes, Blank::new(1))
}

fn parts_and_keys_in<L: Ledger>(
    alloc: Global,
    at: &Plain,
    changes: &[Change],
    blank: Blank,
) -> Mem<(Vec<Part>, Vec<ConflictKey>)>
    requires name { blank.name ≡ L.name }
    requires parts { blank.parts ≡ L.parts }
    requires some { 0 < blank.parts }
    requires fitting { AreFitting at.now.schema changes.now }
    requires lawful { IsLawful at.now.schema at.now.graph }
{
    let mut reads = Steps::<L>::new(blank);
    let parts = deltas_of(alloc, at, changes, &mut reads)?;
    let keys = conflict_keys(alloc, at, changes, &mut reads)?;
    Ok((parts, keys))
}

// The changes that checked statements stand for.
pub(crate) fn expanded(alloc: Global, at: &Plain, r: &Resolved, first: u64) -> Mem<Vec<Change>>
    requires room { first + length (new_names r.now) < 2 ^ 64 }
{
    expanded_in::<Brand>(alloc, at, r, first, Blank::new(1))
}

fn expanded_in<L: Ledger>(
    alloc: Global,
    at: &Plain,
    r: &Resolved,
    first: u64,
    blank: Blank,
) -> Mem<Vec<Change>>
    requires name { blank.name ≡ L.name }
    requires parts { blank.parts ≡ L.parts }
    requires some { 0 < blank.parts }
    requires room { first + length (new_names r.now) < 2 ^ 64 }
{
    let mut reads = Steps::<L>::new(blank);
    expand(alloc, at, r, first, &mut reads)
}

// What lists gain and lose where definitions are added or replaced.
pub(crate) fn alter_parts(alloc: Global, at: &Plain, newer: &Schema) -> Mem<Vec<Part>>
    requires lawful { IsLawful at.now.schema at.now.graph }
    ensures { IfOk result (λ v. AreGainsAndLosses at.now.schema at.now.graph (with_definitions at.now.schema newer.now) at.now.graph v.items) }
{
    alter_parts_in::<Brand>(alloc, at, newer, Blank::new(1))
}

fn alter_parts_in<L: Ledger>(
    alloc: Global,
    at: &Plain,
    newer: &Schema,
    blank: Blank,
) -> Mem<Vec<Part>>
    requires name { blank.name ≡ L.name }
    requires parts { blank.parts ≡ L.parts }
    requires some { 0 < blank.parts }
    requires lawful { IsLawful at.now.schema at.now.graph }
    ensures { IfOk result (λ v. AreGainsAndLosses at.now.schema at.now.graph (with_definitions at.now.schema newer.now) at.now.graph v.items) }
{
    let mut reads = Steps::<L>::new(blank);
    schema_deltas(alloc, at, newer, &mut reads)
}

// The nodes that a look-up finds.
pub(crate) fn nodes<S: Snapshot>(alloc: Global, snap: &S, lookup: &Lookup) -> Mem<Uids>
    requires answered { is_answered (S.declared snap.now) lookup.now ≡ true }
    ensures { IfOk result (λ uids. uids ≡ found_in (S.graph snap.now) lookup.now) }
{
    nodes_in::<S, Brand>(alloc, snap, lookup, Blank::new(1))
}

fn nodes_in<S: Snapshot, L: Ledger>(
    alloc: Global,
    snap: &S,
    lookup: &Lookup,
    blank: Blank,
) -> Mem<Uids>
    requires name { blank.name ≡ L.name }
    requires parts { blank.parts ≡ L.parts }
    requires some { 0 < blank.parts }
    requires answered { is_answered (S.declared snap.now) lookup.now ≡ true }
    ensures { IfOk result (λ uids. uids ≡ found_in (S.graph snap.now) lookup.now) }
{
    let mut reads = Steps::<L>::new(blank);
    match lookup {
        Lookup::Subjects { p, o } => snap.subjects(alloc, p.as_str(), *o, &mut reads),
        Lookup::Token { p, t } => snap.by_token(alloc, p.as_str(), t, &mut reads),
        Lookup::Range {
            p,
            tokenizer,
            low,
            high,
        } => snap.by_token_range(
            alloc,
            p.as_str(),
            *tokenizer,
            low.as_ref(),
            high.as_ref(),
            &mut reads,
        ),
        Lookup::Holders { p } => snap.holders(alloc, p.as_str(), &mut reads),
        Lookup::Count {
            p,
            reverse,
            low,
            high,
        } => snap.by_count(alloc, p.as_str(), *reverse, *low, *high, &mut reads),
    }
}
