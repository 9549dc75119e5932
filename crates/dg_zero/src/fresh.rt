// The tablets of new predicates.
ghost use Rattle.std.specs.Prelude.{◌≡◌, ℕ, ◌+◌, ◌-◌, ◌^◌, ◌<◌, ◌≤◌, ◌++◌, ◌∷◌, [], List, length, map, nat_lt, slice_index, slice_set, IfOk, OnOk, if◌then◌else◌};
ghost use Rattle.std.specs.List.{list_any};
ghost use Rattle.dg_schema.specs.Definitions.{is_declared, AreDistinct};
ghost use Rattle.dg_zero.specs.declared.tablets.Place.{Place};
ghost use Rattle.dg_zero.specs.Altering.{IsFresh};
ghost use Rattle.dg_zero.specs.Places.{is_place_of, tally, fewest, groups, fresh, fresh_place};

use crate::tablets::{Phase, Place};
use dg_keys::Tablet;
use dg_schema::{PredDef, Schema};
use dg_values::{Mem, OutOfMemory};
use std::alloc::Global;

// The tablets that new definitions bring, and how many tablets each group owns with them.
#[derive(Drop)]
pub struct Fresh {
    pub tablets: Vec<Tablet>,
    pub counts: Vec<usize>,
}

// The number of tablets of each group where there is none.
pub fn no_counts(alloc: Global, count: u32) -> Mem<Vec<usize>>
    ensures { IfOk result (λ counts. counts.items ≡ tally count []) }
{
    let mut counts = Vec::new(alloc);
    for _group in 0..count {
        counts.push(0)?;
    }
    Ok(counts)
}

// How many tablets the group owns.
fn owned(counts: &[usize], group: u32) -> usize
    requires least { 1 ≤ group }
    requires most { group ≤ length counts.now }
    ensures { result ≡ slice_index counts.now (group - 1) }
{
    counts[group as usize - 1]
}

// Of two groups the one with fewer tablets, or else the second.
fn lesser(counts: &[usize], group: u32, best: u32) -> u32
    requires group_least { 1 ≤ group }
    requires group_most { group ≤ length counts.now }
    requires best_least { 1 ≤ best }
    requires best_most { best ≤ length counts.now }
    ensures { result ≡ (if nat_lt (slice_index counts.now (group - 1)) (slice_index counts.now (best - 1)) then group else best) }
{
    if owned(counts, group) < owned(counts, best) {
        group
    } else {
        best
    }
}

// The group from 1 to `count` that owns the fewest tablets, of those the lowest.
fn fewest(counts: &[usize], count: u32) -> u32
    requires some { 1 ≤ count }
    requires counted { length counts.now ≡ count }
    ensures least { 1 ≤ result }
    ensures most { result ≤ count }
    ensures fewest { (places : List Place) → counts.now ≡ tally count places → result ≡ fewest places (groups count) }
{
    let mut best = 1;
    for index in 0..count {
        best = lesser(counts, index + 1, best);
    }
    best
}

// One tablet more at a group.
fn raise(counts: &mut Vec<usize>, group: u32)
    requires least { 1 ≤ group }
    requires most { group ≤ length counts.old.items }
    requires below { slice_index counts.old.items (group - 1) + 1 < 2 ^ 64 }
    ensures { counts.new.items ≡ slice_set counts.old.items (group - 1) (slice_index counts.old.items (group - 1) + 1) }
{
    let at = group as usize - 1;
    counts[at] += 1;
}

// Adds the tablet of a definition whose predicate isn't declared, at the group with the fewest. All those before are
// `places` and what was made.
fn add_fresh(
    alloc: Global,
    count: u32,
    declared: &Schema,
    places: &[Place],
    made: &mut Fresh,
    definition: &PredDef,
) -> Mem<()>
    requires some { 1 ≤ count }
    requires few { length places.now < 2 ^ 63 }
    requires counted { made.old.counts.items ≡ tally count (places.now ++ map fresh_place made.old.tablets.items) }
    requires named { list_any (is_place_of definition.now.name) (places.now ++ map fresh_place made.old.tablets.items) ≡ is_declared declared.now definition.now.name }
    ensures tablets { OnOk result (made.new.tablets.items ≡ made.old.tablets.items ++ fresh count (places.now ++ map fresh_place made.old.tablets.items) (definition.now ∷ [])) }
    ensures counts { OnOk result (made.new.counts.items ≡ tally count (places.now ++ map fresh_place made.new.tablets.items)) }
{
    if declared.lookup(definition.name.as_str()).is_some() {
        return Ok(());
    }
    let group = fewest(made.counts.as_slice(), count);
    let pred = definition.name.copy(alloc)?;
    made.tablets.push(Tablet { pred, group })?;
    raise(&mut made.counts, group);
    Ok(())
}

// The tablets that new definitions bring, in their order, each at the group with the fewest. `places` are the tablets of
// the declared predicates, and `counts` how many of them each group owns.
pub fn fresh_tablets(
    alloc: Global,
    count: u32,
    declared: &Schema,
    places: &[Place],
    counts: &[usize],
    newer: &[PredDef],
) -> Mem<Fresh>
    requires some { 1 ≤ count }
    requires few { length places.now < 2 ^ 63 }
    requires distinct { AreDistinct newer.now }
    requires counted { counts.now ≡ tally count places.now }
    requires named { (pred : List ℕ) → list_any (is_place_of pred) places.now ≡ is_declared declared.now pred }
    ensures { IfOk result (IsFresh count places.now newer.now) }
{
    let counts = Vec::from_slice(alloc, counts)?;
    let mut made = Fresh {
        tablets: Vec::new(alloc),
        counts,
    };
    for definition in newer {
        add_fresh(alloc, count, declared, places, &mut made, definition)?;
    }
    Ok(made)
}

// Copies of tablets.
pub fn copies(alloc: Global, tablets: &[Tablet]) -> Mem<Vec<Tablet>>
    ensures { IfOk result (λ copies. copies.items ≡ tablets.now) }
{
    let mut copies = Vec::with_capacity(alloc, tablets.len())?;
    for tablet in tablets {
        copies.push(Tablet {
            pred: tablet.pred.copy(alloc)?,
            group: tablet.group,
        })?;
    }
    Ok(copies)
}

// The places of new tablets, each at rest at its group.
pub fn places_of(alloc: Global, tablets: &[Tablet]) -> Mem<Vec<Place>>
    ensures { IfOk result (λ places. places.items ≡ map fresh_place tablets.now) }
{
    let mut places = Vec::with_capacity(alloc, tablets.len())?;
    for tablet in tablets {
        places.push(Place {
            pred: tablet.pred.copy(alloc)?,
            group: tablet.group,
            phase: Phase::Idle,
            to: tablet.group,
        })?;
    }
    Ok(places)
}
