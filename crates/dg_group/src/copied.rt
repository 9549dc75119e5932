// A group's copy of a tablet.
ghost use Rattle.std.specs.Prelude.{[], ◌≡◌, ◌<◌, ◌≤◌, ◌∷◌, ◌==◌, IfOk, IfErr, OnOk, map, filter, option_copied, length, true, false};
ghost use Rattle.std.specs.List.{AllByRecursion};
ghost use Rattle.std.specs.List.Sorted.{IsPartitionPoint};
ghost use Rattle.std.specs.Ordering.{is_lt};
ghost use Rattle.dg_values.specs.Ascending.{Ascends, with_one};
ghost use Rattle.dg_values.specs.Order.{text_cmp};
ghost use Rattle.dg_keys.specs.Keys.{AreParts};
ghost use Rattle.dg_list.specs.Lists.{newest_ts};
ghost use Rattle.dg_group.specs.Groups.{copied_cmp, Belongs, copy_of, is_copy_of, new_copy, copy_after, is_open_at, fresh_at, with_fresh};

use dg_keys::{Record, Tablet};
use dg_store::{Store, parts_of};
use dg_values::{Mem, OutOfMemory, Str};
use std::alloc::Global;

/// A copy of a tablet: its predicate, up to where its lists are merged, the last timestamp at which it is read where it was
/// moved away, and its lists.
#[derive(Drop)]
pub struct Copied {
    pub pred: Str,
    pub mark: u64,
    pub until: Option<u64>,
    pub store: Store,
}

// Whether the timestamp is one at which the copy is read still.
pub fn is_open_at(until: Option<u64>, ts: u64) -> bool
    ensures { result ≡ is_open_at until ts }
{
    match until {
        Some(until) => ts <= until,
        None => true,
    }
}

impl Copied {
    // The copy of a new tablet.
    fn of(alloc: Global, tablet: &Tablet) -> Mem<Copied>
        ensures { IfOk result (λ copy. copy ≡ new_copy tablet.now) }
    {
        Ok(Copied {
            pred: tablet.pred.copy(alloc)?,
            mark: 0,
            until: None,
            store: Store::new(alloc)?,
        })
    }

    // An equal copy, which shares its lists with this one.
    pub fn share(&self, alloc: Global) -> Mem<Copied>
        ensures { IfOk result (λ copy. copy ≡ self.now) }
    {
        Ok(Copied {
            pred: self.pred.copy(alloc)?,
            mark: self.mark,
            until: self.until,
            store: self.store.share()?,
        })
    }

    // The lists after a record, which share with these what the record leaves.
    fn store_after(&self, alloc: Global, rec: &Record) -> Mem<Store>
        requires parts { AreParts rec.now.parts }
        requires newer { AllByRecursion (λ e. newest_ts e.1 < rec.now.ts) self.now.store }
        requires some { 0 < rec.now.ts }
        ensures { IfOk result (λ store. store ≡ (copy_after rec.now self.now).store) }
    {
        if !is_open_at(self.until, rec.ts) {
            return self.store.share();
        }
        let parts = parts_of(rec.parts.as_slice(), &self.pred);
        if parts.is_empty() {
            return self.store.share();
        }
        self.store.with_parts(alloc, rec.ts, parts)
    }

    // The copy after a record.
    fn after(&self, alloc: Global, rec: &Record) -> Mem<Copied>
        requires parts { AreParts rec.now.parts }
        requires newer { AllByRecursion (λ e. newest_ts e.1 < rec.now.ts) self.now.store }
        requires some { 0 < rec.now.ts }
        ensures { IfOk result (λ copy. copy ≡ copy_after rec.now self.now) }
    {
        let store = self.store_after(alloc, rec)?;
        Ok(Copied {
            pred: self.pred.copy(alloc)?,
            mark: self.mark,
            until: self.until,
            store,
        })
    }
}

// Equal copies.
pub fn shared(alloc: Global, copies: &[Copied]) -> Mem<Vec<Copied>>
    ensures { IfOk result (λ shared. shared.items ≡ copies.now) }
{
    let mut shared = Vec::with_capacity(alloc, copies.len())?;
    for copy in copies {
        shared.push(copy.share(alloc)?)?;
    }
    Ok(shared)
}

// Equal copies, and those of new tablets.
pub fn with_new(alloc: Global, copies: &[Copied], number: u32, rec: &Record) -> Mem<Vec<Copied>>
    requires { Ascends copied_cmp copies.now }
    ensures copies { IfOk result (λ v. v.items ≡ with_fresh copies.now (fresh_at number rec.now)) }
    ensures ascend { IfOk result (λ v. Ascends copied_cmp v.items) }
{
    let mut copied = shared(alloc, copies)?;
    for tablet in rec.fresh.as_slice() {
        put_fresh(alloc, &mut copied, number, tablet)?;
    }
    Ok(copied)
}

// Adds the copy of a new tablet, where it is given to this group.
fn put_fresh(alloc: Global, copied: &mut Vec<Copied>, number: u32, tablet: &Tablet) -> Mem<()>
    requires { Ascends copied_cmp copied.old.items }
    ensures put { OnOk result (copied.new.items ≡ with_fresh copied.old.items (filter (λ t. t.group == number) (tablet.now ∷ []))) }
    ensures ascends { Ascends copied_cmp copied.new.items }
{
    if tablet.group == number {
        put_new(copied, Copied::of(alloc, tablet)?)
    } else {
        Ok(())
    }
}

// How many copies are of a predicate below this one.
pub fn below(copies: &[Copied], pred: &str) -> usize
    requires { Ascends copied_cmp copies.now }
    ensures within { result ≤ length copies.now }
    ensures point { IsPartitionPoint (λ copy. is_lt (text_cmp copy.pred pred.now) ≡ true) (λ copy. is_lt (text_cmp copy.pred pred.now) ≡ false) copies.now result }
{
    copies.partition_point(|copy| copy.pred.as_str().cmp(pred).is_lt())
}

// Where a copy of a copy's predicate stands, or else where the copy belongs. It looks by halves.
fn place_of(copies: &[Copied], copy: &Copied) -> Result<usize, usize>
    requires { Ascends copied_cmp copies.now }
    ensures there { OnOk result (with_one copied_cmp copies.now copy.now ≡ copies.now) }
    ensures missing { IfErr result (Belongs copies.now copy.now) }
{
    let place = below(copies, copy.pred.as_str());
    if place < copies.len() && is_of(&copies[place], copy.pred.as_str()) {
        Ok(place)
    } else {
        Err(place)
    }
}

// Adds a copy at its place, unless there is one of its predicate.
fn put_new(copies: &mut Vec<Copied>, copy: Copied) -> Mem<()>
    requires { Ascends copied_cmp copies.old.items }
    ensures put { OnOk result (copies.new.items ≡ with_one copied_cmp copies.old.items copy) }
    ensures ascends { Ascends copied_cmp copies.new.items }
{
    match place_of(copies.as_slice(), &copy) {
        Ok(_) => Ok(()),
        Err(place) => Ok(copies.insert(place, copy)?),
    }
}

// Whether a copy is of a predicate.
pub fn is_of(copy: &Copied, pred: &str) -> bool
    ensures { result ≡ is_copy_of pred.now copy.now }
{
    copy.pred.as_str().cmp(pred).is_eq()
}

// Copies after a record.
pub fn all_after(alloc: Global, copies: &[Copied], rec: &Record) -> Mem<Vec<Copied>>
    requires parts { AreParts rec.now.parts }
    requires newer { AllByRecursion (λ c. AllByRecursion (λ e. newest_ts e.1 < rec.now.ts) c.store) copies.now }
    requires some { 0 < rec.now.ts }
    ensures { IfOk result (λ v. v.items ≡ map (copy_after rec.now) copies.now) }
{
    let mut after = Vec::with_capacity(alloc, copies.len())?;
    for copy in copies {
        after.push(copy.after(alloc, rec)?)?;
    }
    Ok(after)
}

// The copy of a predicate, where there is one. It looks by halves.
pub fn find<'a>(copies: &'a [Copied], pred: &str) -> Option<&'a Copied>
    requires { Ascends copied_cmp copies.now }
    ensures { option_copied result ≡ copy_of copies.now pred.now }
{
    let place = below(copies, pred);
    if place < copies.len() && is_of(&copies[place], pred) {
        Some(&copies[place])
    } else {
        None
    }
}
