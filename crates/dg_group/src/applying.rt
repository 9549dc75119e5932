// What a record makes of a group's copies. A record of one part changes one copy in place.
ghost use Rattle.std.specs.Prelude.{[], ◌≡◌, ◌<◌, ◌∷◌, OnOk, OnErr, IfSome, IfNone, None, map, true};
ghost use Rattle.std.specs.Arc.{arc_value};
ghost use Rattle.std.specs.List.{AllByRecursion};
ghost use Rattle.dg_values.specs.Ascending.{Ascends};
ghost use Rattle.dg_delta.specs.Ops.{op_cmp};
ghost use Rattle.dg_keys.specs.Keys.{AreParts, pred_of};
ghost use Rattle.dg_list.specs.Lists.{newest_ts};
ghost use Rattle.dg_store.specs.Stores.{list_at};
ghost use Rattle.dg_group.specs.Groups.{copied_cmp, copy_of, is_copy_of, copy_after, fresh_at, with_fresh, IsOnly};

use crate::copied::{Copied, all_after, below, is_of, is_open_at, shared, with_new};
use dg_keys::{Part, Record};
use dg_values::{Mem, OutOfMemory};
use std::alloc::Global;
use std::sync::Arc;

impl Copied {
    // Adds the one part of a record to the lists, where they are read still.
    fn put(&mut self, alloc: Global, rec: &Record, part: &Part) -> Mem<()>
        requires one { rec.now.parts ≡ part.now ∷ [] }
        requires own { is_copy_of (pred_of part.now.key) self.old ≡ true }
        requires ops { Ascends op_cmp part.now.ops }
        requires newer { newest_ts (list_at part.now.key self.old.store) < rec.now.ts }
        ensures ok { OnOk result (self.new ≡ copy_after rec.now self.old) }
        ensures err { OnErr result (self.new ≡ self.old) }
    {
        if is_open_at(self.until, rec.ts) {
            self.store.put_part(alloc, rec.ts, part)
        } else {
            Ok(())
        }
    }
}

// Where the copy of a part's predicate stands, if there is one. It looks by halves.
fn place_for(copies: &[Copied], part: &Part) -> Option<usize>
    requires { Ascends copied_cmp copies.now }
    ensures there { IfSome result (IsOnly (pred_of part.now.key) copies.now) }
    ensures none { IfNone result (copy_of copies.now (pred_of part.now.key) ≡ None) }
{
    let pred = part.key.pred().as_str();
    let place = below(copies, pred);
    if place < copies.len() && is_of(&copies[place], pred) {
        Some(place)
    } else {
        None
    }
}

// Makes copies those after a record of one part.
fn put_one(alloc: Global, copies: &mut Vec<Copied>, rec: &Record, part: &Part) -> Mem<()>
    requires ascend { Ascends copied_cmp copies.old.items }
    requires one { rec.now.parts ≡ part.now ∷ [] }
    requires parts { AreParts rec.now.parts }
    requires newer { AllByRecursion (λ c. AllByRecursion (λ e. newest_ts e.1 < rec.now.ts) c.store) copies.old.items }
    requires some { 0 < rec.now.ts }
    ensures ok { OnOk result (copies.new.items ≡ map (copy_after rec.now) copies.old.items) }
    ensures err { OnErr result (copies.new.items ≡ copies.old.items) }
{
    match place_for(copies.as_slice(), part) {
        Some(place) => copies[place].put(alloc, rec, part),
        None => Ok(()),
    }
}

// The same of copies that a pin may share: then others take their place.
fn put_part(alloc: Global, copies: &mut Arc<Vec<Copied>>, rec: &Record, part: &Part) -> Mem<()>
    requires ascend { Ascends copied_cmp (arc_value copies.old).items }
    requires one { rec.now.parts ≡ part.now ∷ [] }
    requires parts { AreParts rec.now.parts }
    requires newer { AllByRecursion (λ c. AllByRecursion (λ e. newest_ts e.1 < rec.now.ts) c.store) (arc_value copies.old).items }
    requires some { 0 < rec.now.ts }
    ensures ok { OnOk result ((arc_value copies.new).items ≡ map (copy_after rec.now) (arc_value copies.old).items) }
    ensures err { OnErr result ((arc_value copies.new).items ≡ (arc_value copies.old).items) }
{
    match Arc::get_mut(copies) {
        Some(copies) => put_one(alloc, copies, rec, part),
        None => put_beside(alloc, copies, rec, part),
    }
}

// The same, in others beside them.
fn put_beside(alloc: Global, copies: &mut Arc<Vec<Copied>>, rec: &Record, part: &Part) -> Mem<()>
    requires ascend { Ascends copied_cmp (arc_value copies.old).items }
    requires one { rec.now.parts ≡ part.now ∷ [] }
    requires parts { AreParts rec.now.parts }
    requires newer { AllByRecursion (λ c. AllByRecursion (λ e. newest_ts e.1 < rec.now.ts) c.store) (arc_value copies.old).items }
    requires some { 0 < rec.now.ts }
    ensures ok { OnOk result ((arc_value copies.new).items ≡ map (copy_after rec.now) (arc_value copies.old).items) }
    ensures err { OnErr result ((arc_value copies.new).items ≡ (arc_value copies.old).items) }
{
    let mut after = shared(alloc, copies.as_slice())?;
    put_one(alloc, &mut after, rec, part)?;
    *copies = Arc::new(alloc, after)?;
    Ok(())
}

// Makes copies those after a record, with those of new tablets of this group. After an error they are as they were.
pub fn put_record(
    alloc: Global,
    copies: &mut Arc<Vec<Copied>>,
    number: u32,
    rec: &Record,
) -> Mem<()>
    requires ascend { Ascends copied_cmp (arc_value copies.old).items }
    requires parts { AreParts rec.now.parts }
    requires newer { AllByRecursion (λ c. AllByRecursion (λ e. newest_ts e.1 < rec.now.ts) c.store) (with_fresh (arc_value copies.old).items (fresh_at number rec.now)) }
    requires some { 0 < rec.now.ts }
    ensures ok { OnOk result ((arc_value copies.new).items ≡ map (copy_after rec.now) (with_fresh (arc_value copies.old).items (fresh_at number rec.now))) }
    ensures err { OnErr result ((arc_value copies.new).items ≡ (arc_value copies.old).items) }
{
    if rec.fresh.as_slice().is_empty() {
        if let [part] = rec.parts.as_slice() {
            return put_part(alloc, copies, rec, part);
        }
    }
    let all = with_new(alloc, copies.as_slice(), number, rec)?;
    let after = all_after(alloc, all.as_slice(), rec)?;
    *copies = Arc::new(alloc, after)?;
    Ok(())
}
