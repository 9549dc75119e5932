// Which group owns each tablet.
ghost use Rattle.std.specs.Prelude.{◌≡◌, ◌≤◌, ◌+◌, [], IfOk, OnOk, OnErr, find, fold, length, option_map, vec_len, vec_capacity};
ghost use Rattle.std.specs.Arc.{arc_value};
ghost use Rattle.dg_values.specs.Ascending.{Ascends, with_one};
ghost use Rattle.dg_values.specs.Order.{same_text};
ghost use Rattle.dg_keys.specs.Tablets.{tablet_cmp};
ghost use Rattle.dg_schema.specs.Definitions.{with_definitions};

use crate::fresh::copies;
use crate::named::tablet_of;
use dg_keys::Tablet;
use dg_schema::Schema;
use dg_sets::{in_order, place_of};
use dg_values::{Mem, OutOfMemory};
use std::alloc::{AllocError, Global};
use std::marker::Model;
use std::mem;
use std::sync::Arc;

// Up to so many tablets are put in one after the other; with more of them all are sorted.
const FEW: usize = 100;

/// Which group owns each tablet. Contracts see the tablets, ascending by predicate.
#[derive(Debug, Drop)]
pub struct Owners {
    alloc: Global,
    tablets: Vec<Tablet>,
}

impl Model for Owners {
    ghost use Rattle.std.specs.Prelude.{List};
    ghost use Rattle.dg_values.specs.Ascending.{Ascends};
    ghost use Rattle.dg_keys.specs.Tablets.{tablet_cmp};
    ghost use Rattle.dg_keys.specs.declared.record.Tablet.{Tablet};

    ghost Value = { List Tablet };

    ghost view = { λ o. o.tablets.items };

    ghost invariant = { λ o. Ascends tablet_cmp o.tablets.items };
}

/// Equal owners.
impl Clone for Owners {
    ghost is_clone = { λ owners copy. copy ≡ owners };

    fn clone(&self) -> Result<Owners, AllocError> {
        match copies(self.alloc, self.tablets.as_slice()) {
            Ok(tablets) => Ok(Owners {
                alloc: self.alloc,
                tablets,
            }),
            Err(_) => Err(AllocError),
        }
    }
}

impl Owners {
    /// The tablets, ascending by predicate.
    pub fn tablets(&self) -> &[Tablet]
        ensures items { result.now ≡ self.now }
        ensures ascend { Ascends tablet_cmp self.now }
    {
        self.tablets.as_slice()
    }

    /// The group that owns the tablet of a predicate. None exactly where it has no tablet. It looks by halves, and takes no
    /// memory.
    pub fn group_of(&self, pred: &str) -> Option<u32>
        ensures { result ≡ option_map (λ tablet. tablet.group) (find (λ tablet. same_text tablet.pred pred.now) self.now) }
    {
        match tablet_of(self.tablets.as_slice(), pred) {
            Some(tablet) => Some(tablet.group),
            None => None,
        }
    }

    // No tablet.
    pub fn none(alloc: Global) -> Owners
        ensures { result ≡ [] }
    {
        Owners {
            alloc,
            tablets: Vec::new(alloc),
        }
    }

    // Puts tablets among them, and definitions into a schema: both, or nothing where memory is wanting. A schema that
    // others share is copied first.
    pub(crate) fn put_with(
        &mut self,
        more: Vec<Tablet>,
        schema: &mut Arc<Schema>,
        newer: &Schema,
    ) -> Mem<()>
        ensures owners { OnOk result (self.new ≡ fold (with_one tablet_cmp) self.old more.items) }
        ensures schema { OnOk result (arc_value schema.new ≡ with_definitions (arc_value schema.old) newer.now) }
        ensures err_owners { OnErr result (self.new ≡ self.old) }
        ensures err_schema { OnErr result (arc_value schema.new ≡ arc_value schema.old) }
    {
        self.tablets.reserve(more.len())?;
        join_shared(schema, newer)?;
        put_all(self.alloc, &mut self.tablets, more);
        Ok(())
    }
}

// Puts definitions into a schema, which is copied first where others share it. After an error nothing has changed.
fn join_shared(schema: &mut Arc<Schema>, newer: &Schema) -> Mem<()>
    ensures ok { OnOk result (arc_value schema.new ≡ with_definitions (arc_value schema.old) newer.now) }
    ensures err { OnErr result (arc_value schema.new ≡ arc_value schema.old) }
{
    Arc::make_mut(schema)?.join(newer)
}

// Puts a tablet at its place, unless it is there. There is room for it.
fn put(tablets: &mut Vec<Tablet>, tablet: Tablet)
    requires ascend { Ascends tablet_cmp tablets.old.items }
    requires room { vec_len tablets.old + 1 ≤ vec_capacity tablets.old }
    ensures put { tablets.new.items ≡ with_one tablet_cmp tablets.old.items tablet }
    ensures ascends { Ascends tablet_cmp tablets.new.items }
    ensures len { vec_len tablets.new ≤ vec_len tablets.old + 1 }
    ensures capacity { vec_capacity tablets.old ≤ vec_capacity tablets.new }
{
    if let Err(place) = place_of(tablets.as_slice(), &tablet) {
        match tablets.insert(place, tablet) {
            Ok(()) => {}
            Err(_) => unreachable!(),
        }
    }
}

// Puts tablets at their places one after the other. There is room for them.
fn put_each(tablets: &mut Vec<Tablet>, more: Vec<Tablet>)
    requires ascend { Ascends tablet_cmp tablets.old.items }
    requires room { vec_len tablets.old + length more.items ≤ vec_capacity tablets.old }
    ensures put { tablets.new.items ≡ fold (with_one tablet_cmp) tablets.old.items more.items }
    ensures ascends { Ascends tablet_cmp tablets.new.items }
{
    for tablet in more {
        put(tablets, tablet);
    }
}

// The same by sorting all of them.
fn put_sorted(alloc: Global, tablets: &mut Vec<Tablet>, mut more: Vec<Tablet>)
    requires ascend { Ascends tablet_cmp tablets.old.items }
    requires room { vec_len tablets.old + length more.items ≤ vec_capacity tablets.old }
    ensures put { tablets.new.items ≡ fold (with_one tablet_cmp) tablets.old.items more.items }
    ensures ascends { Ascends tablet_cmp tablets.new.items }
{
    match tablets.append(&mut more) {
        Ok(()) => {}
        Err(_) => unreachable!(),
    }
    let all = mem::replace(tablets, Vec::new(alloc));
    *tablets = in_order(all);
}

// Puts tablets at their places, in the way that costs less. There is room for them.
fn put_all(alloc: Global, tablets: &mut Vec<Tablet>, more: Vec<Tablet>)
    requires ascend { Ascends tablet_cmp tablets.old.items }
    requires room { vec_len tablets.old + length more.items ≤ vec_capacity tablets.old }
    ensures put { tablets.new.items ≡ fold (with_one tablet_cmp) tablets.old.items more.items }
    ensures ascends { Ascends tablet_cmp tablets.new.items }
{
    if more.len() <= FEW {
        put_each(tablets, more);
    } else {
        put_sorted(alloc, tablets, more);
    }
}
