// The call that adds or replaces definitions.
ghost use Rattle.std.specs.Prelude.{◌≡◌, ℕ, ◌+◌, ◌^◌, ◌<◌, ◌≤◌, [], ◌++◌, List, length, None, IfOk, IfErr, OnOk, OnErr, fold};
ghost use Rattle.std.specs.Arc.{arc_value};
ghost use Rattle.std.specs.List.{list_any};
ghost use Rattle.std.specs.Vec.{vec_len, vec_capacity};
ghost use Rattle.dg_values.specs.Ascending.{with_one};
ghost use Rattle.dg_keys.specs.declared.record.Record.{Record};
ghost use Rattle.dg_keys.specs.Tablets.{tablet_cmp};
ghost use Rattle.dg_oracle.specs.Commits.{two_drawn};
ghost use Rattle.dg_schema.specs.Definitions.{is_declared, with_definitions};
ghost use Rattle.dg_zero.specs.declared.entry.Entry.{Entry};
ghost use Rattle.dg_zero.specs.Chains.{count_of, event_of};
ghost use Rattle.dg_zero.specs.Counters.{next, active};
ghost use Rattle.dg_zero.specs.Legal.{IsLegal};
ghost use Rattle.dg_zero.specs.Places.{is_place_of, tablets, tally};
ghost use Rattle.dg_zero.specs.Altering.{IsAltered};
ghost use Rattle.dg_zero.specs.Pasts.{entries};
ghost use Rattle.dg_zero.specs.States.{and_then, alter_of, first_held, AreAlterParts, IsAlterFault, KeepKinds};

use crate::appending::{append, append_with, make_room};
use crate::chain::{Alteration, What};
use crate::fresh::{copies, fresh_tablets, places_of};
use crate::past::Past;
use crate::tablets::Place;
use crate::{Event, Owners, Slip, ZeroFault, ZeroState};
use dg_keys::{ConflictKey, Part, Record, Tablet};
use dg_oracle::Oracle;
use dg_schema::Schema;
use dg_values::{List, Mem, OutOfMemory};
use std::alloc::Global;
use std::sync::Arc;

// The last start that an alter can have: its own timestamp is the last of all.
const LAST_START: u64 = (1 << 62) - 2;

// What an alter makes before anything changes: the definitions and the tablets for its entry, the tablets to be added, and
// how many each group owns then.
#[derive(Drop)]
pub struct Altered {
    newer: Schema,
    fresh: List<Tablet>,
    places: Vec<Place>,
    owners: Vec<Tablet>,
    counts: Vec<usize>,
}

impl ZeroState {
    /// Adds or replaces definitions at two new timestamps, of which the second is the alter's own, and answers both. The
    /// tablets of new predicates go, in the order of the definitions, each to the group with the fewest. It is refused
    /// where a transaction is active, with the least start; then where a tablet is held; then where two timestamps aren't
    /// left. After an error nothing has changed, and a look is appended.
    pub fn alter(
        &mut self,
        slip: Slip,
        newer: &Schema,
        parts: List<Part>,
    ) -> Result<(u64, u64), ZeroFault>
        requires author { slip ≡ 0 }
        requires parts { AreAlterParts self.old.history newer.now parts }
        requires kinds { KeepKinds self.old.history newer.now }
        ensures drawn { IfOk result (λ drawn. (drawn.0 ≡ next self.old.history) × (drawn.1 ≡ next self.old.history + 1)) }
        ensures ok { OnOk result (self.new ≡ and_then self.old slip (alter_of self.old newer.now parts)) }
        ensures none_active { OnOk result (active self.old.history ≡ []) }
        ensures none_held { OnOk result (first_held (tablets self.old.history) newer.now ≡ None) }
        ensures not_spent { OnOk result (next self.old.history + 1 < 2 ^ 62) }
        ensures fault { IfErr result (IsAlterFault self.old.history newer.now) }
        ensures err { OnErr result (self.new ≡ and_then self.old slip Event.Look) }
        ensures legal { IsLegal self.new.groups self.new.history }
    {
        let altered = match self.prepare(newer) {
            Ok(altered) => altered,
            Err(fault) => {
                append(&mut self.past, slip, What::Look);
                return Err(fault);
            }
        };
        let Ok(room) = alter_room(self.alloc, &mut self.past) else {
            append(&mut self.past, slip, What::Look);
            return Err(ZeroFault::OutOfMemory);
        };
        let Altered {
            newer: copied,
            fresh,
            places,
            owners,
            counts,
        } = altered;
        let added = add_all(
            &mut self.schema,
            &mut self.owners,
            &mut self.tablets,
            newer,
            owners,
            places,
        );
        match added {
            Ok(()) => {
                self.counts = counts;
                let (start, ts) = draw(&mut self.oracle);
                let what = altered_what(room, start, copied);
                append_with(&mut self.past, slip, what, Record { ts, fresh, parts });
                Ok((start, ts))
            }
            Err(OutOfMemory) => {
                append(&mut self.past, slip, What::Look);
                Err(ZeroFault::OutOfMemory)
            }
        }
    }

    // What an alter makes, unless a transaction is active or two timestamps aren't left.
    fn prepare(&self, newer: &Schema) -> Result<Altered, ZeroFault>
        ensures ok { IfOk result (IsAltered self.now.groups (tablets self.now.history) newer.now) }
        ensures none_active { OnOk result (active self.now.history ≡ []) }
        ensures not_spent { OnOk result (next self.now.history + 1 < 2 ^ 62) }
        ensures fault { IfErr result (IsAlterFault self.now.history newer.now) }
    {
        if let Some(start) = self.oracle.first_active() {
            return Err(ZeroFault::Pending { start });
        }
        let next = self.oracle.next();
        if next > LAST_START {
            return Err(ZeroFault::TimestampsSpent { next });
        }
        Ok(make_altered(
            self.alloc,
            self.groups,
            &self.schema,
            self.tablets.as_slice(),
            self.counts.as_slice(),
            newer,
        )?)
    }
}

// What an alter makes. `places` are the tablets of the declared predicates, and `counts` how many of them each group owns.
fn make_altered(
    alloc: Global,
    groups: u32,
    declared: &Schema,
    places: &[Place],
    counts: &[usize],
    newer: &Schema,
) -> Mem<Altered>
    requires some { 1 ≤ groups }
    requires few { length places.now < 2 ^ 63 }
    requires counted { counts.now ≡ tally groups places.now }
    requires named { (pred : List ℕ) → list_any (is_place_of pred) places.now ≡ is_declared declared.now pred }
    ensures { IfOk result (IsAltered groups places.now newer.now) }
{
    let made = fresh_tablets(alloc, groups, declared, places, counts, newer.definitions())?;
    let newer = newer.copy()?;
    let fresh = copies(alloc, made.tablets.as_slice())?;
    let places = places_of(alloc, made.tablets.as_slice())?;
    Ok(Altered {
        newer,
        fresh: List::from_vec(fresh),
        places,
        owners: made.tablets,
        counts: made.counts,
    })
}

// Adds definitions to the schema, and tablets to their owners and to the others: all of it, or nothing where memory is
// wanting. A schema or owners that others share are copied first.
fn add_all(
    schema: &mut Arc<Schema>,
    owners: &mut Arc<Owners>,
    tablets: &mut Vec<Place>,
    newer: &Schema,
    more: Vec<Tablet>,
    mut places: Vec<Place>,
) -> Mem<()>
    ensures schema { OnOk result (arc_value schema.new ≡ with_definitions (arc_value schema.old) newer.now) }
    ensures owners { OnOk result (arc_value owners.new ≡ fold (with_one tablet_cmp) (arc_value owners.old) more.items) }
    ensures tablets { OnOk result (tablets.new.items ≡ tablets.old.items ++ places.items) }
    ensures err_schema { OnErr result (arc_value schema.new ≡ arc_value schema.old) }
    ensures err_owners { OnErr result (arc_value owners.new ≡ arc_value owners.old) }
    ensures err_tablets { OnErr result (tablets.new.items ≡ tablets.old.items) }
{
    tablets.reserve(places.len())?;
    put_shared(schema, owners, newer, more)?;
    match tablets.append(&mut places) {
        Ok(()) => Ok(()),
        Err(_) => unreachable!(),
    }
}

// Adds definitions to the schema, and tablets to their owners: both, or nothing where memory is wanting.
fn put_shared(
    schema: &mut Arc<Schema>,
    owners: &mut Arc<Owners>,
    newer: &Schema,
    more: Vec<Tablet>,
) -> Mem<()>
    ensures schema { OnOk result (arc_value schema.new ≡ with_definitions (arc_value schema.old) newer.now) }
    ensures owners { OnOk result (arc_value owners.new ≡ fold (with_one tablet_cmp) (arc_value owners.old) more.items) }
    ensures err_schema { OnErr result (arc_value schema.new ≡ arc_value schema.old) }
    ensures err_owners { OnErr result (arc_value owners.new ≡ arc_value owners.old) }
{
    Arc::make_mut(owners)?.put_with(more, schema, newer)
}

// Draws two timestamps, which are left.
fn draw(oracle: &mut Oracle<ConflictKey>) -> (u64, u64)
    requires left { oracle.old.next + 1 < 2 ^ 62 }
    ensures start { result.0 ≡ oracle.old.next }
    ensures ts { result.1 ≡ oracle.old.next + 1 }
    ensures drawn { oracle.new ≡ two_drawn oracle.old }
{
    match oracle.draw_two() {
        Some(drawn) => drawn,
        None => unreachable!(),
    }
}

// Room for the entry and the record of an alter.
fn alter_room(alloc: Global, past: &mut Past) -> Mem<Box<Alteration>>
    ensures same { entries past.new ≡ entries past.old }
    ensures room { OnOk result (vec_len past.new.records < vec_capacity past.new.records) }
{
    make_room(past)?;
    let newer = Schema::new(alloc);
    Ok(Box::new(alloc, Alteration { start: 0, newer })?)
}

// The entry of an alter, but for its record. It takes no memory.
fn altered_what(mut room: Box<Alteration>, start: u64, newer: Schema) -> What
    ensures recorded { count_of result ≡ 1 }
    ensures event { (before : List Entry) (written : Record) → event_of before written result ≡ Event.Alter start newer written }
{
    room.start = start;
    room.newer = newer;
    What::Alter(room)
}
