// The state, and the calls that begin, end and read.
ghost use Rattle.std.specs.Prelude.{◌≡◌, ◌-◌, ◌^◌, ◌<◌, ◌≤◌, [], true, IfOk, IfErr, OnOk, OnErr, option_copied, if◌then◌else◌};
ghost use Rattle.std.specs.Arc.{arc_value};
ghost use Rattle.dg_oracle.specs.Commits.{is_active};
ghost use Rattle.dg_zero.specs.Counters.{next, active, starts_of, is_active_of};
ghost use Rattle.dg_zero.specs.Legal.{IsLegal};
ghost use Rattle.dg_zero.specs.Pasts.{spent};
ghost use Rattle.dg_zero.specs.Records.{next_record};
ghost use Rattle.dg_zero.specs.States.{and_then, owners, IsBeginFault};
ghost use Rattle.dg_zero.specs.Worlds.{schema};

use crate::appending::append;
use crate::chain::{Chain, What};
use crate::fresh::no_counts;
use crate::past::Past;
use crate::stream::record_after;
use crate::tablets::Place;
use crate::{Event, Owners, Slip, ZeroFault};
use dg_keys::{ConflictKey, Record};
use dg_oracle::Oracle;
use dg_schema::Schema;
use dg_turn::Logged;
use dg_values::{Mem, OutOfMemory};
use std::alloc::Global;
use std::marker::Model;
use std::sync::Arc;

/// All that happened, and where it leads. Contracts see the number of groups and the history, which is legal.
///
/// The history stands in memory, its records in a list of their own; the keys of its commits, which their changes tell, stand in
/// the oracle alone. Beside it stand the next timestamp and the active starts (in the oracle), the next node, the present
/// schema and owners, which a begin shares, the tablets, and how many of them each group owns.
#[derive(Drop)]
pub struct ZeroState {
    pub(crate) alloc: Global,
    pub(crate) groups: u32,
    pub(crate) oracle: Oracle<ConflictKey>,
    pub(crate) next_uid: u64,
    pub(crate) schema: Arc<Schema>,
    pub(crate) tablets: Vec<Place>,
    pub(crate) owners: Arc<Owners>,
    pub(crate) past: Past,
    pub(crate) counts: Vec<usize>,
}

impl Model for ZeroState {
    ghost use Rattle.std.specs.Arc.{arc_value};
    ghost use Rattle.dg_zero.specs.Pasts.{entries};
    ghost use Rattle.dg_zero.specs.States.{Zero, IsKept};

    ghost Value = { Zero };

    ghost view = { λ z. record { groups = z.groups; history = entries z.past } };

    ghost invariant = { λ z. IsKept z.groups z.oracle z.next_uid (arc_value z.schema) z.tablets.items (arc_value z.owners) (entries z.past) z.counts.items };
}

impl Logged for ZeroState {
    type Entry = crate::Entry;

    ghost history = { λ z. z.history };

    ghost author = { λ e. e.author };
}

/// What a transaction begins with: its start, and the schema and the owners there.
#[derive(Drop)]
pub struct Begun {
    pub start: u64,
    pub schema: Arc<Schema>,
    pub owners: Arc<Owners>,
}

impl ZeroState {
    /// Nothing has happened, with so many groups.
    pub fn new(alloc: Global, groups: u32) -> Mem<ZeroState>
        requires least { 1 ≤ groups }
        requires most { groups ≤ 16 }
        ensures new { IfOk result (λ z. z ≡ record { groups = groups; history = [] }) }
    {
        ZeroState::starting_at(alloc, groups, 1)
    }

    /// So many groups, and `next` is the next timestamp: those below it were drawn already, by transactions that changed
    /// nothing. Their entries are seen, and take no memory.
    pub fn starting_at(alloc: Global, groups: u32, next: u64) -> Mem<ZeroState>
        requires least { 1 ≤ groups }
        requires most { groups ≤ 16 }
        requires first { 1 ≤ next }
        requires last { next ≤ 2 ^ 62 }
        ensures new { IfOk result (λ z. z ≡ record { groups = groups; history = spent (next - 1) }) }
    {
        Ok(ZeroState {
            alloc,
            groups,
            oracle: Oracle::starting_at(alloc, next)?,
            next_uid: 1,
            schema: Arc::new(alloc, Schema::new(alloc))?,
            tablets: Vec::new(alloc),
            owners: Arc::new(alloc, Owners::none(alloc))?,
            past: Past {
                chain: Chain::Spent(next - 1),
                records: Vec::new(alloc),
            },
            counts: no_counts(alloc, groups)?,
        })
    }

    // What a transaction begins with, but for its start: nothing is copied.
    fn shared(&self) -> Mem<(Arc<Schema>, Arc<Owners>)>
        ensures schema { IfOk result (λ s. arc_value s.0 ≡ schema self.now.history) }
        ensures owners { IfOk result (λ s. arc_value s.1 ≡ owners self.now.history) }
    {
        let schema = Arc::try_clone(&self.schema)?;
        let owners = Arc::try_clone(&self.owners)?;
        Ok((schema, owners))
    }

    /// Draws a start, whose transaction is active from then on. After an error nothing has changed, and a look is
    /// appended.
    pub fn begin(&mut self, slip: Slip) -> Result<Begun, ZeroFault>
        ensures start { IfOk result (λ b. b.start ≡ next self.old.history) }
        ensures schema { IfOk result (λ b. arc_value b.schema ≡ schema self.old.history) }
        ensures owners { IfOk result (λ b. arc_value b.owners ≡ owners self.old.history) }
        ensures ok { OnOk result (self.new ≡ and_then self.old slip (Event.Begin (next self.old.history))) }
        ensures not_spent { OnOk result (next self.old.history < 2 ^ 62) }
        ensures fault { IfErr result (IsBeginFault (next self.old.history)) }
        ensures err { OnErr result (self.new ≡ and_then self.old slip Event.Look) }
        ensures legal { IsLegal self.new.groups self.new.history }
    {
        let Ok((schema, owners)) = self.shared() else {
            append(&mut self.past, slip, What::Look);
            return Err(ZeroFault::OutOfMemory);
        };
        match self.oracle.begin() {
            Ok(start) => {
                append(&mut self.past, slip, What::Begin { start });
                Ok(Begun {
                    start,
                    schema,
                    owners,
                })
            }
            Err(fault) => {
                append(&mut self.past, slip, What::Look);
                Err(ZeroFault::from(fault))
            }
        }
    }

    /// Ends a transaction, and says whether it was active; where it wasn't, a look is appended. It takes no memory.
    pub fn end(&mut self, slip: Slip, start: u64) -> bool
        requires author { is_active (starts_of (active self.old.history)) start ≡ true → is_active_of (active self.old.history) start slip ≡ true }
        ensures was_active { result ≡ is_active (starts_of (active self.old.history)) start }
        ensures history { self.new ≡ and_then self.old slip (if result then Event.End start else Event.Look) }
        ensures legal { IsLegal self.new.groups self.new.history }
    {
        if self.oracle.end(start) {
            append(&mut self.past, slip, What::End { start });
            true
        } else {
            append(&mut self.past, slip, What::Look);
            false
        }
    }

    /// Changes nothing, and appends a look. It takes no memory.
    pub fn look(&mut self, slip: Slip)
        ensures history { self.new ≡ and_then self.old slip Event.Look }
        ensures legal { IsLegal self.new.groups self.new.history }
    {
        append(&mut self.past, slip, What::Look);
    }

    /// The first record above a timestamp; none exactly where there is none. It appends nothing, takes no memory and goes
    /// by halves over the records.
    pub fn next_record(&self, after: u64) -> Option<&Record>
        ensures { option_copied result ≡ next_record self.now.history after }
    {
        record_after(self.past.records.as_slice(), after)
    }
}
