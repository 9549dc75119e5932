// Transactions.
ghost use Rattle.std.specs.Prelude.{[], ◌≡◌, ◌<◌, ◌++◌, ◌↔◌, List, IfOk, IfErr, OnOk, OnErr, IsTrue};
ghost use Rattle.std.specs.Arc.{arc_value};
ghost use Rattle.dg_graph.specs.declared.change.Triple.{Triple};
ghost use Rattle.dg_edges.specs.Deltas.{AreFitting};
ghost use Rattle.dg_txn.specs.Pins.{ArePinsOf};

use crate::gains::Gains;
use crate::overlay::read_over;
use crate::reads::stepped;
use crate::{Present, lookups};
use dg_graph::{Change, Snapshot};
use dg_group::Pinned;
use dg_keys::Key;
use dg_schema::Schema;
use dg_tokens::IndexToken;
use dg_uids::Uids;
use dg_values::{Mem, OutOfMemory, Posting, Steps, Str, Tokenizer, Value};
use dg_zero::{Begun, Slip};
use std::alloc::Global;
use std::marker::{Brand, Model};
use std::sync::ledger::{Blank, Ledger};

/// An open transaction. Contracts see its start, the schema and the graph there, its own changes, and its author.
#[derive(Drop)]
pub struct Txn {
    pub(crate) start: u64,
    pub(crate) base: Present,
    pub(crate) own: Vec<Change>,
    // What lists gain and lose by the changes.
    pub(crate) gains: Gains,
    end: Slip,
}

impl Model for Txn {
    ghost use Rattle.dg_txn.specs.Own.{Transaction, AreOwn};

    ghost Value = { Transaction };

    ghost view = { λ t. record { start = t.start; schema = t.base.schema; base = t.base.graph; own = t.own.items; author = t.end } };

    ghost invariant = { λ t. AreOwn t.base.schema t.base.graph t.own.items t.gains };
}

impl Txn {
    /// The transaction that began so, without changes. Its graph is the one that the pins hold at the start. A slip for its
    /// end is kept, and handed back where memory is wanting; the start is still active then.
    pub fn make(
        alloc: Global,
        begun: Begun,
        pins: Vec<Pinned>,
        end: Slip,
    ) -> Result<Txn, (OutOfMemory, Slip)>
        requires pins { (graph : List Triple) × ArePinsOf begun.start (arc_value begun.schema) (arc_value begun.owners) pins.items graph }
        ensures made { (graph : List Triple) → ArePinsOf begun.start (arc_value begun.schema) (arc_value begun.owners) pins.items graph → IfOk result (λ txn. txn ≡ record { start = begun.start; schema = arc_value begun.schema; base = graph; own = []; author = end }) }
        ensures err { IfErr result (λ e. e.1 ≡ end) }
    {
        let gains = match Gains::none(alloc) {
            Ok(gains) => gains,
            Err(want) => return Err((want, end)),
        };
        let Begun {
            start,
            schema,
            owners,
        } = begun;
        Ok(Txn {
            start,
            base: Present::of(schema, owners, pins, start),
            own: Vec::new(alloc),
            gains,
            end,
        })
    }

    /// Adds changes behind its own, under any schema. It costs by these changes and by what it reads: the list of each subject
    /// that they change, once, and, where a predicate is declared with `@reverse` and `@count`, the list of each node whose
    /// subjects change, once. No index is read. After an error nothing has changed.
    pub fn add(&mut self, alloc: Global, mut changes: Vec<Change>) -> Mem<()>
        requires fitting { AreFitting self.old.schema changes.items }
        ensures ok { OnOk result (self.new ≡ record { start = self.old.start; schema = self.old.schema; base = self.old.base; own = self.old.own ++ changes.items; author = self.old.author }) }
        ensures err { OnErr result (self.new ≡ self.old) }
    {
        let gains = stepped::<Brand>(alloc, self, changes.as_slice(), Blank::new(1))?;
        self.own.append(&mut changes)?;
        self.gains = gains;
        Ok(())
    }

    /// Whether it has no change. It takes no memory.
    pub fn is_empty(&self) -> bool
        ensures { IsTrue result ↔ (self.now.own ≡ []) }
    {
        self.own.is_empty()
    }

    /// Its start, and the slip for its end. It takes no memory.
    pub fn close(self) -> (u64, Slip)
        ensures start { result.0 ≡ self.start }
        ensures author { result.1 ≡ self.author }
    {
        let Txn { start, end, .. } = self;
        (start, end)
    }
}

impl Snapshot for Txn {
    ghost use Rattle.dg_txn.specs.Own.{graph};

    ghost graph = { λ t. graph t };

    ghost declared = { λ t. t.schema };

    fn schema(&self) -> &Schema {
        self.base.schema()
    }

    fn objects<L: Ledger>(
        &self,
        alloc: Global,
        p: &str,
        s: u64,
        reads: &mut Steps<L>,
    ) -> Mem<Vec<Posting>> {
        let p = Str::from_str(alloc, p)?;
        read_over(alloc, &self.base, &self.gains, &Key::Data { p, s }, reads)
    }

    fn subjects<L: Ledger>(
        &self,
        alloc: Global,
        p: &str,
        o: u64,
        reads: &mut Steps<L>,
    ) -> Mem<Uids> {
        lookups::subjects(alloc, &self.base, &self.gains, p, o, reads)
    }

    fn by_token<L: Ledger>(
        &self,
        alloc: Global,
        p: &str,
        t: &IndexToken,
        reads: &mut Steps<L>,
    ) -> Mem<Uids> {
        lookups::by_token(alloc, &self.base, &self.gains, p, t, reads)
    }

    fn by_token_range<L: Ledger>(
        &self,
        alloc: Global,
        p: &str,
        tokenizer: Tokenizer,
        low: Option<&Value>,
        high: Option<&Value>,
        reads: &mut Steps<L>,
    ) -> Mem<Uids> {
        lookups::by_token_range(
            alloc,
            &self.base,
            &self.gains,
            p,
            tokenizer,
            low,
            high,
            reads,
        )
    }

    fn holders<L: Ledger>(&self, alloc: Global, p: &str, reads: &mut Steps<L>) -> Mem<Uids> {
        lookups::holders(alloc, &self.base, &self.gains, p, reads)
    }

    fn by_count<L: Ledger>(
        &self,
        alloc: Global,
        p: &str,
        reverse: bool,
        low: u64,
        high: Option<u64>,
        reads: &mut Steps<L>,
    ) -> Mem<Uids> {
        lookups::by_count(alloc, &self.base, &self.gains, p, reverse, low, high, reads)
    }
}
