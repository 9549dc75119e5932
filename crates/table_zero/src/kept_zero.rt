// The state that coordinates all, with what may be asked of it.
ghost use Rattle.std.specs.Prelude.{◌≡◌, ◌≢◌, [], IsTrue, IfOk};
ghost use Rattle.std.specs.List.{AllByRecursion, list_any};
ghost use Rattle.dg_values.specs.Ascending.{Ascends};
ghost use Rattle.dg_keys.specs.Conflicts.{conflict_cmp};
ghost use Rattle.dg_graph.specs.Graphs.{is_of};
ghost use Rattle.dg_schema.specs.Definitions.{definition_of};
ghost use Rattle.dg_zero.specs.Legal.{KeepsKind, kind_rank};
ghost use Rattle.dg_zero.specs.Offers.{IsSound, IsMadeOf};
ghost use Rattle.dg_zero.specs.Worlds.{world_at, schema_at, graph_at};
ghost use Rattle.table_zero.specs.Kept.{ends};
ghost use Rattle.table_zero.specs.Steps.{world_in};

use crate::counted;
use crate::fault::{Answer, Fault};
use crate::starts::{Start, drop_ended, drop_start, is_active, is_active_of, may_end};
use crate::steps::{Step, plain_at};
use dg_edges::are_fitting;
use dg_graph::{Change, Graph, Plain};
use dg_keys::ConflictKey;
use dg_oracle::Verdict;
use dg_schema::{PredDef, Schema};
use dg_values::{Kind, List, Mem, OutOfMemory, Posting, Str};
use dg_zero::{Begun, CommitFault, Offer, Slip, ZeroFault, ZeroState};
use std::alloc::Global;
use std::marker::Model;

// The state, its active starts with their authors, and what was committed and altered, which no call tells; and the last
// alter's timestamp.
#[derive(Drop)]
pub(crate) struct KeptZero {
    zero: ZeroState,
    starts: Vec<Start>,
    steps: Vec<Step>,
    altered: u64,
}

impl Model for KeptZero {
    ghost use Rattle.dg_zero.specs.States.{Zero};
    ghost use Rattle.table_zero.specs.Kept.{IsKnown};

    ghost Value = { Zero };

    ghost view = { λ kept. kept.zero };

    ghost invariant = { λ kept. IsKnown kept.zero kept.starts.items kept.steps.items };
}

impl KeptZero {
    // Nothing has happened.
    pub(crate) fn new(alloc: Global, groups: u32) -> Answer<KeptZero> {
        if groups < 1 || 16 < groups {
            return Err(Fault::Unfit);
        }
        Ok(KeptZero {
            zero: ZeroState::new(alloc, groups)?,
            starts: Vec::new(alloc),
            steps: Vec::new(alloc),
            altered: 0,
        })
    }

    pub(crate) fn zero(&self) -> &ZeroState {
        &self.zero
    }

    pub(crate) fn begin(&mut self, alloc: Global, author: u32) -> Answer<Result<Begun, ZeroFault>> {
        let slip = Slip::new(alloc, author)?;
        self.starts.reserve(1)?;
        match self.zero.begin(slip) {
            Ok(begun) => {
                self.starts.push_reserved(Start::new(begun.start, author));
                Ok(Ok(begun))
            }
            Err(fault) => Ok(Err(fault)),
        }
    }

    // Ends a transaction of this author, and says whether it was active.
    pub(crate) fn end(&mut self, alloc: Global, author: u32, start: u64) -> Answer<bool> {
        let slip = Slip::new(alloc, author)?;
        if !may_end(self.starts.as_slice(), start, author) {
            return Err(Fault::Unfit);
        }
        let was_active = self.zero.end(slip, start);
        drop_ended(&mut self.starts, start, was_active);
        Ok(was_active)
    }

    pub(crate) fn look(&mut self, alloc: Global, author: u32) -> Answer<()> {
        let slip = Slip::new(alloc, author)?;
        self.zero.look(slip);
        Ok(())
    }

    pub(crate) fn lease(
        &mut self,
        alloc: Global,
        author: u32,
        top: u64,
        count: u64,
    ) -> Answer<Result<u64, ZeroFault>> {
        let slip = Slip::new(alloc, author)?;
        Ok(self.zero.lease(slip, top, count))
    }

    // The schema and the graph at a timestamp.
    fn seen(&self, alloc: Global, at: u64) -> Mem<Plain>
        ensures { IfOk result (λ seen. world_in seen ≡ world_at self.now.history at) }
    {
        plain_at(alloc, self.steps.as_slice(), at)
    }

    // Whether a predicate has a triple at present.
    pub(crate) fn has_triple(&self, alloc: Global, pred: &str) -> Mem<bool> {
        let present = self.seen(alloc, self.zero.last())?;
        Ok(has_triple(&present.graph, pred))
    }

    // Adds or replaces definitions, where those of predicates with triples keep their kinds.
    pub(crate) fn alter(
        &mut self,
        alloc: Global,
        newer: Schema,
    ) -> Answer<Result<(u64, u64), ZeroFault>> {
        let slip = Slip::new(alloc, 0)?;
        let present = self.seen(alloc, self.zero.last())?;
        if !keep_kinds(&present, newer.definitions()) {
            return Err(Fault::Unfit);
        }
        let parts = List::from_vec(counted::alter_parts(alloc, &present, &newer)?);
        self.steps.reserve(1)?;
        match self.zero.alter(slip, &newer, parts) {
            Ok((start, ts)) => {
                self.steps.push_reserved(Step::Altered { ts, newer });
                self.altered = ts;
                Ok(Ok((start, ts)))
            }
            Err(fault) => Ok(Err(fault)),
        }
    }

    // Commits changes for an active start of this author.
    pub(crate) fn commit(
        &mut self,
        alloc: Global,
        author: u32,
        start: u64,
        changes: List<Change>,
    ) -> Answer<Result<u64, CommitFault>> {
        let slip = Slip::new(alloc, author)?;
        if !is_active_of(self.starts.as_slice(), start, author) {
            return Err(Fault::Unfit);
        }
        let offer = self.offer(alloc, start, changes.as_slice())?;
        self.steps.reserve(1)?;
        match self.zero.commit(slip, offer) {
            Ok(ts) => {
                drop_start(&mut self.starts, start);
                self.steps.push_reserved(Step::Committed { ts, changes });
                Ok(Ok(ts))
            }
            Err(fault) => {
                drop_ended(&mut self.starts, start, has_ended(&fault));
                Ok(Err(fault))
            }
        }
    }

    // The offer of changes over the graph at a start, where the schema there is the present one and they fit it.
    pub(crate) fn offer(&self, alloc: Global, start: u64, changes: &[Change]) -> Answer<Offer>
        ensures start { IfOk result (λ offer. offer.start ≡ start) }
        ensures changes { IfOk result (λ offer. offer.changes ≡ changes.now) }
        ensures sound { IfOk result (λ offer. IsSound (schema_at self.now.history start) (graph_at self.now.history start []) offer.preds offer.keys offer.parts) }
        ensures made_of { IfOk result (λ offer. IsMadeOf (schema_at self.now.history start) (graph_at self.now.history start []) offer.changes offer.keys offer.parts) }
    {
        if start < self.altered || changes.is_empty() {
            return Err(Fault::Unfit);
        }
        let seen = self.seen(alloc, start)?;
        if !are_fitting(&seen.schema, changes) {
            return Err(Fault::Unfit);
        }
        Ok(counted::offer(alloc, &seen, start, changes)?)
    }

    // The verdict on the ascending keys of an active start.
    pub(crate) fn judge(&self, start: u64, keys: &[ConflictKey]) -> Answer<Verdict>
        requires { Ascends conflict_cmp keys.now }
    {
        if !is_active(self.starts.as_slice(), start) {
            return Err(Fault::Unfit);
        }
        Ok(self.zero.judge(start, keys))
    }

    // The objects of a subject at a timestamp, where the schema there is the present one.
    pub(crate) fn objects(&self, alloc: Global, at: u64, p: &Str, s: u64) -> Answer<Vec<Posting>> {
        if at < self.altered {
            return Err(Fault::Unfit);
        }
        let seen = self.seen(alloc, at)?;
        Ok(counted::objects(alloc, &seen, p, s)?)
    }
}

// Whether a commit that is refused ends its transaction.
fn has_ended(fault: &CommitFault) -> bool
    ensures { result ≡ ends fault.now }
{
    match fault {
        CommitFault::Moving { .. } | CommitFault::Conflict { .. } => true,
        CommitFault::OutOfMemory { .. } | CommitFault::TimestampsSpent { .. } => false,
    }
}

// Whether a predicate has a triple.
fn has_triple(graph: &Graph, pred: &str) -> bool
    ensures { result ≡ list_any (is_of pred.now) graph.now }
{
    graph
        .triples()
        .iter()
        .any(|t| t.p.as_str().cmp(pred).is_eq())
}

// Whether two kinds are one.
fn is_kind(a: Kind, b: Kind) -> bool
    ensures { IsTrue result → kind_rank a ≡ kind_rank b }
{
    a as u8 == b as u8
}

// Whether a definition keeps an older one's kind, and whether it is a list.
fn is_alike(newer: &PredDef, older: &PredDef) -> bool
    ensures { IsTrue result → (kind_rank newer.now.kind ≡ kind_rank older.now.kind) × (newer.now.list ≡ older.now.list) }
{
    is_kind(newer.kind, older.kind) && newer.list == older.list
}

// Whether a definition may take the place of the present one of its name.
fn keeps_kind(present: &Plain, newer: &PredDef) -> bool
    ensures { IsTrue result → KeepsKind present.now.graph newer.now (definition_of present.now.schema newer.now.name) }
{
    match present.schema.lookup(newer.name.as_str()) {
        Some(older) if !is_alike(newer, older) => {
            !has_triple(&present.graph, newer.name.as_str())
        }
        _ => true,
    }
}

// Whether each may.
fn keep_kinds(present: &Plain, newer: &[PredDef]) -> bool
    ensures { IsTrue result → AllByRecursion (λ def. KeepsKind present.now.graph def (definition_of present.now.schema def.name)) newer.now }
{
    newer
        .iter()
        .all(|definition| keeps_kind(present, definition))
}
