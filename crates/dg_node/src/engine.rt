// The engine: a cluster that no one else uses, and the table of sessions.
ghost use Rattle.std.specs.Prelude.{◌≡◌, ◌==◌, ◌<◌, IfSome, position, length, slice_get};
ghost use Rattle.std.specs.Vec.{vec_len, vec_capacity};
ghost use Rattle.dg_node.specs.Kept.{unless_open, with_opened};

use crate::alters::alter;
use crate::mutations::mutate;
use crate::owned::Owned;
use crate::queries::query;
use crate::transactions::{begin, commit, discard, no_session};
use crate::upserts::upsert;
use dg_check::Patterns;
use dg_txn::Txn;
use dg_values::{Mem, OutOfMemory};
use dg_wire::{Refusal, Reply};
use std::alloc::Global;
use std::marker::Model;

// The author of all entries: the one session that appends.
const AUTHOR: u32 = 0;

/// A session's place in the table: its number, and its transaction, which it lacks for the time of a call alone.
#[derive(Drop)]
pub struct Slot {
    pub sid: u32,
    pub txn: Option<Txn>,
}

/// The engine. Contracts see the state of the cluster and the open transactions, in the order in which they began.
#[derive(Drop)]
pub struct Engine {
    pub(crate) cluster: Owned,
    pub(crate) slots: Vec<Slot>,
}

impl Model for Engine {
    ghost use Rattle.dg_node.specs.Held.{Held};
    ghost use Rattle.dg_node.specs.Kept.{IsKept, opened_of};

    ghost Value = { Held };

    ghost view = { λ e. record { zero = e.cluster; opened = opened_of e.slots.items } };

    ghost invariant = { λ e. IsKept e.cluster e.slots.items };
}

impl Engine {
    ghost use Rattle.std.specs.Prelude.{◌≡◌, ◌≤◌, ◌^◌, IfOk, OnErr, length};
    ghost use Rattle.dg_check.specs.Patterns.{IsFrontOf};
    ghost use Rattle.dg_wire.specs.declared.request.Request.TheVariants.{Begin, Mutate, Upsert};
    ghost use Rattle.dg_node.specs.Machine.{empty, empty_from};
    ghost use Rattle.dg_node.specs.Alters.{alters};
    ghost use Rattle.dg_node.specs.Mutations.{Mutates};
    ghost use Rattle.dg_node.specs.Queries.{Queries};
    ghost use Rattle.dg_node.specs.Steps.{Spares};
    ghost use Rattle.dg_node.specs.Transactions.{begun, committed, discarded, HasChanges};
    ghost use Rattle.dg_node.specs.State.{machine_of, StandsFor, Leads, Stays};
    ghost use Rattle.dg_node.specs.Upserts.{Upserts};

    /// Nothing is declared, committed or open. The error is want of memory.
    pub fn new(alloc: Global, groups: u32) -> Mem<Self>
        requires least { 1 ≤ groups }
        requires most { groups ≤ 16 }
        ensures { IfOk result (λ engine. StandsFor engine (empty groups)) }
    {
        Engine::starting_at(alloc, groups, 1)
    }

    /// Nothing is declared, committed or open, and `next` is the next timestamp. The error is want of memory.
    pub fn starting_at(alloc: Global, groups: u32, next: u64) -> Mem<Self>
        requires least { 1 ≤ groups }
        requires most { groups ≤ 16 }
        requires first { 1 ≤ next }
        requires last { next ≤ 2 ^ 62 }
        ensures { IfOk result (λ engine. StandsFor engine (empty_from groups next)) }
    {
        Ok(Engine {
            cluster: Owned::starting_at(alloc, groups, next)?,
            slots: Vec::new(alloc),
        })
    }

    /// Adds or replaces definitions. After an error nothing has changed.
    pub fn alter(&mut self, alloc: Global, body: &[u8]) -> Mem<Reply>
        requires { length body.now ≤ 1048576 }
        ensures ok { IfOk result (λ reply. Leads self.old (λ m n. alters m body.now ≡ (reply, n)) self.new) }
        ensures err { OnErr result (Stays self.old self.new) }
    {
        self.cluster.at_rest();
        alter(alloc, &mut self.cluster, AUTHOR, body)
    }

    /// Opens a transaction. After an error none more is open; one timestamp may be drawn, which isn't given back.
    pub fn begin(&mut self, alloc: Global, sid: u32) -> Mem<Reply>
        ensures ok { IfOk result (λ reply. Leads self.old (λ m n. begun m sid ≡ (reply, n)) self.new) }
        ensures err { OnErr result (Leads self.old (λ m n. Spares (Begin sid) m n) self.new) }
    {
        if place_of(self.slots.as_slice(), sid).is_some() {
            return Ok(Reply::Refused(Refusal::SessionOpen { sid }));
        }
        self.slots.reserve(1)?;
        self.cluster.at_rest();
        let mut session = None;
        let reply = begin(alloc, &mut self.cluster, &mut session, AUTHOR, sid)?;
        push_opened(&mut self.slots, sid, session);
        Ok(reply)
    }

    /// Adds changes to a transaction's own. After an error the transaction is as it was; the next node may be raised.
    pub fn mutate(&mut self, alloc: Global, sid: u32, body: &[u8]) -> Mem<Reply>
        requires { length body.now ≤ 1048576 }
        ensures ok { IfOk result (λ reply. Leads self.old (λ m n. Mutates m sid body.now reply n) self.new) }
        ensures err { OnErr result (Leads self.old (λ m n. Spares (Mutate sid body.now) m n) self.new) }
    {
        let Some(place) = place_of(self.slots.as_slice(), sid) else {
            return Ok(no_session(sid));
        };
        self.cluster.at_rest();
        mutate(
            alloc,
            &mut self.cluster,
            &mut self.slots[place].txn,
            AUTHOR,
            sid,
            body,
        )
    }

    /// Evaluates an upsert block, and adds the changes of its mutations to a transaction's own. After an error the transaction is as it
    /// was; the next node may be raised. The maker's list of refused patterns may grow.
    pub fn upsert<P: Patterns>(
        &mut self,
        alloc: Global,
        sid: u32,
        body: &[u8],
        patterns: &mut P,
    ) -> Mem<Reply>
        requires { length body.now ≤ 1048576 }
        ensures ok { IfOk result (λ reply. Leads self.old (λ m n. Upserts (P.refused patterns.new) m sid body.now reply n) self.new) }
        ensures err { OnErr result (Leads self.old (λ m n. Spares (Upsert sid body.now) m n) self.new) }
        ensures grows { IsFrontOf (P.refused patterns.old) (P.refused patterns.new) }
    {
        let Some(place) = place_of(self.slots.as_slice(), sid) else {
            return Ok(no_session(sid));
        };
        self.cluster.at_rest();
        upsert(
            alloc,
            &mut self.cluster,
            &mut self.slots[place].txn,
            AUTHOR,
            sid,
            body,
            patterns,
        )
    }

    /// Answers a query. Nothing changes, but that the maker's list of refused patterns may grow.
    pub fn query<P: Patterns>(
        &self,
        alloc: Global,
        sid: u32,
        body: &[u8],
        patterns: &mut P,
    ) -> Mem<Reply>
        requires { length body.now ≤ 1048576 }
        ensures answered { IfOk result (λ reply. Leads self.now (λ m n. Queries (P.refused patterns.new) m sid body.now reply n) self.now) }
        ensures grows { IsFrontOf (P.refused patterns.old) (P.refused patterns.new) }
    {
        match place_of(self.slots.as_slice(), sid) {
            Some(place) => query(
                alloc,
                &self.cluster,
                &self.slots[place].txn,
                AUTHOR,
                sid,
                body,
                patterns,
            ),
            None => query(alloc, &self.cluster, &None, AUTHOR, sid, body, patterns),
        }
    }

    /// Ends a transaction with its changes. After an error it is open, and nothing has changed; one without changes ends
    /// without an error.
    pub fn commit(&mut self, alloc: Global, sid: u32) -> Mem<Reply>
        ensures ok { IfOk result (λ reply. Leads self.old (λ m n. committed m sid ≡ (reply, n)) self.new) }
        ensures err { OnErr result (Stays self.old self.new) }
        ensures wants { OnErr result (HasChanges (machine_of self.old) sid) }
    {
        let Some(place) = place_of(self.slots.as_slice(), sid) else {
            return Ok(no_session(sid));
        };
        self.cluster.at_rest();
        let reply = commit(
            alloc,
            &mut self.cluster,
            &mut self.slots[place].txn,
            AUTHOR,
            sid,
        );
        drop_closed(&mut self.slots, place);
        reply
    }

    /// Ends a transaction without its changes. It takes no memory.
    pub fn discard(&mut self, sid: u32) -> Reply
        ensures { Leads self.old (λ m n. discarded m sid ≡ (result, n)) self.new }
    {
        let Some(place) = place_of(self.slots.as_slice(), sid) else {
            return no_session(sid);
        };
        self.cluster.at_rest();
        let reply = discard(&mut self.cluster, &mut self.slots[place].txn, AUTHOR, sid);
        drop_closed(&mut self.slots, place);
        reply
    }
}

// The place of a session's slot, where it has one.
fn place_of(slots: &[Slot], sid: u32) -> Option<usize>
    ensures place { result ≡ position (λ s. s.sid == sid) slots.now }
    ensures within { IfSome result (λ place. place < length slots.now) }
{
    slots.iter().position(|slot| slot.sid == sid)
}

// Puts a session behind the others, where it has a transaction. There is room for it.
fn push_opened(slots: &mut Vec<Slot>, sid: u32, session: Option<Txn>)
    requires room { vec_len slots.old < vec_capacity slots.old }
    ensures { slots.new.items ≡ with_opened slots.old.items sid session }
{
    if let Some(txn) = session {
        slots.push_reserved(Slot {
            sid,
            txn: Some(txn),
        });
    }
}

// Takes out the slot at a place, where its session has no transaction any more.
fn drop_closed(slots: &mut Vec<Slot>, place: usize)
    requires place { place < length slots.old.items }
    ensures { slots.new.items ≡ unless_open slots.old.items place (slice_get slots.old.items place) }
{
    if slots[place].txn.is_none() {
        let _ = slots.remove(place);
    }
}
