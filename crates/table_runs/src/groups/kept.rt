// The state, its groups and open transactions.
ghost use Rattle.std.specs.Prelude.{◌≡◌};

use crate::groups::counted;
use crate::groups::counting::{Counting, has_ended};
use crate::groups::fault::{Answer, Fault};
use crate::groups::sessions::{Session, add_at, drop_session, offer_of, open, place_of};
use dg_graph::Change;
use dg_node::{ClusterFault, Owned};
use dg_schema::Schema;
use dg_txn::{Present, Txn};
use dg_values::{OutOfMemory, Posting, Str};
use dg_zero::{CommitFault, Offer, Slip, ZeroFault};
use std::alloc::Global;
use std::marker::Model;

// The state with its groups, and the open transactions.
#[derive(Drop)]
pub(crate) struct Kept {
    counting: Counting,
    sessions: Vec<Session>,
}

impl Model for Kept {
    ghost use Rattle.std.specs.List.{AllByRecursion};
    ghost use Rattle.dg_zero.specs.States.{Zero};
    ghost use Rattle.table_runs.specs.Opened.{IsOpen};

    ghost Value = { Zero };

    ghost view = { λ kept. kept.counting };

    ghost invariant = { λ kept. AllByRecursion (IsOpen kept.counting.history) kept.sessions.items };
}

impl Kept {
    // Nothing has happened.
    pub(crate) fn new(alloc: Global, groups: u32) -> Answer<Kept> {
        Ok(Kept {
            counting: Counting::new(alloc, groups)?,
            sessions: Vec::new(alloc),
        })
    }

    pub(crate) fn owned(&self) -> &Owned {
        self.counting.owned()
    }

    // The open transaction of a number.
    pub(crate) fn txn(&self, number: u32) -> Answer<&Txn> {
        match place_of(self.sessions.as_slice(), number) {
            Some(at) => Ok(&self.sessions[at].txn),
            None => Err(Fault::Unfit),
        }
    }

    // The present graph. Nothing is appended.
    pub(crate) fn present(&mut self, alloc: Global) -> Answer<Present> {
        self.counting.present(alloc)
    }

    // Begins a transaction under a number that has none, and answers its start.
    pub(crate) fn begin(&mut self, alloc: Global, number: u32) -> Answer<Result<u64, ZeroFault>> {
        if place_of(self.sessions.as_slice(), number).is_some() {
            return Err(Fault::Unfit);
        }
        let end = Slip::new(alloc, number)?;
        self.sessions.reserve(1)?;
        let (begun, pins) = match self.counting.begin(alloc, number)? {
            Ok(begun) => begun,
            Err(fault) => return Ok(Err(fault)),
        };
        let start = begun.start;
        match open(alloc, number, begun, pins, end) {
            Ok(session) => {
                self.sessions.push_reserved(session);
                Ok(Ok(start))
            }
            Err((OutOfMemory, end)) => {
                self.counting.end(end, number, start)?;
                Err(Fault::OutOfMemory)
            }
        }
    }

    // Adds changes behind those of an open transaction.
    pub(crate) fn add(&mut self, alloc: Global, number: u32, changes: Vec<Change>) -> Answer<()> {
        match place_of(self.sessions.as_slice(), number) {
            Some(at) => add_at(alloc, &mut self.sessions, at, changes),
            None => Err(Fault::Unfit),
        }
    }

    // What an open transaction offers.
    pub(crate) fn offer(&self, alloc: Global, number: u32) -> Answer<Offer> {
        offer_of(alloc, self.txn(number)?)
    }

    // Commits an open transaction, and says at which timestamp, or why not.
    pub(crate) fn commit(
        &mut self,
        alloc: Global,
        number: u32,
    ) -> Answer<Result<u64, CommitFault>> {
        let Some(at) = place_of(self.sessions.as_slice(), number) else {
            return Err(Fault::Unfit);
        };
        let offer = offer_of(alloc, &self.sessions[at].txn)?;
        let committed = self.counting.commit(alloc, number, offer)?;
        if is_over(&committed) {
            drop_session(&mut self.sessions, number);
        }
        Ok(committed)
    }

    // Ends an open transaction, and says whether it was active.
    pub(crate) fn end(&mut self, number: u32) -> Answer<bool> {
        let Some(at) = place_of(self.sessions.as_slice(), number) else {
            return Err(Fault::Unfit);
        };
        let session = self.sessions.remove(at);
        let (start, end) = session.txn.close();
        self.counting.end(end, session.number, start)
    }

    pub(crate) fn lease(
        &mut self,
        alloc: Global,
        author: u32,
        top: u64,
        count: u64,
    ) -> Answer<Result<u64, ZeroFault>> {
        self.counting.lease(alloc, author, top, count)
    }

    pub(crate) fn alter(
        &mut self,
        alloc: Global,
        newer: &Schema,
    ) -> Answer<Result<(u64, u64), ClusterFault>> {
        self.counting.alter(alloc, newer)
    }

    // The objects of a subject in the present graph, by a transaction that begins and ends for it.
    pub(crate) fn glance(
        &mut self,
        alloc: Global,
        author: u32,
        p: &Str,
        s: u64,
    ) -> Answer<Result<Vec<Posting>, ZeroFault>> {
        let end = Slip::new(alloc, author)?;
        let (begun, pins) = match self.counting.begin(alloc, author)? {
            Ok(begun) => begun,
            Err(fault) => return Ok(Err(fault)),
        };
        let start = begun.start;
        let present = Present::of(begun.schema, begun.owners, pins, start);
        let objects = counted::objects(alloc, &present, p, s);
        self.counting.end(end, author, start)?;
        Ok(Ok(objects?))
    }
}

// Whether the transaction has ended.
fn is_over(committed: &Result<u64, CommitFault>) -> bool {
    match committed {
        Ok(_) => true,
        Err(fault) => has_ended(fault),
    }
}
