// Open transactions by the numbers of their authors.
ghost use Rattle.std.specs.Prelude.{◌≡◌, ◌==◌, ◌<◌, List, IfOk, IfErr, IfSome, not, filter, length};
ghost use Rattle.std.specs.Arc.{arc_value};
ghost use Rattle.std.specs.List.{AllByRecursion};
ghost use Rattle.dg_zero.specs.declared.entry.Entry.{Entry};
ghost use Rattle.dg_zero.specs.Offers.{IsSound, IsMadeOf};
ghost use Rattle.table_runs.specs.Opened.{HasBegun, IsOpen};

use crate::groups::fault::{Answer, Fault};
use dg_edges::are_fitting;
use dg_graph::{Change, Snapshot};
use dg_group::Pinned;
use dg_txn::Txn;
use dg_values::OutOfMemory;
use dg_zero::{Begun, Offer, Slip};
use std::alloc::Global;

// An open transaction, and the number of its author.
#[derive(Drop)]
pub(crate) struct Session {
    pub(crate) number: u32,
    pub(crate) txn: Txn,
}

// A transaction that began so. For want of memory the slip for its end comes back.
pub(crate) fn open(
    alloc: Global,
    number: u32,
    begun: Begun,
    pins: Vec<Pinned>,
    end: Slip,
) -> Result<Session, (OutOfMemory, Slip)>
    requires begun { (history : List Entry) × HasBegun history begun.start (arc_value begun.schema) (arc_value begun.owners) pins.items }
    requires author { end ≡ number }
    ensures opened { (history : List Entry) → HasBegun history begun.start (arc_value begun.schema) (arc_value begun.owners) pins.items → IfOk result (IsOpen history) }
    ensures err { IfErr result (λ e. e.1 ≡ end) }
{
    match Txn::make(alloc, begun, pins, end) {
        Ok(txn) => Ok(Session { number, txn }),
        Err((want, end)) => Err((want, end)),
    }
}

// Where the transaction of a number stands.
pub(crate) fn place_of(sessions: &[Session], number: u32) -> Option<usize>
    ensures { IfSome result (λ at. at < length sessions.now) }
{
    sessions.iter().position(|session| session.number == number)
}

// Leaves the transactions but that of a number.
pub(crate) fn drop_session(sessions: &mut Vec<Session>, number: u32)
    ensures { sessions.new.items ≡ filter (λ s. not (s.number == number)) sessions.old.items }
{
    sessions.retain(|session| session.number != number);
}

// Adds changes that fit behind a transaction's own. After an error nothing has changed.
fn add_to(alloc: Global, txn: &mut Txn, changes: Vec<Change>) -> Answer<()>
    ensures start { txn.new.start ≡ txn.old.start }
    ensures schema { txn.new.schema ≡ txn.old.schema }
    ensures base { txn.new.base ≡ txn.old.base }
    ensures author { txn.new.author ≡ txn.old.author }
{
    if !are_fitting(txn.schema(), changes.as_slice()) {
        return Err(Fault::Unfit);
    }
    Ok(txn.add(alloc, changes)?)
}

// The same for the transaction at a place.
pub(crate) fn add_at(
    alloc: Global,
    sessions: &mut Vec<Session>,
    at: usize,
    changes: Vec<Change>,
) -> Answer<()>
    requires { at < length sessions.old.items }
    ensures { (history : List Entry) → AllByRecursion (IsOpen history) sessions.old.items → AllByRecursion (IsOpen history) sessions.new.items }
{
    add_to(alloc, &mut sessions[at].txn, changes)
}

// What a transaction offers, where it has changes.
pub(crate) fn offer_of(alloc: Global, txn: &Txn) -> Answer<Offer>
    ensures start { IfOk result (λ offer. offer.start ≡ txn.now.start) }
    ensures sound { IfOk result (λ offer. IsSound txn.now.schema txn.now.base offer.preds offer.keys offer.parts) }
    ensures made_of { IfOk result (λ offer. IsMadeOf txn.now.schema txn.now.base offer.changes offer.keys offer.parts) }
{
    if txn.is_empty() {
        return Err(Fault::Unfit);
    }
    Ok(txn.offer(alloc)?)
}
