// The call that commits.
ghost use Rattle.std.specs.Prelude.{◌≡◌, ◌≢◌, ◌^◌, ◌<◌, List, [], true, None, IsTrue, IfOk, IfErr, OnOk};
ghost use Rattle.std.specs.Vec.{vec_len, vec_capacity};
ghost use Rattle.dg_values.specs.Ascending.{Ascends};
ghost use Rattle.dg_keys.specs.Conflicts.{conflict_cmp, conflict_text};
ghost use Rattle.dg_oracle.specs.Commits.{is_active};
ghost use Rattle.dg_oracle.specs.Verdicts as oracle;
ghost use Rattle.dg_zero.specs.Counters.{next, active, starts_of, is_active_of};
ghost use Rattle.dg_keys.specs.declared.record.Record.{Record};
ghost use Rattle.dg_zero.specs.declared.entry.Entry.{Entry};
ghost use Rattle.dg_zero.specs.Chains.{keys_at, preds_at, count_of, event_of, offer_of};
ghost use Rattle.dg_zero.specs.Legal.{IsLegal};
ghost use Rattle.dg_zero.specs.Offers.{IsSound, IsMadeOf};
ghost use Rattle.dg_zero.specs.Pasts.{entries};
ghost use Rattle.dg_zero.specs.States.{and_then, commit_of, commit_fault_of, IsRefusal};
ghost use Rattle.dg_zero.specs.Verdicts.{verdict, commits};
ghost use Rattle.dg_zero.specs.Worlds.{schema_at, graph_at};

use crate::appending::{append, append_with, make_room};
use crate::chain::{Committed, Refusal, What};
use crate::past::Past;
use crate::{CommitFault, Event, Offer, Reason, Slip, ZeroState};
use dg_graph::Change;
use dg_keys::{ConflictKey, Part, Record, conflict_text};
use dg_oracle::{OracleFault, Verdict};
use dg_values::{List, Mem, OutOfMemory, Str};
use std::alloc::Global;

impl ZeroState {
    /// Commits an offer at the next timestamp, or says why not: a predicate whose tablet is held, the least key that
    /// was committed above the start with its text and the last timestamp that has it, or that timestamps are spent. The
    /// first two end the transaction; the last, and want of memory, leave it active and hand the offer back. All memory
    /// that a refusal needs is taken before the transaction is ended.
    pub fn commit(&mut self, slip: Slip, offer: Offer) -> Result<u64, CommitFault>
        requires active { is_active_of (active self.old.history) offer.start slip ≡ true }
        requires sound { IsSound (schema_at self.old.history offer.start) (graph_at self.old.history offer.start []) offer.preds offer.keys offer.parts }
        requires made_of { IsMadeOf (schema_at self.old.history offer.start) (graph_at self.old.history offer.start []) offer.changes offer.keys offer.parts }
        ensures ts { IfOk result (λ ts. ts ≡ next self.old.history) }
        ensures ok { IfOk result (λ ts. self.new ≡ and_then self.old slip (commit_of offer ts)) }
        ensures clear { OnOk result (verdict self.old.history offer.start offer.preds offer.keys ≡ None) }
        ensures not_spent { OnOk result (next self.old.history < 2 ^ 62) }
        ensures fault { IfErr result (IsRefusal self.old self.new slip offer) }
        ensures legal { IsLegal self.new.groups self.new.history }
    {
        match self.oracle.judge(offer.start, offer.keys.as_slice()) {
            Verdict::Conflict { at, ts } => Err(self.refuse(slip, offer, at, ts)),
            Verdict::Clear => self.write(slip, offer),
        }
    }

    /// The verdict on the ascending keys of the active transaction with this start, over all commits. It appends nothing
    /// and takes no memory.
    pub fn judge(&self, start: u64, keys: &[ConflictKey]) -> Verdict
        requires active { is_active (starts_of (active self.now.history)) start ≡ true }
        requires ascend { Ascends conflict_cmp keys.now }
        ensures { result ≡ oracle.verdict conflict_cmp (commits self.now.history) start keys.now }
    {
        self.oracle.judge(start, keys)
    }

    // Ends the transaction of an offer whose keys conflict, and names the key. Its entry and the key's text are made first.
    fn refuse(&mut self, slip: Slip, offer: Offer, at: usize, ts: u64) -> CommitFault
        requires active { is_active_of (active self.old.history) offer.start slip ≡ true }
        requires judged { oracle.verdict conflict_cmp (commits self.old.history) offer.start offer.keys ≡ Verdict.Conflict at ts }
        ensures fault { IsRefusal self.old self.new slip offer result }
        ensures legal { IsLegal self.new.groups self.new.history }
    {
        let named = &offer.keys.as_slice()[at];
        let Ok((refusal, text)) = refusal_of(self.alloc, offer.start, named, ts) else {
            append(&mut self.past, slip, What::Look);
            return CommitFault::OutOfMemory { offer };
        };
        let Offer { start, keys, .. } = offer;
        let mut keys = keys.into_vec();
        let key = keys.swap_remove(at);
        let _ = self.oracle.end(start);
        append(&mut self.past, slip, What::Refused(refusal));
        CommitFault::Conflict { key, text, ts }
    }

    // Commits an offer whose keys are clear. They are moved into the oracle, and all else into the history.
    fn write(&mut self, slip: Slip, offer: Offer) -> Result<u64, CommitFault>
        requires active { is_active_of (active self.old.history) offer.start slip ≡ true }
        requires sound { IsSound (schema_at self.old.history offer.start) (graph_at self.old.history offer.start []) offer.preds offer.keys offer.parts }
        requires made_of { IsMadeOf (schema_at self.old.history offer.start) (graph_at self.old.history offer.start []) offer.changes offer.keys offer.parts }
        requires judged { oracle.verdict conflict_cmp (commits self.old.history) offer.start offer.keys ≡ Verdict.Clear }
        ensures ts { IfOk result (λ ts. ts ≡ next self.old.history) }
        ensures ok { IfOk result (λ ts. self.new ≡ and_then self.old slip (commit_of offer ts)) }
        ensures clear { OnOk result (verdict self.old.history offer.start offer.preds offer.keys ≡ None) }
        ensures not_spent { OnOk result (next self.old.history < 2 ^ 62) }
        ensures fault { IfErr result (IsRefusal self.old self.new slip offer) }
        ensures legal { IsLegal self.new.groups self.new.history }
    {
        let start = offer.start;
        let (made, keys, parts) = match room_for(self.alloc, &mut self.past, offer) {
            Ok(room) => room,
            Err(offer) => {
                append(&mut self.past, slip, What::Look);
                return Err(CommitFault::OutOfMemory { offer });
            }
        };
        match self.oracle.commit(start, keys) {
            Err((fault, keys)) => {
                append(&mut self.past, slip, What::Look);
                let offer = offer_from(Box::into_inner(made), keys, parts);
                return Err(refused_draw(fault, offer));
            }
            Ok(ts) => {
                let written = record_at(self.alloc, ts, parts);
                let what = committed_what(self.alloc, made);
                append_with(&mut self.past, slip, what, written);
                Ok(ts)
            }
        }
    }
}

// Room for the entry and the record of a commit. The offer is moved into it, but for its keys and its parts, or handed back
// for want of memory.
fn room_for(
    alloc: Global,
    past: &mut Past,
    offer: Offer,
) -> Result<(Box<Committed>, Vec<ConflictKey>, List<Part>), Offer>
    ensures same { entries past.new ≡ entries past.old }
    ensures room { OnOk result (vec_len past.new.records < vec_capacity past.new.records) }
    ensures ok { IfOk result (λ room. offer_of room.0.value room.1.items room.2 ≡ offer) }
    ensures err { IfErr result (λ back. back ≡ offer) }
{
    if make_room(past).is_err() {
        return Err(offer);
    }
    boxed(alloc, offer)
}

// An offer's keys and parts, and all else of it in a box.
fn boxed(
    alloc: Global,
    offer: Offer,
) -> Result<(Box<Committed>, Vec<ConflictKey>, List<Part>), Offer>
    ensures ok { IfOk result (λ room. offer_of room.0.value room.1.items room.2 ≡ offer) }
    ensures err { IfErr result (λ back. back ≡ offer) }
{
    let Offer {
        start,
        preds,
        keys,
        changes,
        parts,
    } = offer;
    let keys = keys.into_vec();
    let made = Committed {
        start,
        preds,
        changes,
    };
    match Box::new(alloc, made) {
        Ok(made) => Ok((made, keys, parts)),
        Err(failed) => Err(offer_from(failed.value, keys, parts)),
    }
}

// The offer of which a commit was to be made. It takes no memory.
fn offer_from(made: Committed, keys: Vec<ConflictKey>, parts: List<Part>) -> Offer
    ensures { result ≡ offer_of made keys.items parts }
{
    let Committed {
        start,
        preds,
        changes,
    } = made;
    Offer {
        start,
        preds,
        keys: List::from_vec(keys),
        changes,
        parts,
    }
}

// Whether only the predicate of the first change is named.
fn name_first_alone(preds: &[Str], changes: &[Change]) -> bool
    ensures { IsTrue result → preds_at [] changes.now ≡ preds.now }
{
    match (preds, changes) {
        ([pred], [first, ..]) => pred == &first.triple().p,
        _ => false,
    }
}

// Lets go of the predicate's name, where it is that of the first change alone. It takes no memory.
fn drop_name(alloc: Global, made: &mut Committed)
    requires { made.old.preds ≢ [] }
    ensures start { made.new.start ≡ made.old.start }
    ensures changes { made.new.changes ≡ made.old.changes }
    ensures preds { preds_at made.new.preds made.new.changes ≡ made.old.preds }
{
    if name_first_alone(made.preds.as_slice(), made.changes.as_slice()) {
        made.preds = List::new(alloc);
    }
}

// The entry of a commit, but for its record. It takes no memory.
fn committed_what(alloc: Global, mut made: Box<Committed>) -> What
    requires { made.value.preds ≢ [] }
    ensures recorded { count_of result ≡ 1 }
    ensures event { (before : List Entry) (written : Record) → event_of before written result ≡ Event.Commit made.value.start made.value.preds (keys_at before made.value.start made.value.changes) made.value.changes written }
{
    drop_name(alloc, &mut made);
    What::Commit(made)
}

// The record of a commit. It takes no memory.
fn record_at(alloc: Global, ts: u64, parts: List<Part>) -> Record
    ensures { result ≡ record { ts = ts; fresh = []; parts = parts } }
{
    Record {
        ts,
        fresh: List::new(alloc),
        parts,
    }
}

// The entry of a commit that is refused for a key, and the key's text. The error is want of memory.
fn refusal_of(alloc: Global, start: u64, key: &ConflictKey, ts: u64) -> Mem<(Box<Refusal>, Str)>
    ensures refusal { IfOk result (λ made. made.0.value ≡ record { start = start; reason = Reason.Conflict key.now ts }) }
    ensures text { IfOk result (λ made. made.1 ≡ conflict_text key.now) }
{
    let mut text = Str::from_str(alloc, "")?;
    conflict_text(alloc, &mut text, key)?;
    let key = key.copy(alloc)?;
    let reason = Reason::Conflict { key, ts };
    let refusal = Box::new(alloc, Refusal { start, reason })?;
    Ok((refusal, text))
}

// The fault of a commit whose timestamp isn't drawn, with the offer.
fn refused_draw(fault: OracleFault, offer: Offer) -> CommitFault
    ensures { result ≡ commit_fault_of offer fault }
{
    match fault {
        OracleFault::OutOfMemory => CommitFault::OutOfMemory { offer },
        OracleFault::TimestampsSpent { next } => CommitFault::TimestampsSpent { next, offer },
    }
}
