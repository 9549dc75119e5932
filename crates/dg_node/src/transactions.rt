// What `begin`, `commit` and `discard` do.
ghost use Rattle.std.specs.Prelude.{◌≡◌, ◌≢◌, ◌<◌, [], Bool, true, List, Some, None, if◌then◌else◌, IfOk, OnOk, OnErr, IsSomeAnd};
ghost use Rattle.std.specs.Arc.{arc_value};
ghost use Rattle.dg_graph.specs.declared.change.Triple.{Triple};
ghost use Rattle.dg_zero.specs.Counters.{next, active, is_active_of};
ghost use Rattle.dg_zero.specs.Legal.{IsLegal};
ghost use Rattle.dg_txn.specs.Pins.{ArePinsOf};
ghost use Rattle.dg_node.specs.Clusters.{Meets, EndsAt};
ghost use Rattle.dg_node.specs.Committing.{reply_to, is_ended};
ghost use Rattle.dg_node.specs.Sessions.{IsSession, Serves, SparesBegin};
ghost use Rattle.dg_node.specs.Transactions.{begun, committed, discarded};

use crate::cluster::{Cluster, ClusterFault};
use dg_group::Pinned;
use dg_txn::Txn;
use dg_values::{Mem, OutOfMemory};
use dg_wire::{Refusal, Reply};
use dg_zero::{Begun, CommitFault, Slip};
use std::alloc::Global;

/// Opens a transaction of an author in a session that has none.
///
/// `SessionOpen` comes where it has one, and `TimestampsSpent` where no timestamp is left. After want of memory it has none;
/// one start may be drawn, which isn't given back and has ended.
pub fn begin<C: Cluster>(
    alloc: Global,
    cluster: &mut C,
    session: &mut Option<Txn>,
    author: u32,
    sid: u32,
) -> Mem<Reply>
    requires own { C.takes cluster.old author ≡ true }
    requires session { IsSession (C.zero cluster.old) author session.old }
    ensures same { C.takes cluster.new ≡ C.takes cluster.old }
    ensures ok { IfOk result (λ reply. Meets (C.takes cluster.old) (C.zero cluster.old) (C.zero cluster.new) (Serves author sid session.old session.new (λ m n. begun m sid ≡ (reply, n)))) }
    ensures err { OnErr result (SparesBegin (C.takes cluster.old) author sid (C.zero cluster.old) (C.zero cluster.new)) }
    ensures none { OnErr result ((session.old ≡ None) × (session.new ≡ None)) }
    ensures session { IsSession (C.zero cluster.new) author session.new }
    ensures legal { IsLegal (C.zero cluster.new).groups (C.zero cluster.new).history }
{
    cluster.history_is_legal();
    if session.is_some() {
        return Ok(Reply::Refused(Refusal::SessionOpen { sid }));
    }
    let slip = Slip::new(alloc, author)?;
    let end = Slip::new(alloc, author)?;
    match cluster.begin(alloc, slip) {
        Ok((begun, pins)) => {
            let start = begun.start;
            let txn = make(alloc, cluster, begun, pins, end)?;
            put(session, txn);
            Ok(Reply::Begin { sid, start })
        }
        Err(ClusterFault::TimestampsSpent { next }) => {
            Ok(Reply::Refused(Refusal::TimestampsSpent { next }))
        }
        Err(ClusterFault::OutOfMemory) => Err(OutOfMemory),
        Err(
            ClusterFault::NoPredicate { .. }
            | ClusterFault::UidsSpent { .. }
            | ClusterFault::Moving { .. }
            | ClusterFault::Pending { .. }
            | ClusterFault::HasData { .. }
            | ClusterFault::NoGroup { .. }
            | ClusterFault::SameGroup { .. }
            | ClusterFault::AlreadyMoving { .. }
            | ClusterFault::NotMoving { .. }
            | ClusterFault::OldCopy { .. },
        ) => unreachable!(),
    }
}

// The transaction that began so. After an error its start has ended.
fn make<C: Cluster>(
    alloc: Global,
    cluster: &mut C,
    begun: Begun,
    pins: Vec<Pinned>,
    end: Slip,
) -> Mem<Txn>
    requires own { C.takes cluster.old end ≡ true }
    requires pins { (graph : List Triple) × ArePinsOf begun.start (arc_value begun.schema) (arc_value begun.owners) pins.items graph }
    requires drawn { begun.start < next (C.zero cluster.old).history }
    requires active { is_active_of (active (C.zero cluster.old).history) begun.start end ≡ true }
    ensures made { (graph : List Triple) → ArePinsOf begun.start (arc_value begun.schema) (arc_value begun.owners) pins.items graph → IfOk result (λ txn. txn ≡ record { start = begun.start; schema = arc_value begun.schema; base = graph; own = []; author = end }) }
    ensures same { C.takes cluster.new ≡ C.takes cluster.old }
    ensures ok { OnOk result (C.zero cluster.new ≡ C.zero cluster.old) }
    ensures err { OnErr result ((was : Bool) × Meets (C.takes cluster.old) (C.zero cluster.old) (C.zero cluster.new) (EndsAt end begun.start was)) }
    ensures legal { OnErr result (IsLegal (C.zero cluster.new).groups (C.zero cluster.new).history) }
{
    let start = begun.start;
    match Txn::make(alloc, begun, pins, end) {
        Ok(txn) => Ok(txn),
        Err((OutOfMemory, end)) => {
            let _ = cluster.end(end, start);
            Err(OutOfMemory)
        }
    }
}

// Ends a transaction without its changes. It takes no memory.
fn close<C: Cluster>(cluster: &mut C, txn: Txn)
    requires own { C.takes cluster.old txn.author ≡ true }
    requires drawn { txn.start < next (C.zero cluster.old).history }
    requires active { is_active_of (active (C.zero cluster.old).history) txn.start txn.author ≡ true }
    ensures same { C.takes cluster.new ≡ C.takes cluster.old }
    ensures ends { (was : Bool) × Meets (C.takes cluster.old) (C.zero cluster.old) (C.zero cluster.new) (EndsAt txn.author txn.start was) }
    ensures legal { IsLegal (C.zero cluster.new).groups (C.zero cluster.new).history }
{
    let (start, end) = txn.close();
    let _ = cluster.end(end, start);
}

/// Ends a session's transaction without its changes. `NoSession` comes where it has none. It takes no memory.
pub fn discard<C: Cluster>(
    cluster: &mut C,
    session: &mut Option<Txn>,
    author: u32,
    sid: u32,
) -> Reply
    requires own { C.takes cluster.old author ≡ true }
    requires session { IsSession (C.zero cluster.old) author session.old }
    ensures same { C.takes cluster.new ≡ C.takes cluster.old }
    ensures ok { Meets (C.takes cluster.old) (C.zero cluster.old) (C.zero cluster.new) (Serves author sid session.old session.new (λ m n. discarded m sid ≡ (result, n))) }
    ensures closed { session.new ≡ None }
    ensures legal { IsLegal (C.zero cluster.new).groups (C.zero cluster.new).history }
{
    cluster.history_is_legal();
    let _ = author;
    match session.take() {
        Some(txn) => {
            close(cluster, txn);
            Reply::Discard { sid }
        }
        None => no_session(sid),
    }
}

/// Ends a session's transaction with its changes, unless a key of theirs was committed since it began.
///
/// `NoSession` comes where it has none, `Conflict` names the key and the timestamp at which it was committed last, `Moving` a
/// predicate whose tablet is held; both end the transaction. `TimestampsSpent` comes where no timestamp is left; the
/// transaction stays then, as after want of memory. A transaction without changes ends, and draws nothing.
pub fn commit<C: Cluster>(
    alloc: Global,
    cluster: &mut C,
    session: &mut Option<Txn>,
    author: u32,
    sid: u32,
) -> Mem<Reply>
    requires own { C.takes cluster.old author ≡ true }
    requires session { IsSession (C.zero cluster.old) author session.old }
    ensures same { C.takes cluster.new ≡ C.takes cluster.old }
    ensures ok { IfOk result (λ reply. Meets (C.takes cluster.old) (C.zero cluster.old) (C.zero cluster.new) (Serves author sid session.old session.new (λ m n. committed m sid ≡ (reply, n)))) }
    ensures err { OnErr result (Meets (C.takes cluster.old) (C.zero cluster.old) (C.zero cluster.new) (Serves author sid session.old session.new (λ m n. n ≡ m))) }
    ensures kept { OnErr result (session.new ≡ session.old) }
    ensures wants { OnErr result (IsSomeAnd session.old (λ txn. txn.own ≢ [])) }
    ensures session { IsSession (C.zero cluster.new) author session.new }
    ensures legal { IsLegal (C.zero cluster.new).groups (C.zero cluster.new).history }
{
    cluster.history_is_legal();
    let Some(txn) = &*session else {
        return Ok(no_session(sid));
    };
    if txn.is_empty() {
        return Ok(commit_nothing(cluster, session, author, sid));
    }
    let slip = Slip::new(alloc, author)?;
    let offer = txn.offer(alloc)?;
    match cluster.commit(slip, offer) {
        Ok(ts) => {
            clear(session);
            Ok(Reply::Commit { sid, ts })
        }
        Err(fault) => uncommitted(session, fault),
    }
}

// What is answered where an offer was refused. The session ends, unless it may offer again.
fn uncommitted(session: &mut Option<Txn>, fault: CommitFault) -> Mem<Reply>
    ensures ok { IfOk result (λ reply. reply_to fault ≡ Some reply) }
    ensures err { OnErr result (reply_to fault ≡ None) }
    ensures session { session.new ≡ (if is_ended fault then None else session.old) }
{
    match fault {
        CommitFault::Conflict { ts, text, .. } => {
            clear(session);
            Ok(Reply::Refused(Refusal::Conflict { ts, key: text }))
        }
        CommitFault::Moving { pred } => {
            clear(session);
            Ok(Reply::Refused(Refusal::Moving { pred }))
        }
        CommitFault::TimestampsSpent { next, .. } => {
            Ok(Reply::Refused(Refusal::TimestampsSpent { next }))
        }
        CommitFault::OutOfMemory { .. } => Err(OutOfMemory),
    }
}

// Ends a transaction without changes. It takes no memory.
fn commit_nothing<C: Cluster>(
    cluster: &mut C,
    session: &mut Option<Txn>,
    author: u32,
    sid: u32,
) -> Reply
    requires own { C.takes cluster.old author ≡ true }
    requires legal { IsLegal (C.zero cluster.old).groups (C.zero cluster.old).history }
    requires session { IsSession (C.zero cluster.old) author session.old }
    requires none { IsSomeAnd session.old (λ txn. txn.own ≡ []) }
    ensures same { C.takes cluster.new ≡ C.takes cluster.old }
    ensures ok { Meets (C.takes cluster.old) (C.zero cluster.old) (C.zero cluster.new) (Serves author sid session.old session.new (λ m n. committed m sid ≡ (result, n))) }
    ensures closed { session.new ≡ None }
    ensures legal { IsLegal (C.zero cluster.new).groups (C.zero cluster.new).history }
{
    let Some(txn) = session.take() else {
        unreachable!()
    };
    close(cluster, txn);
    Reply::Commit { sid, ts: 0 }
}

// The session has a transaction.
fn put(session: &mut Option<Txn>, txn: Txn)
    ensures { session.new ≡ Some txn }
{
    *session = Some(txn);
}

// The session has none any more.
fn clear(session: &mut Option<Txn>)
    ensures { session.new ≡ None }
{
    *session = None;
}

/// The session has no transaction.
pub fn no_session(sid: u32) -> Reply
    ensures { result ≡ Reply.Refused (Refusal.NoSession sid) }
{
    Reply::Refused(Refusal::NoSession { sid })
}
