// What `mutate` does.
ghost use Rattle.std.specs.Prelude.{◌≡◌, ◌+◌, ◌<◌, ◌≤◌, ◌^◌, true, List, Some, is_some, length, IfOk, OnOk, OnErr};
ghost use Rattle.std.specs.List.{AllByRecursion};
ghost use Rattle.dg_edges.specs.Deltas.{AreFitting};
ghost use Rattle.dg_edges.specs.Expanding.{new_names, expanded};
ghost use Rattle.dg_edges.specs.Resolving.{Resolves, IsAnswer, IsResolved};
ghost use Rattle.dg_nquad.specs.declared.mutation.Statement.{Statement};
ghost use Rattle.dg_nquad.specs.Plain.{HasNoVariable};
ghost use Rattle.dg_nquad.specs.Whole.{mutation};
ghost use Rattle.dg_wire.specs.declared.request.Request.TheVariants.{Mutate};
ghost use Rattle.dg_zero.specs.Legal.{IsLegal};
ghost use Rattle.dg_txn.specs.Own.{graph};
ghost use Rattle.dg_node.specs.Clusters.{Meets};
ghost use Rattle.dg_node.specs.Mutations.{Mutates, MutatesAs, MutatesBy, added};
ghost use Rattle.dg_node.specs.NewUids.{uids_text};
ghost use Rattle.dg_node.specs.Sessions.{IsSession, IsOpen, Serves, session_by, with_own};
ghost use Rattle.dg_node.specs.Steps.{Spares, MayRaise};

use crate::cluster::{Cluster, ClusterFault};
use crate::new_uids::uids_text;
use crate::transactions::no_session;
use dg_edges::{EdgeFault, Resolved, expand, resolve};
use dg_graph::{Change, Snapshot};
use dg_nquad::{Mutation, NquadFault, read_mutation};
use dg_txn::Txn;
use dg_values::{Mem, OutOfMemory, Steps, Str};
use dg_wire::{Refusal, Reply};
use dg_zero::Slip;
use std::alloc::Global;
use std::marker::Brand;
use std::str;
use std::sync::ledger::{Blank, Ledger};

/// Adds the changes of a text to those of a session's open transaction, and leases its new nodes.
///
/// `NoSession` comes where it has none, `BadToken` and `BadSyntax` at a fault of the text, `NoPredicate`, `WrongObject` and
/// `BadLiteral` where the schema doesn't allow a statement, and `UidsSpent` where so many nodes aren't left. After want of
/// memory the transaction is as it was; the nodes may be leased.
pub fn mutate<C: Cluster>(
    alloc: Global,
    cluster: &mut C,
    session: &mut Option<Txn>,
    author: u32,
    sid: u32,
    body: &[u8],
) -> Mem<Reply>
    requires size { length body.now ≤ 1048576 }
    requires own { C.takes cluster.old author ≡ true }
    requires session { IsSession (C.zero cluster.old) author session.old }
    ensures same { C.takes cluster.new ≡ C.takes cluster.old }
    ensures ok { IfOk result (λ reply. Meets (C.takes cluster.old) (C.zero cluster.old) (C.zero cluster.new) (Serves author sid session.old session.new (λ m n. Mutates m sid body.now reply n))) }
    ensures err { OnErr result (Meets (C.takes cluster.old) (C.zero cluster.old) (C.zero cluster.new) (Serves author sid session.old session.new (λ m n. Spares (Mutate sid body.now) m n))) }
    ensures kept { OnErr result (session.new ≡ session.old) }
    ensures stays { is_some session.new ≡ is_some session.old }
    ensures session { IsSession (C.zero cluster.new) author session.new }
    ensures legal { IsLegal (C.zero cluster.new).groups (C.zero cluster.new).history }
{
    cluster.history_is_legal();
    match session {
        None => Ok(no_session(sid)),
        Some(txn) => match str::from_utf8(body) {
            Ok(text) => mutate_by(alloc, cluster, txn, author, sid, text),
            Err(fault) => Ok(Reply::Refused(Refusal::BadToken {
                offset: fault.valid_up_to() as u64,
            })),
        },
    }
}

// Adds the changes of a text to a transaction.
fn mutate_by<C: Cluster>(
    alloc: Global,
    cluster: &mut C,
    txn: &mut Txn,
    author: u32,
    sid: u32,
    text: &str,
) -> Mem<Reply>
    requires size { length text.now ≤ 1048576 }
    requires own { C.takes cluster.old author ≡ true }
    requires legal { IsLegal (C.zero cluster.old).groups (C.zero cluster.old).history }
    requires opened { IsOpen (C.zero cluster.old).history author txn.old }
    ensures same { C.takes cluster.new ≡ C.takes cluster.old }
    ensures ok { IfOk result (λ reply. Meets (C.takes cluster.old) (C.zero cluster.old) (C.zero cluster.new) (Serves author sid (Some txn.old) (Some txn.new) (λ m n. MutatesAs m (session_by sid txn.old) (mutation text.now) reply n))) }
    ensures err { OnErr result (Meets (C.takes cluster.old) (C.zero cluster.old) (C.zero cluster.new) (Serves author sid (Some txn.old) (Some txn.new) (MayRaise (λ m. MutatesAs m (session_by sid txn.old) (mutation text.now))))) }
    ensures kept { OnErr result (txn.new ≡ txn.old) }
    ensures opened { IsOpen (C.zero cluster.new).history author txn.new }
    ensures legal { IsLegal (C.zero cluster.new).groups (C.zero cluster.new).history }
{
    match read_mutation(alloc, text) {
        Ok(mutation) => mutate_with(alloc, cluster, txn, author, sid, mutation),
        Err(NquadFault::BadToken { offset }) => Ok(Reply::Refused(Refusal::BadToken {
            offset: u64::from(offset),
        })),
        Err(NquadFault::BadSyntax { offset }) => Ok(Reply::Refused(Refusal::BadSyntax {
            offset: u64::from(offset),
        })),
        Err(NquadFault::OutOfMemory) => Err(OutOfMemory),
    }
}

// Adds the changes of statements to a transaction, where its schema allows them.
fn mutate_with<C: Cluster>(
    alloc: Global,
    cluster: &mut C,
    txn: &mut Txn,
    author: u32,
    sid: u32,
    mutation: Mutation,
) -> Mem<Reply>
    requires plain { AllByRecursion HasNoVariable mutation.statements }
    requires own { C.takes cluster.old author ≡ true }
    requires legal { IsLegal (C.zero cluster.old).groups (C.zero cluster.old).history }
    requires opened { IsOpen (C.zero cluster.old).history author txn.old }
    ensures same { C.takes cluster.new ≡ C.takes cluster.old }
    ensures ok { IfOk result (λ reply. Meets (C.takes cluster.old) (C.zero cluster.old) (C.zero cluster.new) (Serves author sid (Some txn.old) (Some txn.new) (λ m n. MutatesBy m (session_by sid txn.old) mutation.statements reply n))) }
    ensures err { OnErr result (Meets (C.takes cluster.old) (C.zero cluster.old) (C.zero cluster.new) (Serves author sid (Some txn.old) (Some txn.new) (MayRaise (λ m. MutatesBy m (session_by sid txn.old) mutation.statements)))) }
    ensures kept { OnErr result (txn.new ≡ txn.old) }
    ensures opened { IsOpen (C.zero cluster.new).history author txn.new }
    ensures legal { IsLegal (C.zero cluster.new).groups (C.zero cluster.new).history }
{
    let checked = resolve(alloc, txn.schema(), mutation);
    add_checked(alloc, cluster, txn, author, sid, checked)
}

// Adds the changes of statements to a transaction, once they were checked against its schema, or says why they were refused.
pub(crate) fn add_checked<C: Cluster>(
    alloc: Global,
    cluster: &mut C,
    txn: &mut Txn,
    author: u32,
    sid: u32,
    checked: Result<Resolved, EdgeFault>,
) -> Mem<Reply>
    requires own { C.takes cluster.old author ≡ true }
    requires legal { IsLegal (C.zero cluster.old).groups (C.zero cluster.old).history }
    requires opened { IsOpen (C.zero cluster.old).history author txn.old }
    requires resolved { IfOk checked (IsResolved txn.old.schema) }
    ensures same { C.takes cluster.new ≡ C.takes cluster.old }
    ensures ok { (statements : List Statement) → IsAnswer (Resolves txn.old.schema statements) checked
        → IfOk result (λ reply. Meets (C.takes cluster.old) (C.zero cluster.old) (C.zero cluster.new) (Serves author sid (Some txn.old) (Some txn.new) (λ m n. MutatesBy m (session_by sid txn.old) statements reply n))) }
    ensures err { (statements : List Statement) → IsAnswer (Resolves txn.old.schema statements) checked
        → OnErr result (Meets (C.takes cluster.old) (C.zero cluster.old) (C.zero cluster.new) (Serves author sid (Some txn.old) (Some txn.new) (MayRaise (λ m. MutatesBy m (session_by sid txn.old) statements)))) }
    ensures kept { OnErr result (txn.new ≡ txn.old) }
    ensures opened { IsOpen (C.zero cluster.new).history author txn.new }
    ensures legal { IsLegal (C.zero cluster.new).groups (C.zero cluster.new).history }
{
    match checked {
        Ok(resolved) => lease(alloc, cluster, txn, author, sid, &resolved),
        Err(EdgeFault::NoPredicate { pred }) => Ok(Reply::Refused(Refusal::NoPredicate { pred })),
        Err(EdgeFault::WrongObject { pred }) => Ok(Reply::Refused(Refusal::WrongObject { pred })),
        Err(EdgeFault::BadLiteral { pred }) => {
            Ok(Reply::Refused(Refusal::BadLiteral { name: pred }))
        }
        Err(EdgeFault::OutOfMemory) => Err(OutOfMemory),
    }
}

// Leases the new nodes of checked statements, and adds their changes to a transaction.
fn lease<C: Cluster>(
    alloc: Global,
    cluster: &mut C,
    txn: &mut Txn,
    author: u32,
    sid: u32,
    resolved: &Resolved,
) -> Mem<Reply>
    requires own { C.takes cluster.old author ≡ true }
    requires legal { IsLegal (C.zero cluster.old).groups (C.zero cluster.old).history }
    requires opened { IsOpen (C.zero cluster.old).history author txn.old }
    requires resolved { IsResolved txn.old.schema resolved.now }
    ensures same { C.takes cluster.new ≡ C.takes cluster.old }
    ensures ok { IfOk result (λ reply. Meets (C.takes cluster.old) (C.zero cluster.old) (C.zero cluster.new) (Serves author sid (Some txn.old) (Some txn.new) (λ m n. added m (session_by sid txn.old) resolved.now ≡ (reply, n)))) }
    ensures err { OnErr result (Meets (C.takes cluster.old) (C.zero cluster.old) (C.zero cluster.new) (Serves author sid (Some txn.old) (Some txn.new) (MayRaise (λ m p k. added m (session_by sid txn.old) resolved.now ≡ (p, k))))) }
    ensures kept { OnErr result (txn.new ≡ txn.old) }
    ensures opened { IsOpen (C.zero cluster.new).history author txn.new }
    ensures legal { IsLegal (C.zero cluster.new).groups (C.zero cluster.new).history }
{
    let names = resolved.new_names(alloc)?;
    if resolved.is_empty() {
        let body = uids_text(alloc, names, 0)?;
        return Ok(Reply::Mutate { sid, body });
    }
    let slip = Slip::new(alloc, author)?;
    let count = names.len() as u64;
    let first = match cluster.lease(slip, resolved.top_uid(), count) {
        Ok(first) => first,
        Err(ClusterFault::UidsSpent { next }) => {
            return Ok(Reply::Refused(Refusal::UidsSpent { next }));
        }
        Err(
            ClusterFault::OutOfMemory
            | ClusterFault::NoPredicate { .. }
            | ClusterFault::Moving { .. }
            | ClusterFault::Pending { .. }
            | ClusterFault::HasData { .. }
            | ClusterFault::NoGroup { .. }
            | ClusterFault::SameGroup { .. }
            | ClusterFault::AlreadyMoving { .. }
            | ClusterFault::NotMoving { .. }
            | ClusterFault::TimestampsSpent { .. }
            | ClusterFault::OldCopy { .. },
        ) => unreachable!(),
    };
    take(alloc, txn, sid, resolved, names, first)
}

// Adds the changes of checked statements to a transaction, with new nodes numbered from `first`, and names these.
fn take(
    alloc: Global,
    txn: &mut Txn,
    sid: u32,
    resolved: &Resolved,
    names: Vec<Str>,
    first: u64,
) -> Mem<Reply>
    requires fitting { AreFitting txn.old.schema (expanded (graph txn.old) resolved.now first) }
    requires names { names.items ≡ new_names resolved.now }
    requires room { first + length (new_names resolved.now) < 2 ^ 64 }
    ensures reply { IfOk result (λ reply. reply ≡ Reply.Mutate sid (uids_text first (new_names resolved.now))) }
    ensures ok { OnOk result (txn.new ≡ with_own txn.old (expanded (graph txn.old) resolved.now first)) }
    ensures err { OnErr result (txn.new ≡ txn.old) }
{
    let changes = changes_of(alloc, txn, resolved, first)?;
    let body = uids_text(alloc, names, first)?;
    txn.add(alloc, changes)?;
    Ok(Reply::Mutate { sid, body })
}

// The changes that checked statements stand for in the graph that a transaction sees.
fn changes_of(alloc: Global, txn: &Txn, resolved: &Resolved, first: u64) -> Mem<Vec<Change>>
    requires room { first + length (new_names resolved.now) < 2 ^ 64 }
    ensures { IfOk result (λ changes. changes.items ≡ expanded (graph txn.now) resolved.now first) }
{
    expand_in::<Brand>(alloc, txn, resolved, first, Blank::new(1))
}

// The same, on a ledger of its own for the lists that are read.
fn expand_in<L: Ledger>(
    alloc: Global,
    txn: &Txn,
    resolved: &Resolved,
    first: u64,
    blank: Blank,
) -> Mem<Vec<Change>>
    requires name { blank.name ≡ L.name }
    requires parts { blank.parts ≡ L.parts }
    requires some { 0 < blank.parts }
    requires room { first + length (new_names resolved.now) < 2 ^ 64 }
    ensures { IfOk result (λ changes. changes.items ≡ expanded (graph txn.now) resolved.now first) }
{
    expand(alloc, txn, resolved, first, &mut Steps::<L>::new(blank))
}
