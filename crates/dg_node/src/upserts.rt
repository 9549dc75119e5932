// What `upsert` does.
ghost use Rattle.std.specs.Prelude.{◌≡◌, ℕ, ◌≤◌, ◌<◌, true, List, [], None, Some, is_some, length, IfOk, OnErr, IsErrOf};
ghost use Rattle.dg_check.specs.Outcomes.{IsPlanOf};
ghost use Rattle.dg_check.specs.Patterns.{IsFrontOf};
ghost use Rattle.dg_graph.specs.Graphs.{IsLawful};
ghost use Rattle.dg_level.specs.Meaning.{variables_of, overflow_of};
ghost use Rattle.dg_parse.specs.Whole.{upsert_of};
ghost use Rattle.dg_txn.specs.Own.{graph};
ghost use Rattle.dg_upsert.specs.Meaning.{mutations_mean};
ghost use Rattle.dg_wire.specs.declared.request.Request.TheVariants as requests;
ghost use Rattle.dg_zero.specs.Legal.{IsLegal};
ghost use Rattle.dg_node.specs.Clusters.{Meets};
ghost use Rattle.dg_node.specs.Sessions.{IsSession, IsOpen, Serves, session_by};
ghost use Rattle.dg_node.specs.Steps.{Spares, MayRaise};
ghost use Rattle.dg_node.specs.Upserts.{as_upsert, statements_of, Adds, AddsUnless, UpsertsBy, UpsertsAs, Upserts};

use crate::cluster::Cluster;
use crate::mutations::add_checked;
use crate::queries::refused_check;
use crate::transactions::no_session;
use dg_check::{Blocks, Patterns, Plan, Vars, check_upsert};
use dg_graph::Snapshot;
use dg_level::{RunFault, run_variables};
use dg_parse::{DqlFault, Upsert, parse_upsert};
use dg_txn::Txn;
use dg_upsert::apply_blocks;
use dg_values::{Mem, OutOfMemory, Steps, Str};
use dg_wire::{Refusal, Reply};
use std::alloc::Global;
use std::marker::Brand;
use std::str;
use std::sync::ledger::{Blank, Ledger};

/// Evaluates an upsert block as a session sees the graph, adds the changes of its mutations to those of the session's open transaction,
/// and leases its new nodes. The maker's list of refused patterns may grow.
///
/// `NoSession` comes where it has none; then `BadToken`, `TooDeep` and `BadSyntax` at a fault of the text; then what the checks find; then
/// `SumOverflow` at a sum that is no number of 64 bits; then `NoPredicate`, `WrongObject` and `BadLiteral` where the schema doesn't
/// allow a statement for which one stands; then `UidsSpent` where so many nodes aren't left. After want of memory the
/// transaction is as it was; the nodes may be leased.
pub fn upsert<C: Cluster, P: Patterns>(
    alloc: Global,
    cluster: &mut C,
    session: &mut Option<Txn>,
    author: u32,
    sid: u32,
    body: &[u8],
    patterns: &mut P,
) -> Mem<Reply>
    requires size { length body.now ≤ 1048576 }
    requires own { C.takes cluster.old author ≡ true }
    requires session { IsSession (C.zero cluster.old) author session.old }
    ensures same { C.takes cluster.new ≡ C.takes cluster.old }
    ensures ok { IfOk result (λ reply. Meets (C.takes cluster.old) (C.zero cluster.old) (C.zero cluster.new) (Serves author sid session.old session.new (λ m n. Upserts (P.refused patterns.new) m sid body.now reply n))) }
    ensures err { OnErr result (Meets (C.takes cluster.old) (C.zero cluster.old) (C.zero cluster.new) (Serves author sid session.old session.new (λ m n. Spares (requests.Upsert sid body.now) m n))) }
    ensures kept { OnErr result (session.new ≡ session.old) }
    ensures stays { is_some session.new ≡ is_some session.old }
    ensures session { IsSession (C.zero cluster.new) author session.new }
    ensures legal { IsLegal (C.zero cluster.new).groups (C.zero cluster.new).history }
    ensures grows { IsFrontOf (P.refused patterns.old) (P.refused patterns.new) }
{
    cluster.history_is_legal();
    match session {
        None => Ok(no_session(sid)),
        Some(txn) => match str::from_utf8(body) {
            Ok(text) => upsert_text(alloc, cluster, txn, author, sid, text, patterns),
            Err(fault) => Ok(Reply::Refused(Refusal::BadToken {
                offset: fault.valid_up_to() as u64,
            })),
        },
    }
}

// Evaluates the upsert block of a text.
fn upsert_text<C: Cluster, P: Patterns>(
    alloc: Global,
    cluster: &mut C,
    txn: &mut Txn,
    author: u32,
    sid: u32,
    text: &str,
    patterns: &mut P,
) -> Mem<Reply>
    requires size { length text.now ≤ 1048576 }
    requires own { C.takes cluster.old author ≡ true }
    requires legal { IsLegal (C.zero cluster.old).groups (C.zero cluster.old).history }
    requires opened { IsOpen (C.zero cluster.old).history author txn.old }
    ensures same { C.takes cluster.new ≡ C.takes cluster.old }
    ensures ok { IfOk result (λ reply. Meets (C.takes cluster.old) (C.zero cluster.old) (C.zero cluster.new) (Serves author sid (Some txn.old) (Some txn.new) (λ m n. UpsertsAs (P.refused patterns.new) m (session_by sid txn.old) txn.old.schema (graph txn.old) (upsert_of text.now) reply n))) }
    ensures err { OnErr result (Meets (C.takes cluster.old) (C.zero cluster.old) (C.zero cluster.new) (Serves author sid (Some txn.old) (Some txn.new) (MayRaise (λ m. UpsertsAs [] m (session_by sid txn.old) txn.old.schema (graph txn.old) (upsert_of text.now))))) }
    ensures kept { OnErr result (txn.new ≡ txn.old) }
    ensures opened { IsOpen (C.zero cluster.new).history author txn.new }
    ensures legal { IsLegal (C.zero cluster.new).groups (C.zero cluster.new).history }
    ensures grows { IsFrontOf (P.refused patterns.old) (P.refused patterns.new) }
{
    match parse_upsert(alloc, text) {
        Ok(upsert) => upsert_read(alloc, cluster, txn, author, sid, upsert, patterns),
        Err(DqlFault::BadToken { offset }) => Ok(Reply::Refused(Refusal::BadToken {
            offset: u64::from(offset),
        })),
        Err(DqlFault::TooDeep { offset }) => Ok(Reply::Refused(Refusal::TooDeep {
            offset: u64::from(offset),
        })),
        Err(DqlFault::BadSyntax { offset }) => Ok(Reply::Refused(Refusal::BadSyntax {
            offset: u64::from(offset),
        })),
        Err(DqlFault::OutOfMemory) => Err(OutOfMemory),
    }
}

// Evaluates an upsert block that was read, or says what is wrong with it.
fn upsert_read<C: Cluster, P: Patterns>(
    alloc: Global,
    cluster: &mut C,
    txn: &mut Txn,
    author: u32,
    sid: u32,
    upsert: Upsert,
    patterns: &mut P,
) -> Mem<Reply>
    requires own { C.takes cluster.old author ≡ true }
    requires legal { IsLegal (C.zero cluster.old).groups (C.zero cluster.old).history }
    requires opened { IsOpen (C.zero cluster.old).history author txn.old }
    ensures same { C.takes cluster.new ≡ C.takes cluster.old }
    ensures ok { IfOk result (λ reply. Meets (C.takes cluster.old) (C.zero cluster.old) (C.zero cluster.new) (Serves author sid (Some txn.old) (Some txn.new) (λ m n. UpsertsBy (P.refused patterns.new) m (session_by sid txn.old) txn.old.schema (graph txn.old) upsert reply n))) }
    ensures err { OnErr result (Meets (C.takes cluster.old) (C.zero cluster.old) (C.zero cluster.new) (Serves author sid (Some txn.old) (Some txn.new) (MayRaise (λ m. UpsertsBy [] m (session_by sid txn.old) txn.old.schema (graph txn.old) upsert)))) }
    ensures kept { OnErr result (txn.new ≡ txn.old) }
    ensures opened { IsOpen (C.zero cluster.new).history author txn.new }
    ensures legal { IsLegal (C.zero cluster.new).groups (C.zero cluster.new).history }
    ensures grows { IsFrontOf (P.refused patterns.old) (P.refused patterns.new) }
{
    match check_upsert(alloc, upsert, txn.schema(), patterns) {
        Ok((plan, muts)) => upsert_by(alloc, cluster, txn, author, sid, &plan, &muts),
        Err(fault) => refused_check(fault),
    }
}

// Evaluates a checked upsert block.
fn upsert_by<C: Cluster>(
    alloc: Global,
    cluster: &mut C,
    txn: &mut Txn,
    author: u32,
    sid: u32,
    plan: &Plan,
    blocks: &Blocks,
) -> Mem<Reply>
    requires own { C.takes cluster.old author ≡ true }
    requires legal { IsLegal (C.zero cluster.old).groups (C.zero cluster.old).history }
    requires opened { IsOpen (C.zero cluster.old).history author txn.old }
    requires plan { IsPlanOf txn.old.schema plan.now.query plan.now }
    ensures same { C.takes cluster.new ≡ C.takes cluster.old }
    ensures ok { IfOk result (λ reply. Meets (C.takes cluster.old) (C.zero cluster.old) (C.zero cluster.new) (Serves author sid (Some txn.old) (Some txn.new) (λ m n. AddsUnless m (session_by sid txn.old) (statements_of txn.old.schema (graph txn.old) (record { query = plan.now.query; muts = blocks.now.mutations })) (overflow_of txn.old.schema (graph txn.old) plan.now.query) reply n))) }
    ensures err { OnErr result (Meets (C.takes cluster.old) (C.zero cluster.old) (C.zero cluster.new) (Serves author sid (Some txn.old) (Some txn.new) (MayRaise (λ m. AddsUnless m (session_by sid txn.old) (statements_of txn.old.schema (graph txn.old) (record { query = plan.now.query; muts = blocks.now.mutations })) (overflow_of txn.old.schema (graph txn.old) plan.now.query))))) }
    ensures kept { OnErr result (txn.new ≡ txn.old) }
    ensures opened { IsOpen (C.zero cluster.new).history author txn.new }
    ensures legal { IsLegal (C.zero cluster.new).groups (C.zero cluster.new).history }
{
    match variables_in::<Brand>(alloc, txn, plan, Blank::new(1)) {
        Ok(vars) => {
            let names = plan.vars.as_slice();
            add_meant(alloc, cluster, txn, author, sid, names, blocks, &vars)
        }
        Err(RunFault::SumOverflow { name }) => Ok(Reply::Refused(Refusal::SumOverflow { name })),
        Err(RunFault::TooLarge) => unreachable!(),
        Err(RunFault::OutOfMemory) => Err(OutOfMemory),
    }
}

// What the variables of an upsert block's query stand for, on a ledger of its own for the lists that are read.
fn variables_in<L: Ledger>(
    alloc: Global,
    txn: &Txn,
    plan: &Plan,
    blank: Blank,
) -> Result<Vars, RunFault>
    requires name { blank.name ≡ L.name }
    requires parts { blank.parts ≡ L.parts }
    requires some { 0 < blank.parts }
    requires plan { IsPlanOf txn.now.schema plan.now.query plan.now }
    ensures known { IsLawful txn.now.schema (graph txn.now) → IfOk result (λ vars. (overflow_of txn.now.schema (graph txn.now) plan.now.query ≡ None) × (vars.variables ≡ variables_of txn.now.schema (graph txn.now) plan.now.query)) }
    ensures overflow { IsLawful txn.now.schema (graph txn.now) → (x : List ℕ) → IsErrOf result (RunFault.SumOverflow x) → overflow_of txn.now.schema (graph txn.now) plan.now.query ≡ Some x }
    ensures fits { IsErrOf result RunFault.TooLarge → ⊥ }
{
    run_variables(alloc, txn, plan, &mut Steps::<L>::new(blank))
}

// Adds the statements for which the mutations of an upsert block stand, by what its variables stand for, to a transaction.
fn add_meant<C: Cluster>(
    alloc: Global,
    cluster: &mut C,
    txn: &mut Txn,
    author: u32,
    sid: u32,
    names: &[Str],
    blocks: &Blocks,
    vars: &Vars,
) -> Mem<Reply>
    requires own { C.takes cluster.old author ≡ true }
    requires legal { IsLegal (C.zero cluster.old).groups (C.zero cluster.old).history }
    requires opened { IsOpen (C.zero cluster.old).history author txn.old }
    ensures same { C.takes cluster.new ≡ C.takes cluster.old }
    ensures ok { IfOk result (λ reply. Meets (C.takes cluster.old) (C.zero cluster.old) (C.zero cluster.new) (Serves author sid (Some txn.old) (Some txn.new) (λ m n. Adds m (session_by sid txn.old) (mutations_mean names.now vars.now.variables blocks.now.mutations) reply n))) }
    ensures err { OnErr result (Meets (C.takes cluster.old) (C.zero cluster.old) (C.zero cluster.new) (Serves author sid (Some txn.old) (Some txn.new) (MayRaise (λ m. Adds m (session_by sid txn.old) (mutations_mean names.now vars.now.variables blocks.now.mutations))))) }
    ensures kept { OnErr result (txn.new ≡ txn.old) }
    ensures opened { IsOpen (C.zero cluster.new).history author txn.new }
    ensures legal { IsLegal (C.zero cluster.new).groups (C.zero cluster.new).history }
{
    let checked = apply_blocks(alloc, txn.schema(), blocks, names, vars);
    match add_checked(alloc, cluster, txn, author, sid, checked) {
        Ok(reply) => Ok(upserted(reply)),
        Err(fault) => Err(fault),
    }
}

// The reply to a mutation, as an upsert gives it.
fn upserted(reply: Reply) -> Reply
    ensures { result ≡ as_upsert reply }
{
    match reply {
        Reply::Mutate { sid, body } => Reply::Upsert { sid, body },
        other => other,
    }
}
