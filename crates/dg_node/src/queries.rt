// What `query` does.
ghost use Rattle.std.specs.Prelude.{◌≡◌, ◌≢◌, ◌≤◌, ◌<◌, None, length, IfOk, IsOk};
ghost use Rattle.dg_check.specs.Outcomes.{IsPlanOf, IsQueryOutcome};
ghost use Rattle.dg_check.specs.Patterns.{IsFrontOf};
ghost use Rattle.dg_check.specs.declared.fault.CheckFault.TheVariants as faults;
ghost use Rattle.dg_graph.specs.Graphs.{IsLawful};
ghost use Rattle.dg_parse.specs.Whole.{query_of};
ghost use Rattle.dg_txn.specs.Own.{graph};
ghost use Rattle.dg_node.specs.Machine.{Machine};
ghost use Rattle.dg_node.specs.Queries.{Queries, QueriesAs, QueriesBy, answer_or_fault, refusal_of_check};
ghost use Rattle.dg_node.specs.Sessions.{IsSession, Sees};

use crate::cluster::Cluster;
use crate::transactions::no_session;
use dg_check::{CheckFault, Patterns, Plan, check};
use dg_graph::Snapshot;
use dg_level::{RunFault, run_plan};
use dg_parse::{DqlFault, Query, parse};
use dg_txn::Txn;
use dg_values::{List, Mem, OutOfMemory, Steps};
use dg_wire::{Refusal, Reply};
use std::alloc::Global;
use std::marker::Brand;
use std::str;
use std::sync::ledger::{Blank, Ledger};

/// Answers a query as a session sees the graph. Nothing changes, but that the maker's list of refused patterns may grow.
///
/// `NoSession` comes where the session has no transaction; then `BadToken`, `TooDeep` and `BadSyntax` at a fault of the text;
/// then what the checks find; then `SumOverflow` at a sum that is no number of 64 bits; then `AnswerTooLarge`. The error is want of memory.
pub fn query<C: Cluster, P: Patterns>(
    alloc: Global,
    cluster: &C,
    session: &Option<Txn>,
    author: u32,
    sid: u32,
    body: &[u8],
    patterns: &mut P,
) -> Mem<Reply>
    requires size { length body.now ≤ 1048576 }
    requires session { IsSession (C.zero cluster.now) author session.now }
    ensures answered { IfOk result (λ reply. Sees sid session.now (λ m n. Queries (P.refused patterns.new) m sid body.now reply n) (C.zero cluster.now)) }
    ensures grows { IsFrontOf (P.refused patterns.old) (P.refused patterns.new) }
{
    let _ = author;
    cluster.history_is_legal();
    let Some(txn) = session else {
        return Ok(no_session(sid));
    };
    match str::from_utf8(body) {
        Ok(text) => query_text(alloc, txn, sid, text, patterns),
        Err(fault) => Ok(Reply::Refused(Refusal::BadToken {
            offset: fault.valid_up_to() as u64,
        })),
    }
}

// Answers the query of a text.
fn query_text<P: Patterns>(
    alloc: Global,
    txn: &Txn,
    sid: u32,
    text: &str,
    patterns: &mut P,
) -> Mem<Reply>
    requires size { length text.now ≤ 1048576 }
    ensures answered { IsLawful txn.now.schema (graph txn.now) → (m : Machine) → IfOk result (λ reply. QueriesAs (P.refused patterns.new) m sid txn.now.schema (graph txn.now) (query_of text.now) reply m) }
    ensures grows { IsFrontOf (P.refused patterns.old) (P.refused patterns.new) }
{
    match parse(alloc, text) {
        Ok(query) => query_read(alloc, txn, sid, query, patterns),
        Err(DqlFault::BadToken { offset }) => Ok(Reply::Refused(Refusal::BadToken {
            offset: u64::from(offset),
        })),
        Err(DqlFault::TooDeep { offset }) => Ok(Reply::Refused(Refusal::TooDeep {
            offset: u64::from(offset),
        })),
        Err(DqlFault::BadSyntax { offset }) => Ok(Reply::Refused(Refusal::BadSyntax {
            offset: u64::from(offset),
        })),
        Err(DqlFault::OutOfMemory) => Err(OutOfMemory),
    }
}

// Answers a query that was read, or says what is wrong with it.
fn query_read<P: Patterns>(
    alloc: Global,
    txn: &Txn,
    sid: u32,
    query: Query,
    patterns: &mut P,
) -> Mem<Reply>
    ensures answered { IsLawful txn.now.schema (graph txn.now) → (m : Machine) → IfOk result (λ reply. QueriesBy (P.refused patterns.new) m sid txn.now.schema (graph txn.now) query reply m) }
    ensures grows { IsFrontOf (P.refused patterns.old) (P.refused patterns.new) }
{
    match check(alloc, query, txn.schema(), patterns) {
        Ok(plan) => answer::<Brand>(alloc, txn, sid, &plan, Blank::new(1)),
        Err(fault) => refused_check(fault),
    }
}

// The refusal of a fault that the checks find, unless it is want of memory.
pub(crate) fn refused_check(fault: CheckFault) -> Mem<Reply>
    ensures refused { IfOk result (λ reply. reply ≡ Reply.Refused (refusal_of_check fault)) }
    ensures found { IsOk result → fault ≢ faults.OutOfMemory }
{
    let refusal = match fault {
        CheckFault::UnknownVariable { name } => Refusal::UnknownVariable { name },
        CheckFault::VariableTwice { name } => Refusal::VariableTwice { name },
        CheckFault::VariableCycle { name } => Refusal::VariableCycle { name },
        CheckFault::NotIndexed { pred, func } => Refusal::NotIndexed { pred, func },
        CheckFault::BadLiteral { name } => Refusal::BadLiteral { name },
        CheckFault::BadPage { argument } => Refusal::BadPage { argument },
        CheckFault::BadDepth { n } => Refusal::BadDepth { n },
        CheckFault::OutOfMemory => return Err(OutOfMemory),
    };
    Ok(Reply::Refused(refusal))
}

// The answer of a checked query, on a ledger of its own for the lists that are read.
fn answer<L: Ledger>(alloc: Global, txn: &Txn, sid: u32, plan: &Plan, blank: Blank) -> Mem<Reply>
    requires name { blank.name ≡ L.name }
    requires parts { blank.parts ≡ L.parts }
    requires some { 0 < blank.parts }
    requires plan { IsPlanOf txn.now.schema plan.now.query plan.now }
    ensures { IsLawful txn.now.schema (graph txn.now) → (m : Machine) → IfOk result (λ reply. answer_or_fault m sid txn.now.schema (graph txn.now) plan.now.query None ≡ (reply, m)) }
{
    match run_plan(alloc, txn, plan, &mut Steps::<L>::new(blank)) {
        Ok(text) => Ok(Reply::Query {
            sid,
            body: List::from_vec(text.into_bytes()),
        }),
        Err(RunFault::SumOverflow { name }) => Ok(Reply::Refused(Refusal::SumOverflow { name })),
        Err(RunFault::TooLarge) => Ok(Reply::Refused(Refusal::AnswerTooLarge)),
        Err(RunFault::OutOfMemory) => Err(OutOfMemory),
    }
}
