// What the fields of a query show at the nodes of its root, and what whole queries answer.
ghost use Rattle.std.specs.Prelude.{◌≡◌, ◌≤◌, ◌<◌, length};
ghost use Rattle.dg_check.specs.Outcomes.{IsPlanOf};

use crate::counted::Counted;
use crate::ground::{Ground, MOST};
use dg_check::{CheckFault, Parts, Plan, RegexPatterns, Vars, check};
use dg_funcs::root;
use dg_graph::{Plain, Snapshot};
use dg_level::{Rows, RunFault, rows_of, run_plan};
use dg_parse::{DqlFault, QBlock, Query, parse};
use dg_tree::TreeFault;
use dg_uids::Uids;
use dg_values::{List, Mem, OutOfMemory, Steps};
use std::alloc::Global;
use std::marker::Brand;
use std::sync::ledger::{Blank, Ledger};

// The most bytes that the text of an answer has.
const LONGEST: usize = 16_777_216;

/// The query of a text, if it is one.
pub(crate) fn query_of(alloc: Global, text: &str) -> Mem<Option<Query>> {
    if text.len() > MOST {
        return Ok(None);
    }
    match parse(alloc, text) {
        Ok(query) => Ok(Some(query)),
        Err(DqlFault::OutOfMemory) => Err(OutOfMemory),
        Err(_) => Ok(None),
    }
}

/// The plan of a query that passes the checks.
pub(crate) fn plan_of(alloc: Global, ground: &Ground, text: &str) -> Mem<Option<Plan>> {
    let Some(query) = query_of(alloc, text)? else {
        return Ok(None);
    };
    let mut maker = RegexPatterns::new(alloc);
    Ok(check(alloc, query, &ground.at.schema, &mut maker).ok())
}

/// What variables stand for where there is none.
pub(crate) fn no_variables(alloc: Global) -> Vars {
    Vars {
        variables: List::new(alloc),
    }
}

/// The nodes of a root.
pub(crate) fn nodes_in<L: Ledger>(
    alloc: Global,
    at: &Plain,
    kept: &Parts,
    vars: &Vars,
    reads: &mut Steps<L>,
) -> Mem<Uids> {
    match &kept.root {
        Some(func) => root(alloc, at, func, vars, reads),
        None => Ok(Uids::gathered(Vec::new(alloc))),
    }
}

// What a block's fields show at the nodes of its root.
fn block_rows<L: Ledger>(
    alloc: Global,
    at: &Plain,
    limit: usize,
    block: &QBlock,
    kept: &Parts,
    blank: Blank,
) -> Result<Rows, TreeFault>
    requires name { blank.name ≡ L.name }
    requires parts { blank.parts ≡ L.parts }
    requires some { 0 < blank.parts }
{
    let mut reads = Steps::<L>::new(blank);
    let vars = no_variables(alloc);
    let nodes = nodes_in(alloc, at, kept, &vars, &mut reads)?;
    rows_of(
        alloc,
        at,
        limit,
        false,
        block.fields.as_slice(),
        kept.fields.as_slice(),
        &vars,
        &nodes,
        &mut reads,
    )
}

// The rows of the first block of a query.
fn first_rows(
    alloc: Global,
    ground: &Ground,
    limit: usize,
    plan: &Plan,
) -> Mem<Option<Result<Rows, TreeFault>>> {
    let Some(block) = plan.query.blocks.as_slice().first() else {
        return Ok(None);
    };
    let Some(kept) = plan.parts.as_slice().first() else {
        return Ok(None);
    };
    match block_rows::<Brand>(alloc, &ground.at, limit, block, kept, Blank::new(1)) {
        Err(TreeFault::OutOfMemory) => Err(OutOfMemory),
        made => Ok(Some(made)),
    }
}

// Each row in braces, with a blank between any two.
fn joined(alloc: Global, rows: &Rows) -> Mem<String> {
    let mut text = String::new(alloc);
    for place in 0..rows.len() {
        text.push_str(if place == 0 { "{" } else { " {" })?;
        text.push_str(rows.get(place))?;
        text.push_str("}")?;
    }
    Ok(text)
}

fn rows_text(alloc: Global, made: &Result<Rows, TreeFault>) -> Mem<String> {
    match made {
        Ok(rows) => joined(alloc, rows),
        Err(fault) => Ok(fault.to_string(alloc)?),
    }
}

fn size_text(alloc: Global, made: &Result<Rows, TreeFault>) -> Mem<String> {
    match made {
        Ok(rows) => Ok(format!(in alloc; "{} bytes", rows.total())?),
        Err(fault) => Ok(fault.to_string(alloc)?),
    }
}

// The rows of a query within a limit.
fn made(
    alloc: Global,
    ground: &Ground,
    limit: usize,
    text: &str,
) -> Mem<Option<Result<Rows, TreeFault>>> {
    match plan_of(alloc, ground, text)? {
        Some(plan) => first_rows(alloc, ground, limit, &plan),
        None => Ok(None),
    }
}

/// `QUERY`: what the fields of its first block show at each node of the root.
pub(crate) fn rows(alloc: Global, ground: &Ground, text: &str) -> Mem<Option<String>> {
    match made(alloc, ground, LONGEST, text)? {
        Some(made) => Ok(Some(rows_text(alloc, &made)?)),
        None => Ok(None),
    }
}

/// `LIMIT, QUERY`: the same where all rows together have no more bytes than the limit.
pub(crate) fn within(alloc: Global, ground: &Ground, fields: &str) -> Mem<Option<String>> {
    let (limit, text) = fields.split_once('\t').unwrap_or((fields, ""));
    let Ok(limit) = limit.parse::<usize>() else {
        return Ok(None);
    };
    match made(alloc, ground, limit.min(LONGEST), text)? {
        Some(made) => Ok(Some(rows_text(alloc, &made)?)),
        None => Ok(None),
    }
}

/// `QUERY`: how many bytes the rows have together.
pub(crate) fn size(alloc: Global, ground: &Ground, text: &str) -> Mem<Option<String>> {
    match made(alloc, ground, LONGEST, text)? {
        Some(made) => Ok(Some(size_text(alloc, &made)?)),
        None => Ok(None),
    }
}

// What a checked query answers, or why it has no answer.
fn plan_text<S: Snapshot, L: Ledger>(
    alloc: Global,
    at: &S,
    plan: &Plan,
    blank: Blank,
) -> Mem<String>
    requires name { blank.name ≡ L.name }
    requires parts { blank.parts ≡ L.parts }
    requires some { 0 < blank.parts }
    requires plan { IsPlanOf (S.declared at.now) plan.now.query plan.now }
{
    let mut reads = Steps::<L>::new(blank);
    match run_plan(alloc, at, plan, &mut reads) {
        Ok(text) => Ok(text),
        Err(RunFault::OutOfMemory) => Err(OutOfMemory),
        Err(fault) => Ok(fault.to_string(alloc)?),
    }
}

// What all blocks of a query answer, or why there is no answer.
fn answer_over<S: Snapshot>(alloc: Global, at: &S, text: &str) -> Mem<Option<String>> {
    let Some(query) = query_of(alloc, text)? else {
        return Ok(None);
    };
    let mut maker = RegexPatterns::new(alloc);
    match check(alloc, query, at.schema(), &mut maker) {
        Ok(plan) => Ok(Some(plan_text::<S, Brand>(alloc, at, &plan, Blank::new(1))?)),
        Err(CheckFault::OutOfMemory) => Err(OutOfMemory),
        Err(_) => Ok(None),
    }
}

/// `QUERY`: what all its blocks answer, or why there is no answer.
pub(crate) fn answer(alloc: Global, ground: &Ground, text: &str) -> Mem<Option<String>> {
    answer_over(alloc, &ground.at, text)
}

/// `QUERY`: the same, and how many calls of each kind were made for it.
pub(crate) fn with_calls(alloc: Global, ground: &Ground, text: &str) -> Mem<Option<String>> {
    let at = Counted::over(&ground.at);
    let Some(answer) = answer_over(alloc, &at, text)? else {
        return Ok(None);
    };
    let calls = at.calls(alloc)?;
    Ok(Some(format!(in alloc; "{answer} {calls}")?))
}
