// What is wrong with texts, and in which order their blocks run.
ghost use Rattle.std.specs.Prelude.{◌≤◌, length};

use dg_check::{CheckFault, fault_of, fault_of_upsert, order_of};
use dg_parse::{Query, parse, parse_upsert};
use dg_schema::Schema;
use dg_values::{Mem, OutOfMemory};
use std::alloc::Global;
use std::fmt::Write;

// What is wrong with the query of a text, or the order of its blocks.
pub(crate) fn query(alloc: Global, schema: &Schema, text: &str) -> Mem<Option<String>>
    requires { length text.now ≤ 1048576 }
{
    match parse(alloc, text) {
        Ok(query) => {
            let found = fault_of(alloc, &query, schema)?;
            Ok(Some(outcome(alloc, &query, found)?))
        }
        Err(fault) => Ok(Some(fault.to_string(alloc)?)),
    }
}

// What is wrong with the upsert block of a text, or the order of its query's blocks.
pub(crate) fn upsert(alloc: Global, schema: &Schema, text: &str) -> Mem<Option<String>>
    requires { length text.now ≤ 1048576 }
{
    match parse_upsert(alloc, text) {
        Ok(upsert) => {
            let found = fault_of_upsert(alloc, &upsert, schema)?;
            Ok(Some(outcome(alloc, &upsert.query, found)?))
        }
        Err(fault) => Ok(Some(fault.to_string(alloc)?)),
    }
}

// A fault, or the order of a query's blocks.
fn outcome(alloc: Global, query: &Query, found: Option<CheckFault>) -> Mem<String> {
    match found {
        Some(fault) => fault_text(alloc, &fault),
        None => order_text(alloc, order_of(alloc, query)?.as_slice()),
    }
}

// The places of blocks, behind the word `ok`.
fn order_text(alloc: Global, order: &[usize]) -> Mem<String> {
    let mut out = String::from_str(alloc, "ok")?;
    for place in order {
        write!(out, " {place}")?;
    }
    Ok(out)
}

// The name of a fault and its fields.
pub(crate) fn fault_text(alloc: Global, fault: &CheckFault) -> Mem<String> {
    match fault {
        CheckFault::UnknownVariable { name } => Ok(format!(in alloc; "UnknownVariable {name}")?),
        CheckFault::VariableTwice { name } => Ok(format!(in alloc; "VariableTwice {name}")?),
        CheckFault::VariableCycle { name } => Ok(format!(in alloc; "VariableCycle {name}")?),
        CheckFault::NotIndexed { pred, func } => Ok(format!(in alloc; "NotIndexed {pred} {func}")?),
        CheckFault::BadLiteral { name } => Ok(format!(in alloc; "BadLiteral {name}")?),
        CheckFault::BadPage { argument } => Ok(format!(in alloc; "BadPage {argument}")?),
        CheckFault::BadDepth { n } => Ok(format!(in alloc; "BadDepth {n}")?),
        CheckFault::OutOfMemory => Err(OutOfMemory),
    }
}
