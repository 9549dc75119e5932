// When the condition of a mutation holds.
ghost use Rattle.std.specs.Prelude.{◌≡◌, pos};
ghost use Rattle.std.specs.List.{list_any, list_all};
ghost use Rattle.std.specs.Ordering.{int_cmp};
ghost use Rattle.dg_funcs.specs.Truth.{stands, negated};
ghost use Rattle.dg_upsert.specs.Conditions.{count_stands, holds, part_holds, is_taken};

use crate::known::{Known, nodes_named};
use dg_parse::{CmpOp, UCond, UPart};
use std::cmp::Ordering;

// How a number of nodes stands to a whole number.
fn count_order(count: usize, n: &i64) -> Ordering
    ensures { result ≡ int_cmp (pos count) n.now }
{
    let count = count as i128;
    count.cmp(&i128::from(*n))
}

// Whether an order is one that a comparison asks for.
fn stands(op: CmpOp, order: Ordering) -> bool
    ensures { result ≡ stands op order }
{
    match op {
        CmpOp::Eq => order.is_eq(),
        CmpOp::Le => order.is_le(),
        CmpOp::Lt => order.is_lt(),
        CmpOp::Ge => order.is_ge(),
        CmpOp::Gt => order.is_gt(),
    }
}

// Whether a number of nodes stands so to a whole number.
fn count_stands(op: CmpOp, count: usize, n: &i64) -> bool
    ensures { result ≡ count_stands op count n.now }
{
    stands(op, count_order(count, n))
}

// What holds behind a number of `not`.
fn negated(nots: usize, holds: bool) -> bool
    ensures { result ≡ negated nots holds }
{
    if nots % 2 == 1 { !holds } else { holds }
}

// Whether a condition holds.
#[cycle(condition)]
fn holds(known: &Known<'_>, condition: &UCond) -> bool
    ensures { result ≡ holds known.now.names known.now.vars.now.variables condition.now }
{
    negated(condition.nots, part_holds(known, &condition.part))
}

// Whether what `not` stands before holds.
#[cycle(condition)]
fn part_holds(known: &Known<'_>, part: &UPart) -> bool
    ensures { result ≡ part_holds known.now.names known.now.vars.now.variables part.now }
{
    match part {
        UPart::Or(parts) => any_holds(known, parts.as_slice()),
        UPart::And(parts) => all_hold(known, parts.as_slice()),
        UPart::Len { op, var, n } => {
            count_stands(*op, nodes_named(known, var.as_str()).len(), n)
        }
    }
}

// Whether one of these conditions holds.
#[cycle(condition)]
fn any_holds(known: &Known<'_>, conditions: &[UCond]) -> bool
    ensures { result ≡ list_any (holds known.now.names known.now.vars.now.variables) conditions.now }
{
    for condition in conditions {
        if holds(known, condition) {
            return true;
        }
    }
    false
}

// Whether all of these conditions hold.
#[cycle(condition)]
fn all_hold(known: &Known<'_>, conditions: &[UCond]) -> bool
    ensures { result ≡ list_all (holds known.now.names known.now.vars.now.variables) conditions.now }
{
    for condition in conditions {
        if !holds(known, condition) {
            return false;
        }
    }
    true
}

/// Whether a mutation of this condition is taken.
pub fn is_taken(known: &Known<'_>, condition: &Option<UCond>) -> bool
    ensures { result ≡ is_taken known.now.names known.now.vars.now.variables condition.now }
{
    match condition {
        None => true,
        Some(condition) => holds(known, condition),
    }
}
