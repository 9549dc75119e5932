// Comparisons of numbers of objects and of subjects, by lists of nodes by their numbers.
ghost use Rattle.std.specs.Prelude.{◌≡◌, ◌≤◌, ◌∷◌, [], ◌&&◌, ℕ, pos, nat_le, true, Option, IfOk, flat_map};
ghost use Rattle.std.specs.Ordering.{nat_cmp, int_cmp, is_le, is_lt, is_ge, is_gt};
ghost use Rattle.dg_values.specs.Ascending.{ascending};
ghost use Rattle.dg_values.specs.declared.kind.Kind.{Kind};
ghost use Rattle.dg_values.specs.declared.value.Value.TheVariants.{Int};
ghost use Rattle.dg_graph.specs.Lookups.{has_numbers, pointed_to};
ghost use Rattle.dg_check.specs.declared.parts.Func.TheVariants as funcs;
ghost use Rattle.dg_check.specs.declared.parts.Of.TheVariants as part;
ghost use Rattle.dg_parse.specs.declared.query.CmpOp.TheVariants as ops;
ghost use Rattle.dg_funcs.specs.Truth.{stands_to_any};
ghost use Rattle.dg_funcs.specs.Roots.{root_nodes};
ghost use Rattle.dg_funcs.specs.Numbers.{numbered, standing, numbered_as};

use crate::equal::distinct;
use crate::roots::root_by_search;
use dg_check::{Func, Vars};
use dg_graph::Snapshot;
use dg_parse::{CmpOp, QEdge};
use dg_uids::Uids;
use dg_values::{Mem, OutOfMemory, Steps, Value};
use std::alloc::Global;
use std::sync::ledger::Ledger;

/// Whether a predicate is declared with lists of nodes by their numbers of objects, or of subjects.
pub(crate) fn has_numbers<S: Snapshot>(snap: &S, p: &str, reverse: bool) -> bool
    ensures { result ≡ has_numbers (S.declared snap.now) p.now reverse }
{
    match snap.schema().lookup(p) {
        Some(definition) => {
            if reverse {
                definition.reverse && definition.count
            } else {
                definition.count
            }
        }
        None => false,
    }
}

/// The nodes that any subject points to, by the lists of their numbers.
pub(crate) fn pointed_by_numbers<S: Snapshot, L: Ledger>(
    alloc: Global,
    snap: &S,
    p: &str,
    reads: &mut Steps<L>,
) -> Mem<Uids>
    requires numbers { has_numbers (S.declared snap.now) p.now true ≡ true }
    ensures { IfOk result (λ uids. uids ≡ pointed_to (S.graph snap.now) p.now) }
{
    snap.by_count(alloc, p, true, 1, None, reads)
}

// The first number, counted from 0 on, that isn't below another.
fn counted_from(n: &i64) -> u64
    ensures from { (k : ℕ) → nat_le result k ≡ is_ge (int_cmp (pos k) n.now) }
    ensures up_to { (k : ℕ) → 1 ≤ k → nat_le k result ≡ is_le (int_cmp (pos k) n.now) }
{
    if *n < 0 { 0 } else { *n as u64 }
}

// The first number, counted from 0 on, that is above another.
fn counted_above(n: &i64) -> u64
    ensures { (k : ℕ) → nat_le result k ≡ is_gt (int_cmp (pos k) n.now) }
{
    if *n < 0 { 0 } else { *n as u64 + 1 }
}

// The last number, counted from 0 on, that is below another; 0 where there is none.
fn counted_below(n: &i64) -> u64
    ensures { (k : ℕ) → 1 ≤ k → nat_le k result ≡ is_lt (int_cmp (pos k) n.now) }
{
    if *n < 1 { 0 } else { (*n - 1) as u64 }
}

// The nodes whose number is this one or less.
fn up_to<S: Snapshot, L: Ledger>(
    alloc: Global,
    snap: &S,
    edge: &QEdge,
    n: &i64,
    reads: &mut Steps<L>,
) -> Mem<Uids>
    requires numbers { has_numbers (S.declared snap.now) edge.now.pred edge.now.back ≡ true }
    ensures { IfOk result (λ uids. uids ≡ numbered (S.graph snap.now) edge.now (λ k. is_le (int_cmp k n.now))) }
{
    let high = counted_from(n);
    snap.by_count(alloc, edge.pred.as_str(), edge.back, 1, Some(high), reads)
}

// The nodes whose number is below this one.
fn below<S: Snapshot, L: Ledger>(
    alloc: Global,
    snap: &S,
    edge: &QEdge,
    n: &i64,
    reads: &mut Steps<L>,
) -> Mem<Uids>
    requires numbers { has_numbers (S.declared snap.now) edge.now.pred edge.now.back ≡ true }
    ensures { IfOk result (λ uids. uids ≡ numbered (S.graph snap.now) edge.now (λ k. is_lt (int_cmp k n.now))) }
{
    let high = counted_below(n);
    snap.by_count(alloc, edge.pred.as_str(), edge.back, 1, Some(high), reads)
}

// The nodes whose number lies between two.
fn between<S: Snapshot, L: Ledger>(
    alloc: Global,
    snap: &S,
    edge: &QEdge,
    low: &i64,
    high: &i64,
    reads: &mut Steps<L>,
) -> Mem<Uids>
    requires numbers { has_numbers (S.declared snap.now) edge.now.pred edge.now.back ≡ true }
    ensures { IfOk result (λ uids. uids ≡ numbered (S.graph snap.now) edge.now (λ k. is_ge (int_cmp k low.now) && is_le (int_cmp k high.now))) }
{
    let from = counted_from(low);
    let to = counted_from(high);
    snap.by_count(alloc, edge.pred.as_str(), edge.back, from, Some(to), reads)
}

// The nodes whose number is this one or more.
fn from_on<S: Snapshot, L: Ledger>(
    alloc: Global,
    snap: &S,
    edge: &QEdge,
    n: &i64,
    reads: &mut Steps<L>,
) -> Mem<Uids>
    requires numbers { has_numbers (S.declared snap.now) edge.now.pred edge.now.back ≡ true }
    ensures { IfOk result (λ uids. uids ≡ numbered (S.graph snap.now) edge.now (λ k. is_ge (int_cmp k n.now))) }
{
    let low = counted_from(n);
    snap.by_count(alloc, edge.pred.as_str(), edge.back, low, None, reads)
}

// The nodes whose number is above this one.
fn above<S: Snapshot, L: Ledger>(
    alloc: Global,
    snap: &S,
    edge: &QEdge,
    n: &i64,
    reads: &mut Steps<L>,
) -> Mem<Uids>
    requires numbers { has_numbers (S.declared snap.now) edge.now.pred edge.now.back ≡ true }
    ensures { IfOk result (λ uids. uids ≡ numbered (S.graph snap.now) edge.now (λ k. is_gt (int_cmp k n.now))) }
{
    let low = counted_above(n);
    snap.by_count(alloc, edge.pred.as_str(), edge.back, low, None, reads)
}

// The nodes whose number stands so to this one.
fn standing<S: Snapshot, L: Ledger>(
    alloc: Global,
    snap: &S,
    edge: &QEdge,
    op: CmpOp,
    n: &i64,
    reads: &mut Steps<L>,
) -> Mem<Uids>
    requires numbers { has_numbers (S.declared snap.now) edge.now.pred edge.now.back ≡ true }
    ensures { IfOk result (λ uids. uids ≡ standing (S.graph snap.now) edge.now op n.now) }
{
    match op {
        CmpOp::Eq => between(alloc, snap, edge, n, n, reads),
        CmpOp::Le => up_to(alloc, snap, edge, n, reads),
        CmpOp::Lt => below(alloc, snap, edge, n, reads),
        CmpOp::Ge => from_on(alloc, snap, edge, n, reads),
        CmpOp::Gt => above(alloc, snap, edge, n, reads),
    }
}

// Those whose number stands so to a value.
fn root_by_number<S: Snapshot, L: Ledger>(
    alloc: Global,
    snap: &S,
    func: &Func,
    op: CmpOp,
    edge: &QEdge,
    given: &Value,
    vars: &Vars,
    reads: &mut Steps<L>,
) -> Mem<Uids>
    requires numbers { has_numbers (S.declared snap.now) edge.now.pred edge.now.back ≡ true }
    requires count { (kind : Option Kind) × (func.now ≡ funcs.Cmp op (part.Count edge.now) kind (given.now ∷ [])) }
    ensures { IfOk result (λ uids. uids ≡ root_nodes (S.graph snap.now) vars.now.variables func.now) }
{
    match given {
        Value::Int(n) => standing(alloc, snap, edge, op, n, reads),
        _ => root_by_search(alloc, snap, func, vars, reads),
    }
}

// The nodes whose number is a value: none where that is no number.
fn equal_to<S: Snapshot, L: Ledger>(
    alloc: Global,
    snap: &S,
    edge: &QEdge,
    given: &Value,
    reads: &mut Steps<L>,
) -> Mem<Uids>
    requires numbers { has_numbers (S.declared snap.now) edge.now.pred edge.now.back ≡ true }
    ensures { IfOk result (λ uids. uids ≡ numbered_as (S.graph snap.now) edge.now given.now) }
{
    match given {
        Value::Int(n) => between(alloc, snap, edge, n, n, reads),
        Value::Text(_) => Ok(Uids::gathered(Vec::new(alloc))),
        Value::Bool(_) => Ok(Uids::gathered(Vec::new(alloc))),
        Value::Time(_) => Ok(Uids::gathered(Vec::new(alloc))),
    }
}

// Those of some values, gathered and sorted once. It reads the list of each value.
fn equal_to_each<S: Snapshot, L: Ledger>(
    alloc: Global,
    snap: &S,
    edge: &QEdge,
    values: &[Value],
    reads: &mut Steps<L>,
) -> Mem<Uids>
    requires numbers { has_numbers (S.declared snap.now) edge.now.pred edge.now.back ≡ true }
    ensures { IfOk result (λ uids. uids ≡ ascending nat_cmp (flat_map (numbered_as (S.graph snap.now) edge.now) values.now)) }
{
    let mut found = Vec::new(alloc);
    for value in values {
        let nodes = equal_to(alloc, snap, edge, value, reads)?;
        found.extend_from_slice(nodes.as_slice())?;
    }
    Ok(Uids::gathered(found))
}

// The nodes whose number is one of some values. It reads the list of each distinct one.
fn equal_to_any<S: Snapshot, L: Ledger>(
    alloc: Global,
    snap: &S,
    edge: &QEdge,
    values: &[Value],
    reads: &mut Steps<L>,
) -> Mem<Uids>
    requires numbers { has_numbers (S.declared snap.now) edge.now.pred edge.now.back ≡ true }
    ensures { IfOk result (λ uids. uids ≡ numbered (S.graph snap.now) edge.now (λ k. stands_to_any ops.Eq values.now (Int k))) }
{
    let asked = distinct(alloc, values)?;
    equal_to_each(alloc, snap, edge, asked.as_slice(), reads)
}

// Those whose number stands so to one of some values.
fn root_by_any_number<S: Snapshot, L: Ledger>(
    alloc: Global,
    snap: &S,
    func: &Func,
    op: CmpOp,
    edge: &QEdge,
    values: &[Value],
    vars: &Vars,
    reads: &mut Steps<L>,
) -> Mem<Uids>
    requires numbers { has_numbers (S.declared snap.now) edge.now.pred edge.now.back ≡ true }
    requires count { (kind : Option Kind) × (func.now ≡ funcs.Cmp op (part.Count edge.now) kind values.now) }
    ensures { IfOk result (λ uids. uids ≡ root_nodes (S.graph snap.now) vars.now.variables func.now) }
{
    match op {
        CmpOp::Eq => equal_to_any(alloc, snap, edge, values, reads),
        _ => root_by_search(alloc, snap, func, vars, reads),
    }
}

// Those whose number stands so to a value, or to one of several.
fn root_by_numbers<S: Snapshot, L: Ledger>(
    alloc: Global,
    snap: &S,
    func: &Func,
    op: CmpOp,
    edge: &QEdge,
    values: &[Value],
    vars: &Vars,
    reads: &mut Steps<L>,
) -> Mem<Uids>
    requires numbers { has_numbers (S.declared snap.now) edge.now.pred edge.now.back ≡ true }
    requires count { (kind : Option Kind) × (func.now ≡ funcs.Cmp op (part.Count edge.now) kind values.now) }
    ensures { IfOk result (λ uids. uids ≡ root_nodes (S.graph snap.now) vars.now.variables func.now) }
{
    match values {
        [given] => root_by_number(alloc, snap, func, op, edge, given, vars, reads),
        _ => root_by_any_number(alloc, snap, func, op, edge, values, vars, reads),
    }
}

/// The nodes whose number of objects, or of subjects, stands so to one of some values. Where there are lists of nodes by
/// their numbers it reads the list of each number that does, once, and no list of a node. Only by `eq` there are several values in
/// a plan: with several by another comparison each node is asked.
pub(crate) fn root_of_numbers<S: Snapshot, L: Ledger>(
    alloc: Global,
    snap: &S,
    func: &Func,
    op: CmpOp,
    edge: &QEdge,
    values: &[Value],
    vars: &Vars,
    reads: &mut Steps<L>,
) -> Mem<Uids>
    requires count { (kind : Option Kind) × (func.now ≡ funcs.Cmp op (part.Count edge.now) kind values.now) }
    ensures { IfOk result (λ uids. uids ≡ root_nodes (S.graph snap.now) vars.now.variables func.now) }
{
    if has_numbers(snap, edge.pred.as_str(), edge.back) {
        root_by_numbers(alloc, snap, func, op, edge, values, vars, reads)
    } else {
        root_by_search(alloc, snap, func, vars, reads)
    }
}

// Those whose number lies between two.
fn between_numbers<S: Snapshot, L: Ledger>(
    alloc: Global,
    snap: &S,
    func: &Func,
    edge: &QEdge,
    low: &Value,
    high: &Value,
    vars: &Vars,
    reads: &mut Steps<L>,
) -> Mem<Uids>
    requires numbers { has_numbers (S.declared snap.now) edge.now.pred edge.now.back ≡ true }
    requires count { (kind : Option Kind) × (func.now ≡ funcs.Between (part.Count edge.now) kind (low.now ∷ high.now ∷ [])) }
    ensures { IfOk result (λ uids. uids ≡ root_nodes (S.graph snap.now) vars.now.variables func.now) }
{
    match low {
        Value::Int(from) => match high {
            Value::Int(to) => between(alloc, snap, edge, from, to, reads),
            _ => root_by_search(alloc, snap, func, vars, reads),
        },
        _ => root_by_search(alloc, snap, func, vars, reads),
    }
}

/// The nodes whose number of objects, or of subjects, lies between two. Where there are lists of nodes by their numbers it
/// reads those between the two, and no list of a node.
pub(crate) fn root_between_numbers<S: Snapshot, L: Ledger>(
    alloc: Global,
    snap: &S,
    func: &Func,
    edge: &QEdge,
    values: &[Value],
    vars: &Vars,
    reads: &mut Steps<L>,
) -> Mem<Uids>
    requires count { (kind : Option Kind) × (func.now ≡ funcs.Between (part.Count edge.now) kind values.now) }
    ensures { IfOk result (λ uids. uids ≡ root_nodes (S.graph snap.now) vars.now.variables func.now) }
{
    match values {
        [low, high] => {
            if has_numbers(snap, edge.pred.as_str(), edge.back) {
                between_numbers(alloc, snap, func, edge, low, high, vars, reads)
            } else {
                root_by_search(alloc, snap, func, vars, reads)
            }
        }
        _ => root_by_search(alloc, snap, func, vars, reads),
    }
}
