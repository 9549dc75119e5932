// `eq` by an index of dates: equal moments lie in the same hour, day, month or year.
ghost use Rattle.std.specs.Prelude.{◌≡◌, ◌+◌, true, Some, map, length, filter, Option, IfOk, IfSome, OnOk};
ghost use Rattle.dg_values.specs.Order.{value_cmp};
ghost use Rattle.dg_values.specs.Ascending.{ascending};
ghost use Rattle.dg_values.specs.declared.kind.Kind.{Kind};
ghost use Rattle.dg_graph.specs.Lookups.{is_indexed_by};
ghost use Rattle.dg_parse.specs.declared.query.CmpOp.TheVariants as ops;
ghost use Rattle.dg_check.specs.declared.parts.Func.TheVariants as funcs;
ghost use Rattle.dg_check.specs.declared.parts.Of.TheVariants as part;
ghost use Rattle.dg_funcs.specs.Equal.{filed_nodes};
ghost use Rattle.dg_funcs.specs.Filed.{filed_as};
ghost use Rattle.dg_funcs.specs.Roots.{root_nodes};

use crate::equal::{distinct, filed};
use crate::held::held;
use crate::ordered::{date_index, filed_as};
use crate::roots::root_by_search;
use dg_check::{Func, Vars};
use dg_graph::Snapshot;
use dg_uids::Uids;
use dg_values::{Mem, OutOfMemory, Steps, Tokenizer, Value};
use std::alloc::Global;
use std::sync::ledger::Ledger;

// The values under which an index files these, where it files each.
fn all_filed_as(alloc: Global, tokenizer: Tokenizer, values: &[Value]) -> Mem<Option<Vec<Value>>>
    ensures { IfOk result (λ o. IfSome o (λ v. map (λ w. Some w) v.items ≡ map (filed_as tokenizer) values.now)) }
{
    let mut found = Vec::new(alloc);
    for value in values {
        match filed_as(alloc, tokenizer, value)? {
            Some(w) => found.push(w)?,
            None => return Ok(None),
        }
    }
    Ok(Some(found))
}

// The nodes that an index lists under these values. It reads one list for each distinct one.
fn filed_once<S: Snapshot, L: Ledger>(
    alloc: Global,
    snap: &S,
    p: &str,
    tokenizer: Tokenizer,
    values: &[Value],
    reads: &mut Steps<L>,
) -> Mem<Uids>
    requires tokenizer { is_indexed_by (S.declared snap.now) p.now tokenizer ≡ true }
    ensures nodes { IfOk result (λ uids. uids ≡ filed_nodes (S.graph snap.now) p.now tokenizer (ascending value_cmp values.now)) }
    ensures reads { OnOk result (reads.new ≡ reads.old + length (ascending value_cmp values.now)) }
{
    let asked = distinct(alloc, values)?;
    filed(alloc, snap, p, tokenizer, asked.as_slice(), reads)
}

// Those with a value equal to one of these, of which an index files each under one of some others.
fn held_filed<S: Snapshot, L: Ledger>(
    alloc: Global,
    snap: &S,
    func: &Func,
    p: &str,
    tokenizer: Tokenizer,
    values: &[Value],
    under: &[Value],
    vars: &Vars,
    reads: &mut Steps<L>,
) -> Mem<Uids>
    requires tokenizer { is_indexed_by (S.declared snap.now) p.now tokenizer ≡ true }
    requires equal { (kind : Option Kind) × (func.now ≡ funcs.Cmp ops.Eq (part.Pred p.now) kind values.now) }
    requires filed { map (λ w. Some w) under.now ≡ map (filed_as tokenizer) values.now }
    ensures { IfOk result (λ uids. uids ≡ root_nodes (S.graph snap.now) vars.now.variables func.now) }
{
    let nodes = filed_once(alloc, snap, p, tokenizer, under, reads)?;
    held(alloc, snap, func, &nodes, vars, reads)
}

// Those with a value equal to one of these, by an index of dates.
fn equal_by_index_of_dates<S: Snapshot, L: Ledger>(
    alloc: Global,
    snap: &S,
    func: &Func,
    p: &str,
    tokenizer: Tokenizer,
    values: &[Value],
    vars: &Vars,
    reads: &mut Steps<L>,
) -> Mem<Uids>
    requires tokenizer { is_indexed_by (S.declared snap.now) p.now tokenizer ≡ true }
    requires equal { (kind : Option Kind) × (func.now ≡ funcs.Cmp ops.Eq (part.Pred p.now) kind values.now) }
    ensures { IfOk result (λ uids. uids ≡ root_nodes (S.graph snap.now) vars.now.variables func.now) }
{
    let under = all_filed_as(alloc, tokenizer, values)?;
    match &under {
        Some(under) => held_filed(
            alloc,
            snap,
            func,
            p,
            tokenizer,
            values,
            under.as_slice(),
            vars,
            reads,
        ),
        None => root_by_search(alloc, snap, func, vars, reads),
    }
}

/// The nodes that have a value equal to one of these. By the finest index of dates that there is it reads one list for each
/// distinct hour, day, month or year of theirs, and then one for each node there.
pub(crate) fn equal_by_dates<S: Snapshot, L: Ledger>(
    alloc: Global,
    snap: &S,
    func: &Func,
    p: &str,
    values: &[Value],
    vars: &Vars,
    reads: &mut Steps<L>,
) -> Mem<Uids>
    requires equal { (kind : Option Kind) × (func.now ≡ funcs.Cmp ops.Eq (part.Pred p.now) kind values.now) }
    ensures { IfOk result (λ uids. uids ≡ root_nodes (S.graph snap.now) vars.now.variables func.now) }
{
    match date_index(snap, p) {
        Some(tokenizer) => {
            equal_by_index_of_dates(alloc, snap, func, p, tokenizer, values, vars, reads)
        }
        None => root_by_search(alloc, snap, func, vars, reads),
    }
}
