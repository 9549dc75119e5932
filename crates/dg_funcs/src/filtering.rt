// The nodes at which a filter holds.
ghost use Rattle.std.specs.Prelude.{◌≡◌, ◌∷◌, [], ◌%◌, ◌==◌, IfOk, filter};
ghost use Rattle.std.specs.List.{list_any, list_all};
ghost use Rattle.std.specs.Ordering.{nat_cmp};
ghost use Rattle.dg_values.specs.Ascending.{ascending};
ghost use Rattle.dg_funcs.specs.Truth.{passes, part_passes, passed};

use crate::held::held;
use dg_check::{Filter, Part, Vars};
use dg_graph::Snapshot;
use dg_uids::Uids;
use dg_values::{Mem, OutOfMemory, Steps};
use std::alloc::Global;
use std::sync::ledger::Ledger;

// Whether a number of `not` turns what stands behind it.
fn is_odd(nots: usize) -> bool
    ensures { result ≡ (nots % 2 == 1) }
{
    nots % 2 == 1
}

/// The nodes of a set at which a filter holds. A function is asked of each node once at most: the parts of an `and` of
/// those that passed so far, the parts of an `or` of those that haven't. The error is want of memory.
#[cycle(passing)]
pub fn passing<S: Snapshot, L: Ledger>(
    alloc: Global,
    snap: &S,
    filter: &Filter,
    nodes: &Uids,
    vars: &Vars,
    reads: &mut Steps<L>,
) -> Mem<Uids>
    ensures { IfOk result (λ uids. uids ≡ passed (S.graph snap.now) vars.now.variables filter.now nodes.now) }
{
    let pass = passing_part(alloc, snap, &filter.part, nodes, vars, reads)?;
    if is_odd(filter.nots) {
        nodes.without(alloc, &pass)
    } else {
        Ok(pass)
    }
}

// Those at which what `not` stands before holds.
#[cycle(passing)]
fn passing_part<S: Snapshot, L: Ledger>(
    alloc: Global,
    snap: &S,
    part: &Part,
    nodes: &Uids,
    vars: &Vars,
    reads: &mut Steps<L>,
) -> Mem<Uids>
    ensures { IfOk result (λ uids. uids ≡ filter (λ n. part_passes (S.graph snap.now) vars.now.variables n part.now) nodes.now) }
{
    match part {
        Part::Func(func) => held(alloc, snap, func, nodes, vars, reads),
        Part::And(parts) => passing_all(alloc, snap, parts.as_slice(), nodes, vars, reads),
        Part::Or(parts) => passing_any(alloc, snap, parts.as_slice(), nodes, vars, reads),
    }
}

// Those at which each part holds.
#[cycle(passing)]
fn passing_all<S: Snapshot, L: Ledger>(
    alloc: Global,
    snap: &S,
    parts: &[Filter],
    nodes: &Uids,
    vars: &Vars,
    reads: &mut Steps<L>,
) -> Mem<Uids>
    ensures { IfOk result (λ uids. uids ≡ filter (λ n. list_all (passes (S.graph snap.now) vars.now.variables n) parts.now) nodes.now) }
{
    let mut left = nodes.copy(alloc)?;
    for part in parts {
        left = passing(alloc, snap, part, &left, vars, reads)?;
    }
    Ok(left)
}

// Those at which some part holds.
#[cycle(passing)]
fn passing_any<S: Snapshot, L: Ledger>(
    alloc: Global,
    snap: &S,
    parts: &[Filter],
    nodes: &Uids,
    vars: &Vars,
    reads: &mut Steps<L>,
) -> Mem<Uids>
    ensures { IfOk result (λ uids. uids ≡ filter (λ n. list_any (passes (S.graph snap.now) vars.now.variables n) parts.now) nodes.now) }
{
    let mut rest = nodes.copy(alloc)?;
    for part in parts {
        let pass = passing(alloc, snap, part, &rest, vars, reads)?;
        rest = rest.without(alloc, &pass)?;
    }
    nodes.without(alloc, &rest)
}

// The set of one node.
fn only(alloc: Global, node: u64) -> Mem<Uids>
    ensures { IfOk result (λ uids. uids ≡ ascending nat_cmp (node ∷ [])) }
{
    let mut one = Vec::new(alloc);
    one.push(node)?;
    Ok(Uids::gathered(one))
}

/// Whether a filter holds at a node. The error is want of memory.
pub fn holds<S: Snapshot, L: Ledger>(
    alloc: Global,
    snap: &S,
    node: u64,
    filter: &Filter,
    vars: &Vars,
    reads: &mut Steps<L>,
) -> Mem<bool>
    ensures { IfOk result (λ b. b ≡ passes (S.graph snap.now) vars.now.variables node filter.now) }
{
    let one = only(alloc, node)?;
    let left = passing(alloc, snap, filter, &one, vars, reads)?;
    Ok(left.has(node))
}
