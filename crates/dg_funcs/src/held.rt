// The nodes of a set at which a function holds. Each is asked once.
ghost use Rattle.std.specs.Prelude.{◌≡◌, nat_le, filter, IfOk};
ghost use Rattle.std.specs.List.{list_any};
ghost use Rattle.std.specs.Ordering.{nat_cmp};
ghost use Rattle.dg_values.specs.Ascending.{ascending, has};
ghost use Rattle.dg_uids.specs.Sets.{common};
ghost use Rattle.dg_check.specs.Vars.{named_nodes};
ghost use Rattle.regex.specs.Strings.{regex_pattern};
ghost use Rattle.dg_funcs.specs.Truth.{stands_to_any, is_between, compared, count_along, nodes_along, texts_at, found_in, holds_at};
ghost use Rattle.dg_funcs.specs.Tests.{has_asked};

use crate::comparing::{asked_by, compares, lies_between};
use crate::following::{has_some, leads_to};
use crate::matching::node_matches;
use crate::named;
use crate::terms::{TermSet, asked_terms, node_has};
use crate::variables::sole_set;
use dg_check::{Func, Node, Of, Vars};
use dg_graph::Snapshot;
use dg_parse::{CmpOp, QEdge};
use dg_uids::Uids;
use dg_values::{Mem, OutOfMemory, Steps, Value};
use regex::Regex;
use std::alloc::Global;
use std::sync::ledger::Ledger;

// Those of which something that is compared stands so to one of these values.
fn held_compared<S: Snapshot, L: Ledger>(
    alloc: Global,
    snap: &S,
    op: CmpOp,
    of: &Of,
    values: &[Value],
    nodes: &Uids,
    vars: &Vars,
    reads: &mut Steps<L>,
) -> Mem<Uids>
    ensures { IfOk result (λ uids. uids ≡ filter (λ n. list_any (stands_to_any op values.now) (compared (S.graph snap.now) vars.now.variables of.now n)) nodes.now) }
{
    let asked = asked_by(alloc, op, values)?;
    let mut found = Vec::new(alloc);
    for node in nodes.as_slice() {
        if compares(alloc, snap, op, &asked, values, of, *node, vars, reads)? {
            found.push(*node)?;
        }
    }
    Ok(Uids::gathered(found))
}

// Those of which something that is compared lies between two values.
fn held_between<S: Snapshot, L: Ledger>(
    alloc: Global,
    snap: &S,
    of: &Of,
    values: &[Value],
    nodes: &Uids,
    vars: &Vars,
    reads: &mut Steps<L>,
) -> Mem<Uids>
    ensures { IfOk result (λ uids. uids ≡ filter (λ n. list_any (is_between values.now) (compared (S.graph snap.now) vars.now.variables of.now n)) nodes.now) }
{
    let mut found = Vec::new(alloc);
    for node in nodes.as_slice() {
        if lies_between(alloc, snap, values, of, *node, vars, reads)? {
            found.push(*node)?;
        }
    }
    Ok(Uids::gathered(found))
}

// Those that have an object by an edge, or a subject that points to them.
fn held_with<S: Snapshot, L: Ledger>(
    alloc: Global,
    snap: &S,
    edge: &QEdge,
    nodes: &Uids,
    reads: &mut Steps<L>,
) -> Mem<Uids>
    ensures { IfOk result (λ uids. uids ≡ filter (λ n. nat_le 1 (count_along (S.graph snap.now) edge.now n)) nodes.now) }
{
    let mut found = Vec::new(alloc);
    for node in nodes.as_slice() {
        if has_some(alloc, snap, edge, *node, reads)? {
            found.push(*node)?;
        }
    }
    Ok(Uids::gathered(found))
}

// Those with a text that has the terms that are asked.
fn held_terms<S: Snapshot, L: Ledger>(
    alloc: Global,
    snap: &S,
    all: bool,
    p: &str,
    asked: &TermSet,
    nodes: &Uids,
    reads: &mut Steps<L>,
) -> Mem<Uids>
    ensures { IfOk result (λ uids. uids ≡ filter (λ n. list_any (has_asked all asked.now) (texts_at (S.graph snap.now) p.now n)) nodes.now) }
{
    let mut found = Vec::new(alloc);
    for node in nodes.as_slice() {
        if node_has(alloc, snap, all, p, asked, *node, reads)? {
            found.push(*node)?;
        }
    }
    Ok(Uids::gathered(found))
}

// Those with a text in which a pattern is found.
fn held_matching<S: Snapshot, L: Ledger>(
    alloc: Global,
    snap: &S,
    p: &str,
    pattern: &Regex,
    nodes: &Uids,
    reads: &mut Steps<L>,
) -> Mem<Uids>
    ensures { IfOk result (λ uids. uids ≡ filter (λ n. list_any (found_in (regex_pattern pattern.now)) (texts_at (S.graph snap.now) p.now n)) nodes.now) }
{
    let mut matcher = pattern.matcher(alloc)?;
    let mut found = Vec::new(alloc);
    for node in nodes.as_slice() {
        if node_matches(alloc, snap, p, &mut matcher, *node, reads)? {
            found.push(*node)?;
        }
    }
    Ok(Uids::gathered(found))
}

// Those from which an edge leads to one of these.
fn held_leading<S: Snapshot, L: Ledger>(
    alloc: Global,
    snap: &S,
    edge: &QEdge,
    ends: &Uids,
    nodes: &Uids,
    reads: &mut Steps<L>,
) -> Mem<Uids>
    ensures { IfOk result (λ uids. uids ≡ filter (λ n. list_any (has nat_cmp ends.now) (nodes_along (S.graph snap.now) edge.now n)) nodes.now) }
{
    let mut found = Vec::new(alloc);
    for node in nodes.as_slice() {
        if leads_to(alloc, snap, edge, ends, *node, reads)? {
            found.push(*node)?;
        }
    }
    Ok(Uids::gathered(found))
}

// Those that are named. A variable that is named alone is looked into as it stands.
fn held_named(alloc: Global, names: &[Node], nodes: &Uids, vars: &Vars) -> Mem<Uids>
    ensures { IfOk result (λ uids. uids ≡ common nodes.now (ascending nat_cmp (named_nodes vars.now.variables names.now))) }
{
    match sole_set(vars, names) {
        Some(wanted) => nodes.and(alloc, wanted),
        None => {
            let wanted = named(alloc, vars, names)?;
            nodes.and(alloc, &wanted)
        }
    }
}

// Those that lead to one that is named.
fn held_leading_to<S: Snapshot, L: Ledger>(
    alloc: Global,
    snap: &S,
    edge: &QEdge,
    names: &[Node],
    nodes: &Uids,
    vars: &Vars,
    reads: &mut Steps<L>,
) -> Mem<Uids>
    ensures { IfOk result (λ uids. uids ≡ filter (λ n. list_any (has nat_cmp (ascending nat_cmp (named_nodes vars.now.variables names.now))) (nodes_along (S.graph snap.now) edge.now n)) nodes.now) }
{
    match sole_set(vars, names) {
        Some(ends) => held_leading(alloc, snap, edge, ends, nodes, reads),
        None => {
            let ends = named(alloc, vars, names)?;
            held_leading(alloc, snap, edge, &ends, nodes, reads)
        }
    }
}

/// The nodes of a set at which a function holds. It asks each node once.
pub(crate) fn held<S: Snapshot, L: Ledger>(
    alloc: Global,
    snap: &S,
    func: &Func,
    nodes: &Uids,
    vars: &Vars,
    reads: &mut Steps<L>,
) -> Mem<Uids>
    ensures { IfOk result (λ uids. uids ≡ filter (λ n. holds_at (S.graph snap.now) vars.now.variables n func.now) nodes.now) }
{
    match func {
        Func::Uid(names) => held_named(alloc, names.as_slice(), nodes, vars),
        Func::Cmp { op, of, values, .. } => held_compared(
            alloc,
            snap,
            *op,
            of,
            values.as_slice(),
            nodes,
            vars,
            reads,
        ),
        Func::Between { of, values, .. } => {
            held_between(alloc, snap, of, values.as_slice(), nodes, vars, reads)
        }
        Func::Has(edge) => held_with(alloc, snap, edge, nodes, reads),
        Func::Terms { all, pred, text } => {
            let asked = asked_terms(alloc, text)?;
            held_terms(alloc, snap, *all, pred.as_str(), &asked, nodes, reads)
        }
        Func::Regexp { pred, pattern } => {
            held_matching(alloc, snap, pred.as_str(), pattern, nodes, reads)
        }
        Func::UidIn { edge, uids } => {
            held_leading_to(alloc, snap, edge, uids.as_slice(), nodes, vars, reads)
        }
    }
}
