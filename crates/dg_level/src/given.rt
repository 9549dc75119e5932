// What fields make known of variables, over the nodes of a list.
ghost use Rattle.std.specs.Prelude.{◌≡◌, ◌++◌, ℕ, pos, List as Items, Some, map, IfOk, OnOk};
ghost use Rattle.dg_values.specs.declared.value.Value.TheVariants as kinds;
ghost use Rattle.dg_check.specs.declared.parts.Item.TheViews.{out-Item};
ghost use Rattle.dg_funcs.specs.Truth.{count_along};
ghost use Rattle.dg_level.specs.Lists.{least_value};
ghost use Rattle.dg_level.specs.Planned.{list_by};
ghost use Rattle.dg_level.specs.Given.{of_nodes, unknown, of_values, edge_has, nodes_in_braces};
ghost use Rattle.dg_level.specs.PlannedGiven.{at_place, planned_fields};
ghost use Rattle.dg_level.specs.Defining.{item_gives, edge_gives};

use crate::defining::defines;
use crate::lists::{lists_of, nodes_below};
use crate::order_keys::values_among;
use crate::sorts::{Sort, is_single, leads_to_nodes, sort_of};
use crate::whole::no_nodes;
use dg_check::{By, Field, Filter, Item, OrderKey, Variable, Vars};
use dg_funcs::count_along;
use dg_graph::Snapshot;
use dg_parse::{QArg, QEdge, QField, QItem};
use dg_uids::Uids;
use dg_values::{List, Mem, OutOfMemory, Steps, Str, Value};
use std::alloc::Global;
use std::sync::ledger::Ledger;

// ---- what a variable stands for

/// A variable of which nothing is known.
pub fn unknown(alloc: Global) -> Variable
    ensures { result ≡ unknown }
{
    Variable {
        nodes: no_nodes(alloc),
        values: List::new(alloc),
    }
}

// Nodes without values.
fn of_nodes(alloc: Global, nodes: &Uids) -> Mem<Variable>
    ensures { IfOk result (λ variable. variable ≡ of_nodes nodes.now) }
{
    let nodes = nodes.copy(alloc)?;
    Ok(Variable {
        nodes,
        values: List::new(alloc),
    })
}

// The number of each node's objects by an edge, or of its subjects.
fn counts_along<S: Snapshot, L: Ledger>(
    alloc: Global,
    snap: &S,
    edge: &QEdge,
    nodes: &[u64],
    reads: &mut Steps<L>,
) -> Mem<Vec<Value>>
    ensures { IfOk result (λ made. made.items ≡ map (λ n. kinds.Int (pos (count_along (S.graph snap.now) edge.now n))) nodes.now) }
{
    let mut made = Vec::new(alloc);
    for node in nodes {
        let count = count_along(alloc, snap, edge, *node, reads)?;
        made.push(Value::Int(count))?;
    }
    Ok(made)
}

// Nodes, each with that number.
fn of_counts<S: Snapshot, L: Ledger>(
    alloc: Global,
    snap: &S,
    edge: &QEdge,
    nodes: &Uids,
    reads: &mut Steps<L>,
) -> Mem<Variable>
    ensures { IfOk result (λ variable. variable ≡ of_values (λ n. Some (kinds.Int (pos (count_along (S.graph snap.now) edge.now n)))) nodes.now) }
{
    let counts = counts_along(alloc, snap, edge, nodes.as_slice(), reads)?;
    let nodes = nodes.copy(alloc)?;
    Ok(Variable {
        nodes,
        values: List::from_vec(counts),
    })
}

// Those nodes that have a value by a predicate, each with its least. It is looked up once for each node.
fn of_least_values<S: Snapshot, L: Ledger>(
    alloc: Global,
    snap: &S,
    pred: &Str,
    vars: &Vars,
    nodes: &Uids,
    reads: &mut Steps<L>,
) -> Mem<Variable>
    ensures { IfOk result (λ variable. variable ≡ of_values (least_value (S.graph snap.now) pred.now) nodes.now) }
{
    let by = By::Pred(pred.copy(alloc)?);
    values_among(alloc, snap, &by, vars, nodes, reads)
}

// The nodes below an edge, over which the fields in its braces are taken: all of the lists, where it leads to nodes.
fn level_under<S: Snapshot, L: Ledger>(
    alloc: Global,
    snap: &S,
    sort: Sort,
    edge: &QEdge,
    args: &[QArg],
    orders: &[OrderKey],
    filters: &[Filter],
    vars: &Vars,
    nodes: &[u64],
    reads: &mut Steps<L>,
) -> Mem<Uids>
    ensures { IfOk result (λ uids. uids ≡ nodes_in_braces sort (list_by (S.graph snap.now) vars.now.variables edge.now args.now sort orders.now filters.now) nodes.now) }
{
    if !leads_to_nodes(sort) {
        return Ok(no_nodes(alloc));
    }
    let lists = lists_of(
        alloc,
        snap,
        is_single(sort),
        edge,
        args,
        orders,
        filters,
        vars,
        nodes,
        reads,
    )?;
    nodes_below(alloc, lists.as_slice())
}

// What an edge has over nodes: their least values, or the nodes below it.
fn of_edge<S: Snapshot, L: Ledger>(
    alloc: Global,
    snap: &S,
    sort: Sort,
    pred: &Str,
    vars: &Vars,
    nodes: &Uids,
    level: &Uids,
    reads: &mut Steps<L>,
) -> Mem<Variable>
    ensures { (list : ℕ → Items ℕ) → level.now ≡ nodes_in_braces sort list nodes.now → IfOk result (λ variable. variable ≡ edge_has sort (least_value (S.graph snap.now) pred.now) list nodes.now) }
{
    match sort {
        Sort::Nothing => Ok(unknown(alloc)),
        Sort::Values => of_least_values(alloc, snap, pred, vars, nodes, reads),
        Sort::Node | Sort::Nodes => of_nodes(alloc, level),
    }
}

// ---- variables that are known, each with its place

// Adds a variable of which nothing is known, where there is one.
fn push_unknown(alloc: Global, var: Option<usize>, out: &mut Vec<(usize, Variable)>) -> Mem<()>
    ensures { OnOk result (out.new.items ≡ out.old.items ++ at_place var unknown) }
{
    if let Some(place) = var {
        out.push((place, unknown(alloc)))?;
    }
    Ok(())
}

/// Adds the variable that stands for nodes, where there is one. The error is want of memory.
pub fn push_nodes(
    alloc: Global,
    var: Option<usize>,
    nodes: &Uids,
    out: &mut Vec<(usize, Variable)>,
) -> Mem<()>
    ensures { OnOk result (out.new.items ≡ out.old.items ++ at_place var (of_nodes nodes.now)) }
{
    if let Some(place) = var {
        let variable = of_nodes(alloc, nodes)?;
        out.push((place, variable))?;
    }
    Ok(())
}

// Adds the variable that stands for the number of each node's objects by an edge, where there is one.
fn push_counts<S: Snapshot, L: Ledger>(
    alloc: Global,
    snap: &S,
    var: Option<usize>,
    edge: &QEdge,
    nodes: &Uids,
    out: &mut Vec<(usize, Variable)>,
    reads: &mut Steps<L>,
) -> Mem<()>
    ensures { OnOk result (out.new.items ≡ out.old.items ++ at_place var (of_values (λ n. Some (kinds.Int (pos (count_along (S.graph snap.now) edge.now n)))) nodes.now)) }
{
    if let Some(place) = var {
        let variable = of_counts(alloc, snap, edge, nodes, reads)?;
        out.push((place, variable))?;
    }
    Ok(())
}

// Adds the variable that stands for what an edge has, where there is one.
fn push_edge_variable<S: Snapshot, L: Ledger>(
    alloc: Global,
    snap: &S,
    sort: Sort,
    var: Option<usize>,
    pred: &Str,
    vars: &Vars,
    nodes: &Uids,
    level: &Uids,
    out: &mut Vec<(usize, Variable)>,
    reads: &mut Steps<L>,
) -> Mem<()>
    ensures { (list : ℕ → Items ℕ) → level.now ≡ nodes_in_braces sort list nodes.now → OnOk result (out.new.items ≡ out.old.items ++ at_place var (edge_has sort (least_value (S.graph snap.now) pred.now) list nodes.now)) }
{
    if let Some(place) = var {
        let variable = of_edge(alloc, snap, sort, pred, vars, nodes, level, reads)?;
        out.push((place, variable))?;
    }
    Ok(())
}

// ---- level by level

/// Adds what fields make known over the nodes of a level, in the order of the text.
///
/// An edge is followed once for each node of the level, and only where a variable stands for it or a field in its braces defines
/// one. The error is want of memory.
#[cycle(given)]
pub fn push_given<S: Snapshot, L: Ledger>(
    alloc: Global,
    snap: &S,
    fields: &[QField],
    kept: &[Field],
    vars: &Vars,
    nodes: &Uids,
    out: &mut Vec<(usize, Variable)>,
    reads: &mut Steps<L>,
) -> Mem<()>
    ensures { OnOk result (out.new.items ≡ out.old.items ++ planned_fields (S.declared snap.now) (S.graph snap.now) vars.now.variables fields.now kept.now nodes.now) }
{
    for (place, field) in fields.iter().enumerate() {
        if place >= kept.len() {
            return Ok(());
        }
        let part = &kept[place];
        push_item(
            alloc,
            snap,
            &field.item,
            part.var,
            &part.item,
            vars,
            nodes,
            out,
            reads,
        )?;
    }
    Ok(())
}

// Adds what an item makes known.
#[cycle(given)]
fn push_item<S: Snapshot, L: Ledger>(
    alloc: Global,
    snap: &S,
    item: &QItem,
    var: Option<usize>,
    kept: &Item,
    vars: &Vars,
    nodes: &Uids,
    out: &mut Vec<(usize, Variable)>,
    reads: &mut Steps<L>,
) -> Mem<()>
    ensures { OnOk result (out.new.items ≡ out.old.items ++ item_gives (S.declared snap.now) (S.graph snap.now) vars.now.variables item.now var kept.now nodes.now) }
{
    match item {
        QItem::Uid => push_nodes(alloc, var, nodes, out),
        QItem::Count(edge) => push_counts(alloc, snap, var, edge, nodes, out, reads),
        QItem::CountUid | QItem::Val(_) | QItem::Agg { .. } => push_unknown(alloc, var, out),
        QItem::Edge {
            edge,
            args,
            fields,
            ..
        } => match fields {
            None => push_edge(
                alloc,
                snap,
                edge,
                args.as_slice(),
                &[],
                var,
                kept,
                vars,
                nodes,
                out,
                reads,
            ),
            Some(braces) => push_edge(
                alloc,
                snap,
                edge,
                args.as_slice(),
                braces.as_slice(),
                var,
                kept,
                vars,
                nodes,
                out,
                reads,
            ),
        },
    }
}

// Adds what an edge makes known.
#[cycle(given)]
fn push_edge<S: Snapshot, L: Ledger>(
    alloc: Global,
    snap: &S,
    edge: &QEdge,
    args: &[QArg],
    braces: &[QField],
    var: Option<usize>,
    kept: &Item,
    vars: &Vars,
    nodes: &Uids,
    out: &mut Vec<(usize, Variable)>,
    reads: &mut Steps<L>,
) -> Mem<()>
    ensures { OnOk result (out.new.items ≡ out.old.items ++ edge_gives (S.declared snap.now) (S.graph snap.now) vars.now.variables edge.now args.now braces.now var (out-Item kept.now) nodes.now) }
{
    let Item::Edge {
        orders,
        filters,
        fields: inner,
    } = kept
    else {
        return push_unknown(alloc, var, out);
    };
    if !defines(var, inner.as_slice()) {
        return Ok(());
    }
    let sort = sort_of(snap.schema().lookup(edge.pred.as_str()), edge.back);
    let level = level_under(
        alloc,
        snap,
        sort,
        edge,
        args,
        orders.as_slice(),
        filters.as_slice(),
        vars,
        nodes.as_slice(),
        reads,
    )?;
    push_edge_variable(
        alloc, snap, sort, var, &edge.pred, vars, nodes, &level, out, reads,
    )?;
    push_given(
        alloc,
        snap,
        braces,
        inner.as_slice(),
        vars,
        &level,
        out,
        reads,
    )
}
