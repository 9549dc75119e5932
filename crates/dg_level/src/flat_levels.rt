// The flat objects of the nodes of a level, field by field, with the levels below.
ghost use Rattle.std.specs.Prelude.{◌≡◌, ℕ, ◌<◌, ◌≤◌, true, List as Items, Some, map, sum_by, IfOk, IsErrOf};
ghost use Rattle.dg_parse.specs.declared.query.QDir.{QDir};
ghost use Rattle.dg_parse.specs.declared.query.QItem.TheVariants as items;
ghost use Rattle.dg_parse.specs.declared.query.QItem.TheViews.{out-QItem};
ghost use Rattle.dg_check.specs.declared.parts.Item.TheViews.{out-Item};
ghost use Rattle.dg_shape.specs.Normalize.{times};
ghost use Rattle.dg_level.specs.Planned.{planned_flats};
ghost use Rattle.dg_level.specs.Flats.{weight_in, has_object};
ghost use Rattle.dg_level.specs.Left.{IsLeft, AreLeft, IsLeftUnder, IsLeftOf};
ghost use Rattle.dg_level.specs.FlatLevels.{FlatsOf, weight_of, sort_in, list_flats, behind_edge, behind_item, behind_field, behind_fields};

use crate::directives::cascades;
use crate::flat_each::{filled_each, one_each, times_each};
use crate::flat_own::behind_own;
use crate::flat_rows::Flats;
use crate::known::lists_under;
use crate::left::{Left, next_left};
use crate::lists::nodes_below;
use crate::sorts::{Sort, is_single, leads_to_nodes, sort_of};
use crate::whole::left_lists;
use dg_check::{Field, Filter, Item, OrderKey, Vars};
use dg_graph::Snapshot;
use dg_parse::{QArg, QEdge, QField, QItem};
use dg_tree::TreeFault;
use dg_values::{List, OutOfMemory, Steps};
use std::alloc::Global;
use std::sync::ledger::Ledger;

// What an item with braces leads to.
fn sort_in<S: Snapshot>(snap: &S, item: &QItem) -> Sort
    ensures { result ≡ sort_in (S.declared snap.now) (out-QItem item.now) }
{
    match item {
        QItem::Uid | QItem::CountUid | QItem::Count(_) | QItem::Val(_) | QItem::Agg { .. } =>
            Sort::Nothing,
        QItem::Edge { edge, fields, .. } => match fields {
            None => Sort::Nothing,
            Some(_) => sort_of(snap.schema().lookup(edge.pred.as_str()), edge.back),
        },
    }
}

/// The flat objects of each node of a level, in the order of the nodes. Each list is read once for each node of a level and each
/// field, and the objects of a node of the level below are made once, whatever number of nodes lead to it.
///
/// # Errors
///
/// `TooLarge` only where the objects of all nodes weigh more together than the limit, and else `OutOfMemory` for want of memory.
#[cycle(flat)]
pub fn level_flats<S: Snapshot, L: Ledger>(
    alloc: Global,
    snap: &S,
    cascade: bool,
    fields: &[QField],
    kept: &[Field],
    vars: &Vars,
    nodes: &[u64],
    left: List<Left>,
    reads: &mut Steps<L>,
) -> Result<Vec<Flats>, TreeFault>
    ensures flats { AreLeft (S.declared snap.now) (S.graph snap.now) vars.now.variables fields.now kept.now nodes.now left → IfOk result (λ v. v.items ≡ map (planned_flats (S.declared snap.now) (S.graph snap.now) vars.now.variables cascade fields.now kept.now) nodes.now) }
    ensures within { IfOk result (λ v. sum_by weight_in v.items ≤ 16777216) }
    ensures too_large { AreLeft (S.declared snap.now) (S.graph snap.now) vars.now.variables fields.now kept.now nodes.now left → IsErrOf result TreeFault.TooLarge → 16777216 < weight_of (planned_flats (S.declared snap.now) (S.graph snap.now) vars.now.variables cascade fields.now kept.now) nodes.now }
{
    let mut made = behind_fields(alloc, snap, cascade, fields, kept, vars, nodes, left, reads)?;
    filled_each(alloc, made.as_mut_slice());
    Ok(made)
}

// The objects of each node behind fields, at first one without a field.
#[cycle(flat)]
fn behind_fields<S: Snapshot, L: Ledger>(
    alloc: Global,
    snap: &S,
    cascade: bool,
    fields: &[QField],
    kept: &[Field],
    vars: &Vars,
    nodes: &[u64],
    left: List<Left>,
    reads: &mut Steps<L>,
) -> Result<Vec<Flats>, TreeFault>
    ensures flats { AreLeft (S.declared snap.now) (S.graph snap.now) vars.now.variables fields.now kept.now nodes.now left → IfOk result (λ v. v.items ≡ map (behind_fields (S.declared snap.now) (S.graph snap.now) vars.now.variables cascade fields.now kept.now) nodes.now) }
    ensures within { IfOk result (λ v. sum_by weight_in v.items ≤ 16777216) }
    ensures too_large { AreLeft (S.declared snap.now) (S.graph snap.now) vars.now.variables fields.now kept.now nodes.now left → IsErrOf result TreeFault.TooLarge → 16777216 < weight_of (behind_fields (S.declared snap.now) (S.graph snap.now) vars.now.variables cascade fields.now kept.now) nodes.now }
{
    let mut made = one_each(alloc, nodes)?;
    let mut known = left.into_vec().into_iter();
    for (place, field) in fields.iter().enumerate() {
        if place >= kept.len() {
            return Ok(made);
        }
        let part = &kept[place];
        let left = next_left(&mut known);
        made = behind_field(
            alloc, snap, cascade, field, part, vars, nodes, made, left, reads,
        )?;
    }
    Ok(made)
}

// The objects of each node behind a field.
#[cycle(flat)]
fn behind_field<S: Snapshot, L: Ledger>(
    alloc: Global,
    snap: &S,
    cascade: bool,
    field: &QField,
    kept: &Field,
    vars: &Vars,
    nodes: &[u64],
    made: Vec<Flats>,
    left: Left,
    reads: &mut Steps<L>,
) -> Result<Vec<Flats>, TreeFault>
    ensures flats { IsLeft (S.declared snap.now) (S.graph snap.now) vars.now.variables field.now.item kept.now.item nodes.now left
        → (g : FlatsOf) → made.items ≡ map g nodes.now
        → IfOk result (λ v. v.items ≡ map (λ n. behind_field (S.declared snap.now) (S.graph snap.now) vars.now.variables cascade field.now kept.now n (g n)) nodes.now) }
    ensures within { sum_by weight_in made.items ≤ 16777216 → IfOk result (λ v. sum_by weight_in v.items ≤ 16777216) }
    ensures too_large { IsLeft (S.declared snap.now) (S.graph snap.now) vars.now.variables field.now.item kept.now.item nodes.now left
        → (g : FlatsOf) → made.items ≡ map g nodes.now → ((n : ℕ) → has_object (g n) ≡ true)
        → IsErrOf result TreeFault.TooLarge → 16777216 < weight_of (λ n. behind_field (S.declared snap.now) (S.graph snap.now) vars.now.variables cascade field.now kept.now n (g n)) nodes.now }
{
    let sort = sort_in(snap, &field.item);
    if !leads_to_nodes(sort) {
        return behind_own(
            alloc,
            snap,
            &field.alias,
            &field.item,
            &kept.item,
            vars,
            nodes,
            made,
            &left,
            reads,
        );
    }
    behind_item(
        alloc,
        snap,
        is_single(sort),
        cascade,
        &field.item,
        &kept.item,
        vars,
        nodes,
        made,
        left,
        reads,
    )
}

// The objects of each node behind an item that leads to nodes.
#[cycle(flat)]
fn behind_item<S: Snapshot, L: Ledger>(
    alloc: Global,
    snap: &S,
    single: bool,
    cascade: bool,
    item: &QItem,
    kept: &Item,
    vars: &Vars,
    nodes: &[u64],
    made: Vec<Flats>,
    left: Left,
    reads: &mut Steps<L>,
) -> Result<Vec<Flats>, TreeFault>
    ensures flats { ((e : QEdge) (args : Items QArg) (dirs : Items QDir) (braces : Items QField) → item.now ≡ items.Edge e args dirs (Some braces) → IsLeftOf (S.declared snap.now) (S.graph snap.now) vars.now.variables single e args braces kept.now nodes.now left)
        → (g : FlatsOf) → made.items ≡ map g nodes.now
        → IfOk result (λ v. v.items ≡ map (λ n. behind_item (S.declared snap.now) (S.graph snap.now) vars.now.variables single cascade (out-QItem item.now) (out-Item kept.now) n (g n)) nodes.now) }
    ensures within { sum_by weight_in made.items ≤ 16777216 → IfOk result (λ v. sum_by weight_in v.items ≤ 16777216) }
    ensures too_large { ((e : QEdge) (args : Items QArg) (dirs : Items QDir) (braces : Items QField) → item.now ≡ items.Edge e args dirs (Some braces) → IsLeftOf (S.declared snap.now) (S.graph snap.now) vars.now.variables single e args braces kept.now nodes.now left)
        → (g : FlatsOf) → made.items ≡ map g nodes.now → ((n : ℕ) → has_object (g n) ≡ true)
        → IsErrOf result TreeFault.TooLarge → 16777216 < weight_of (λ n. behind_item (S.declared snap.now) (S.graph snap.now) vars.now.variables single cascade (out-QItem item.now) (out-Item kept.now) n (g n)) nodes.now }
{
    match item {
        QItem::Uid | QItem::CountUid | QItem::Count(_) | QItem::Val(_) | QItem::Agg { .. } => Ok(
            made,
        ),
        QItem::Edge {
            edge,
            args,
            dirs,
            fields,
        } => match fields {
            None => Ok(made),
            Some(braces) => behind_edge(
                alloc,
                snap,
                single,
                cascades(cascade, dirs.as_slice()),
                braces.as_slice(),
                edge,
                args.as_slice(),
                kept,
                vars,
                nodes,
                made,
                left,
                reads,
            ),
        },
    }
}

// The objects of each node behind an edge to nodes.
#[cycle(flat)]
fn behind_edge<S: Snapshot, L: Ledger>(
    alloc: Global,
    snap: &S,
    single: bool,
    cascade: bool,
    braces: &[QField],
    edge: &QEdge,
    args: &[QArg],
    kept: &Item,
    vars: &Vars,
    nodes: &[u64],
    made: Vec<Flats>,
    left: Left,
    reads: &mut Steps<L>,
) -> Result<Vec<Flats>, TreeFault>
    ensures flats { IsLeftOf (S.declared snap.now) (S.graph snap.now) vars.now.variables single edge.now args.now braces.now kept.now nodes.now left
        → (g : FlatsOf) → made.items ≡ map g nodes.now
        → IfOk result (λ v. v.items ≡ map (λ n. behind_edge (S.declared snap.now) (S.graph snap.now) vars.now.variables edge.now args.now braces.now single cascade (out-Item kept.now) n (g n)) nodes.now) }
    ensures within { sum_by weight_in made.items ≤ 16777216 → IfOk result (λ v. sum_by weight_in v.items ≤ 16777216) }
    ensures too_large { IsLeftOf (S.declared snap.now) (S.graph snap.now) vars.now.variables single edge.now args.now braces.now kept.now nodes.now left
        → (g : FlatsOf) → made.items ≡ map g nodes.now → ((n : ℕ) → has_object (g n) ≡ true)
        → IsErrOf result TreeFault.TooLarge → 16777216 < weight_of (λ n. behind_edge (S.declared snap.now) (S.graph snap.now) vars.now.variables edge.now args.now braces.now single cascade (out-Item kept.now) n (g n)) nodes.now }
{
    let Item::Edge {
        orders,
        filters,
        fields: inner,
    } = kept
    else {
        return Ok(made);
    };
    behind_nodes(
        alloc,
        snap,
        single,
        cascade,
        braces,
        inner.as_slice(),
        edge,
        args,
        orders.as_slice(),
        filters.as_slice(),
        vars,
        nodes,
        made,
        left,
        reads,
    )
}

// The objects of each node, each followed by each of those of the nodes of its list under an edge.
#[cycle(flat)]
fn behind_nodes<S: Snapshot, L: Ledger>(
    alloc: Global,
    snap: &S,
    single: bool,
    cascade: bool,
    braces: &[QField],
    inner: &[Field],
    edge: &QEdge,
    args: &[QArg],
    orders: &[OrderKey],
    filters: &[Filter],
    vars: &Vars,
    nodes: &[u64],
    mut made: Vec<Flats>,
    left: Left,
    reads: &mut Steps<L>,
) -> Result<Vec<Flats>, TreeFault>
    ensures flats { IsLeftUnder (S.declared snap.now) (S.graph snap.now) vars.now.variables edge.now args.now orders.now filters.now single braces.now inner.now nodes.now left
        → (g : FlatsOf) → made.items ≡ map g nodes.now
        → IfOk result (λ v. v.items ≡ map (λ n. times (g n) (list_flats (S.declared snap.now) (S.graph snap.now) vars.now.variables edge.now args.now orders.now filters.now braces.now inner.now single cascade n)) nodes.now) }
    ensures within { IfOk result (λ v. sum_by weight_in v.items ≤ 16777216) }
    ensures too_large { IsLeftUnder (S.declared snap.now) (S.graph snap.now) vars.now.variables edge.now args.now orders.now filters.now single braces.now inner.now nodes.now left
        → (g : FlatsOf) → made.items ≡ map g nodes.now → ((n : ℕ) → has_object (g n) ≡ true)
        → IsErrOf result TreeFault.TooLarge → 16777216 < weight_of (λ n. times (g n) (list_flats (S.declared snap.now) (S.graph snap.now) vars.now.variables edge.now args.now orders.now filters.now braces.now inner.now single cascade n)) nodes.now }
{
    let lists = lists_under(
        alloc, snap, single, edge, args, orders, filters, vars, nodes, &left, reads,
    )?;
    let from = left_lists(
        alloc, snap, cascade, braces, inner, lists, vars, left, reads,
    )?;
    let level = nodes_below(alloc, from.lists.as_slice())?;
    let below = level_flats(
        alloc,
        snap,
        cascade,
        braces,
        inner,
        vars,
        level.as_slice(),
        from.inside,
        reads,
    )?;
    times_each(
        alloc,
        made.as_mut_slice(),
        from.lists.as_slice(),
        &level,
        below.as_slice(),
    )?;
    Ok(made)
}
