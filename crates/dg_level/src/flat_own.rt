// What the nodes of a level show by themselves under a field, put behind their flat objects.
ghost use Rattle.std.specs.Prelude.{◌≡◌, ◌<◌, ◌≤◌, List, map, flat_map, sum_by, option_copied, option_to_list, slice_index, IfOk, OnOk, IsErrOf};
ghost use Rattle.dg_schema.specs.Definitions.{definition_of};
ghost use Rattle.dg_graph.specs.Graphs.{objects};
ghost use Rattle.dg_parse.specs.declared.query.QItem.TheViews.{out-QItem};
ghost use Rattle.dg_check.specs.declared.parts.Item.TheViews.{out-Item};
ghost use Rattle.dg_values.specs.declared.value.Posting.{Posting};
ghost use Rattle.dg_level.specs.Answers.{value_of, shown};
ghost use Rattle.dg_level.specs.Known.{values_by, KnowsValues, KnowsItem};
ghost use Rattle.dg_level.specs.Shown.{sort_of};
ghost use Rattle.dg_level.specs.Planned.{value_kept};
ghost use Rattle.dg_level.specs.Levels.{own_shown, bare_trees};
ghost use Rattle.dg_level.specs.Flats.{weight_in};
ghost use Rattle.dg_level.specs.FlatLevels.{FlatsOf, weight_of, own_trees, with_trees, with_own};

use crate::answers::values_shown;
use crate::blocks::MOST;
use crate::flat_each::show;
use crate::flat_rows::Flats;
use crate::known::values_under;
use crate::left::Left;
use crate::sorts::{Sort, sort_of};
use crate::writing::{tree_of, uid_text};
use dg_check::{Item, Vars};
use dg_funcs::{count_along, value_at};
use dg_graph::Snapshot;
use dg_parse::{QEdge, QItem};
use dg_schema::PredDef;
use dg_tree::{Tree, TreeFault};
use dg_values::{Mem, OutOfMemory, Steps, Str, Value};
use std::alloc::Global;
use std::sync::ledger::Ledger;

// The tree of a variable's value at a node, as it is kept. The error is want of memory.
fn value_kept(alloc: Global, kept: &Item, vars: &Vars, node: u64) -> Mem<Option<Tree>>
    ensures { IfOk result (λ tree. option_to_list tree ≡ value_kept vars.now.variables node (out-Item kept.now)) }
{
    match kept {
        Item::Val(place) => tree_of(alloc, value_at(vars, *place, node)),
        Item::Plain | Item::Edge { .. } => Ok(None),
    }
}

// What is shown of values of a predicate, if anything. The error is want of memory.
fn shown_of(alloc: Global, definition: Option<&PredDef>, values: Vec<Value>) -> Mem<Option<Tree>>
    ensures { (objects : List Posting) → values.items ≡ flat_map value_of objects → IfOk result (λ tree. option_to_list tree ≡ shown (option_copied definition.entry) objects) }
{
    match definition {
        None => Ok(None),
        Some(definition) => values_shown(alloc, definition.list, values),
    }
}

// What an edge shows at a node where it leads to values. The error is want of memory.
fn edge_values<S: Snapshot, L: Ledger>(
    alloc: Global,
    snap: &S,
    edge: &QEdge,
    node: u64,
    left: &Left,
    reads: &mut Steps<L>,
) -> Mem<Option<Tree>>
    ensures { KnowsValues (values_by (S.graph snap.now) edge.now.pred) left.now → IfOk result (λ tree. option_to_list tree ≡ own_shown (sort_of (definition_of (S.declared snap.now) edge.now.pred) edge.now.back) (shown (definition_of (S.declared snap.now) edge.now.pred) (objects (S.graph snap.now) edge.now.pred node))) }
{
    let definition = snap.schema().lookup(edge.pred.as_str());
    if sort_of(definition, edge.back) != Sort::Values {
        return Ok(None);
    }
    let values = values_under(alloc, snap, edge.pred.as_str(), node, left, reads)?;
    shown_of(alloc, definition, values)
}

// The same where it is kept as an edge. The error is want of memory.
fn values_kept<S: Snapshot, L: Ledger>(
    alloc: Global,
    snap: &S,
    edge: &QEdge,
    kept: &Item,
    node: u64,
    left: &Left,
    reads: &mut Steps<L>,
) -> Mem<Option<Tree>>
    ensures { KnowsValues (values_by (S.graph snap.now) edge.now.pred) left.now → IfOk result (λ tree. option_to_list tree ≡ bare_trees (S.declared snap.now) (S.graph snap.now) edge.now (out-Item kept.now) node) }
{
    match kept {
        Item::Plain | Item::Val(_) => Ok(None),
        Item::Edge { .. } => edge_values(alloc, snap, edge, node, left, reads),
    }
}

// What an item shows by itself at a node: of an edge only values. The error is want of memory.
fn own_tree<S: Snapshot, L: Ledger>(
    alloc: Global,
    snap: &S,
    item: &QItem,
    kept: &Item,
    vars: &Vars,
    node: u64,
    left: &Left,
    reads: &mut Steps<L>,
) -> Mem<Option<Tree>>
    ensures { KnowsItem (S.graph snap.now) item.now left.now → IfOk result (λ tree. option_to_list tree ≡ own_trees (S.declared snap.now) (S.graph snap.now) vars.now.variables (out-QItem item.now) (out-Item kept.now) node) }
{
    match item {
        QItem::Uid => Ok(Some(Tree::Text(uid_text(alloc, node)?))),
        QItem::CountUid | QItem::Agg { .. } => Ok(None),
        QItem::Count(edge) => Ok(Some(Tree::Int(count_along(alloc, snap, edge, node, reads)?))),
        QItem::Val(_) => value_kept(alloc, kept, vars, node),
        QItem::Edge { edge, .. } => values_kept(alloc, snap, edge, kept, node, left, reads),
    }
}

// The node at a place.
fn node_at(nodes: &[u64], place: usize) -> u64
    ensures { result ≡ slice_index nodes.now place }
{
    match nodes.get(place) {
        Some(node) => *node,
        None => 0,
    }
}

// The objects of each node, each with what an item shows by itself there under a key.
//
// `TooLarge` only where they weigh more together than the limit. The other error is want of memory.
fn show_each<S: Snapshot, L: Ledger>(
    alloc: Global,
    snap: &S,
    key: &str,
    item: &QItem,
    kept: &Item,
    vars: &Vars,
    nodes: &[u64],
    made: &mut [Flats],
    left: &Left,
    reads: &mut Steps<L>,
) -> Result<(), TreeFault>
    ensures ok { KnowsItem (S.graph snap.now) item.now left.now → (g : FlatsOf) → made.old ≡ map g nodes.now
        → OnOk result (made.new ≡ map (λ n. with_trees key.now (own_trees (S.declared snap.now) (S.graph snap.now) vars.now.variables (out-QItem item.now) (out-Item kept.now) n) (g n)) nodes.now) }
    ensures within { OnOk result (sum_by weight_in made.new ≤ 16777216) }
    ensures too_large { KnowsItem (S.graph snap.now) item.now left.now → (g : FlatsOf) → made.old ≡ map g nodes.now
        → IsErrOf result TreeFault.TooLarge → 16777216 < weight_of (λ n. with_trees key.now (own_trees (S.declared snap.now) (S.graph snap.now) vars.now.variables (out-QItem item.now) (out-Item kept.now) n) (g n)) nodes.now }
{
    let mut used = 0;
    for place in 0..made.len() {
        let node = node_at(nodes, place);
        let tree = own_tree(alloc, snap, item, kept, vars, node, left, reads)?;
        show(alloc, &mut made[place], key, tree, MOST - used)?;
        used += made[place].weight();
    }
    Ok(())
}

/// The objects of each node behind a field that leads to no nodes: under an alias with what it shows there.
///
/// # Errors
///
/// `TooLarge` only where they weigh more together than the limit, and else `OutOfMemory` for want of memory.
pub fn behind_own<S: Snapshot, L: Ledger>(
    alloc: Global,
    snap: &S,
    alias: &Option<Str>,
    item: &QItem,
    kept: &Item,
    vars: &Vars,
    nodes: &[u64],
    mut made: Vec<Flats>,
    left: &Left,
    reads: &mut Steps<L>,
) -> Result<Vec<Flats>, TreeFault>
    ensures flats { KnowsItem (S.graph snap.now) item.now left.now → (g : FlatsOf) → made.items ≡ map g nodes.now
        → IfOk result (λ v. v.items ≡ map (λ n. with_own alias.now (own_trees (S.declared snap.now) (S.graph snap.now) vars.now.variables (out-QItem item.now) (out-Item kept.now) n) (g n)) nodes.now) }
    ensures within { sum_by weight_in made.items ≤ 16777216 → IfOk result (λ v. sum_by weight_in v.items ≤ 16777216) }
    ensures too_large { KnowsItem (S.graph snap.now) item.now left.now → (g : FlatsOf) → made.items ≡ map g nodes.now
        → IsErrOf result TreeFault.TooLarge → 16777216 < weight_of (λ n. with_own alias.now (own_trees (S.declared snap.now) (S.graph snap.now) vars.now.variables (out-QItem item.now) (out-Item kept.now) n) (g n)) nodes.now }
{
    match alias {
        None => Ok(made),
        Some(key) => {
            show_each(
                alloc,
                snap,
                key.as_str(),
                item,
                kept,
                vars,
                nodes,
                made.as_mut_slice(),
                left,
                reads,
            )?;
            Ok(made)
        }
    }
}
