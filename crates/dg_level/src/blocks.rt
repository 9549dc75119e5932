// The list of a block, and the array of what its nodes show.
ghost use Rattle.std.specs.Prelude.{◌≡◌, ◌<◌, ◌≤◌, List as Items, length, IfOk, IsErrOf};
ghost use Rattle.dg_graph.specs.Graphs.{IsLawful};
ghost use Rattle.dg_check.specs.Parts.{IsBlockOf};
ghost use Rattle.dg_check.specs.Variables.{Definition};
ghost use Rattle.dg_funcs.specs.Laws.{AreOfKind};
ghost use Rattle.dg_shape.specs.Orders.{ordered, page};
ghost use Rattle.dg_tree.specs.Texts.{tree_text};
ghost use Rattle.dg_tree.specs.declared.tree.Tree.TheVariants as trees;
ghost use Rattle.dg_level.specs.Blocks.{nodes_of_block, left_of_block, nested_shown, recursed_shown, plain_shown, array_shown};
ghost use Rattle.dg_level.specs.Left.{AreLeftAt};
ghost use Rattle.dg_level.specs.Planned.{planned_keys};
ghost use Rattle.dg_level.specs.PlannedBlocks.{planned_root, planned_nodes};

use crate::Rows;
use crate::directives::{cascades, normalizes};
use crate::flat_arrays::flat_array;
use crate::keys::counts_of;
use crate::left::Left;
use crate::levels::known_rows;
use crate::lists::passing_each;
use crate::order_keys::{key_values, keys_over};
use crate::recursions::{Recursion, recursed_rows, recursion_in};
use crate::whole::{LeftList, left_list, level_of};
use crate::writing::number_objects;
use dg_check::{Func, OrderKey, Parts, Vars};
use dg_funcs::{meanings, root};
use dg_graph::Snapshot;
use dg_parse::{QArg, QBlock};
use dg_shape::{order, page};
use dg_tree::TreeFault;
use dg_uids::Uids;
use dg_values::{List, Mem, OutOfMemory, Steps};
use std::alloc::Global;
use std::sync::ledger::Ledger;

/// The bytes that an answer may have.
pub const MOST: usize = 16_777_216;

// The nodes of a root, where there is one.
fn nodes_of_root<S: Snapshot, L: Ledger>(
    alloc: Global,
    snap: &S,
    func: &Option<Func>,
    vars: &Vars,
    reads: &mut Steps<L>,
) -> Mem<Uids>
    ensures { IsLawful (S.declared snap.now) (S.graph snap.now) → IfOk result (λ uids. uids ≡ planned_root (S.graph snap.now) vars.now.variables func.now) }
{
    match func {
        None => Ok(Uids::gathered(Vec::new(alloc))),
        Some(func) => root(alloc, snap, func, vars, reads),
    }
}

// Nodes in order, and cut. A value of a predicate is looked up once for each node.
fn put_in_order<S: Snapshot, L: Ledger>(
    alloc: Global,
    snap: &S,
    args: &[QArg],
    orders: &[OrderKey],
    nodes: &Uids,
    vars: &Vars,
    reads: &mut Steps<L>,
) -> Mem<Vec<u64>>
    ensures { IfOk result (λ list. list.items ≡ page args.now (ordered (planned_keys (S.graph snap.now) vars.now.variables orders.now) nodes.now)) }
{
    let values = key_values(alloc, snap, orders, vars, nodes, reads)?;
    let by = keys_over(alloc, orders, values.as_slice())?;
    Ok(page(order(alloc, nodes, by.as_slice())?, args))
}

/// The list of a block, by the plan. The error is want of memory.
pub fn planned_nodes<S: Snapshot, L: Ledger>(
    alloc: Global,
    snap: &S,
    args: &[QArg],
    kept: &Parts,
    vars: &Vars,
    reads: &mut Steps<L>,
) -> Mem<Vec<u64>>
    ensures { IsLawful (S.declared snap.now) (S.graph snap.now) → IfOk result (λ list. list.items ≡ planned_nodes (S.graph snap.now) vars.now.variables args.now kept.now) }
{
    let nodes = nodes_of_root(alloc, snap, &kept.root, vars, reads)?;
    let nodes = passing_each(alloc, snap, kept.filters.as_slice(), nodes, vars, reads)?;
    put_in_order(
        alloc,
        snap,
        args,
        kept.orders.as_slice(),
        &nodes,
        vars,
        reads,
    )
}

/// The list of a block: the nodes of its root that pass its filters, in order, and cut. The error is want of memory.
pub fn nodes_of<S: Snapshot, L: Ledger>(
    alloc: Global,
    snap: &S,
    block: &QBlock,
    kept: &Parts,
    vars: &Vars,
    reads: &mut Steps<L>,
) -> Mem<Vec<u64>>
    ensures { (ds : Items Definition) → IsLawful (S.declared snap.now) (S.graph snap.now) → AreOfKind ds vars.now.variables → IsBlockOf (S.declared snap.now) ds block.now kept.now
        → IfOk result (λ list. list.items ≡ nodes_of_block (S.graph snap.now) ds vars.now.variables block.now) }
{
    meanings();
    planned_nodes(alloc, snap, block.args.as_slice(), kept, vars, reads)
}

/// The nodes of a block's list that remain: where the block has a cascade, those at which none of its fields is missing, and what is
/// found out about them. The error is want of memory.
pub fn left_of<S: Snapshot, L: Ledger>(
    alloc: Global,
    snap: &S,
    block: &QBlock,
    kept: &Parts,
    vars: &Vars,
    list: Vec<u64>,
    reads: &mut Steps<L>,
) -> Mem<LeftList>
    ensures list { (ds : Items Definition) → IsLawful (S.declared snap.now) (S.graph snap.now) → AreOfKind ds vars.now.variables → IsBlockOf (S.declared snap.now) ds block.now kept.now
        → IfOk result (λ left. left.list.items ≡ left_of_block (S.declared snap.now) (S.graph snap.now) ds vars.now.variables block.now list.items) }
    ensures inside { IfOk result (λ left. AreLeftAt (S.declared snap.now) (S.graph snap.now) vars.now.variables block.now kept.now left.list.items left.inside) }
{
    meanings();
    left_list(
        alloc,
        snap,
        cascades(false, block.dirs.as_slice()),
        block.fields.as_slice(),
        kept.fields.as_slice(),
        list,
        vars,
        reads,
    )
}

// The array of what the nodes of a list show as they are. What a node shows is made once, in a level of all of them.
fn nested_array<S: Snapshot, L: Ledger>(
    alloc: Global,
    snap: &S,
    block: &QBlock,
    kept: &Parts,
    vars: &Vars,
    list: &[u64],
    left: List<Left>,
    reads: &mut Steps<L>,
) -> Result<Rows, TreeFault>
    ensures ok { (ds : Items Definition) → IsLawful (S.declared snap.now) (S.graph snap.now) → AreOfKind ds vars.now.variables → IsBlockOf (S.declared snap.now) ds block.now kept.now
        → AreLeftAt (S.declared snap.now) (S.graph snap.now) vars.now.variables block.now kept.now list.now left → IfOk result (λ rows. rows.begun ≡ tree_text (trees.Array (nested_shown (S.declared snap.now) (S.graph snap.now) ds vars.now.variables block.now list.now))) }
    ensures too_large { (ds : Items Definition) → IsLawful (S.declared snap.now) (S.graph snap.now) → AreOfKind ds vars.now.variables → IsBlockOf (S.declared snap.now) ds block.now kept.now
        → AreLeftAt (S.declared snap.now) (S.graph snap.now) vars.now.variables block.now kept.now list.now left → IsErrOf result TreeFault.TooLarge → 16777216 < length (tree_text (trees.Array (nested_shown (S.declared snap.now) (S.graph snap.now) ds vars.now.variables block.now list.now))) }
{
    let fields = block.fields.as_slice();
    let level = level_of(alloc, list)?;
    let below = known_rows(
        alloc,
        snap,
        MOST,
        cascades(false, block.dirs.as_slice()),
        fields,
        kept.fields.as_slice(),
        vars,
        &level,
        left,
        reads,
    )?;
    let counts = counts_of(alloc, fields)?;
    let front = number_objects(alloc, list.len(), counts.as_slice())?;
    let mut rows = Rows::with_room(alloc, MOST)?;
    rows.array(front.as_slice(), list, &level, &below)?;
    Ok(rows)
}

// The array of what the nodes of a list unfold to. What a node unfolds to is made once, also where it stands there more than once.
fn recursed_array<S: Snapshot, L: Ledger>(
    alloc: Global,
    snap: &S,
    block: &QBlock,
    kept: &Parts,
    recursion: Recursion,
    vars: &Vars,
    list: &[u64],
    reads: &mut Steps<L>,
) -> Result<Rows, TreeFault>
    requires least { 1 ≤ recursion.depth }
    requires most { recursion.depth ≤ 32 }
    ensures ok { (ds : Items Definition) → IsLawful (S.declared snap.now) (S.graph snap.now) → AreOfKind ds vars.now.variables → IsBlockOf (S.declared snap.now) ds block.now kept.now
        → IfOk result (λ rows. rows.begun ≡ tree_text (trees.Array (recursed_shown (S.declared snap.now) (S.graph snap.now) ds vars.now.variables block.now recursion list.now))) }
    ensures too_large { (ds : Items Definition) → IsLawful (S.declared snap.now) (S.graph snap.now) → AreOfKind ds vars.now.variables → IsBlockOf (S.declared snap.now) ds block.now kept.now
        → IsErrOf result TreeFault.TooLarge → 16777216 < length (tree_text (trees.Array (recursed_shown (S.declared snap.now) (S.graph snap.now) ds vars.now.variables block.now recursion list.now))) }
{
    let fields = block.fields.as_slice();
    let level = level_of(alloc, list)?;
    let below = recursed_rows(
        alloc,
        snap,
        MOST,
        recursion,
        fields,
        kept.fields.as_slice(),
        vars,
        &level,
        reads,
    )?;
    let mut array = Rows::within(alloc, MOST);
    array.array(&[], list, &level, &below)?;
    Ok(array)
}

// The array of what they show by themselves, or as flat objects.
fn plain_array<S: Snapshot, L: Ledger>(
    alloc: Global,
    snap: &S,
    block: &QBlock,
    kept: &Parts,
    vars: &Vars,
    list: &[u64],
    left: List<Left>,
    reads: &mut Steps<L>,
) -> Result<Rows, TreeFault>
    ensures ok { (ds : Items Definition) → IsLawful (S.declared snap.now) (S.graph snap.now) → AreOfKind ds vars.now.variables → IsBlockOf (S.declared snap.now) ds block.now kept.now
        → AreLeftAt (S.declared snap.now) (S.graph snap.now) vars.now.variables block.now kept.now list.now left → IfOk result (λ rows. rows.begun ≡ tree_text (trees.Array (plain_shown (S.declared snap.now) (S.graph snap.now) ds vars.now.variables block.now list.now))) }
    ensures too_large { (ds : Items Definition) → IsLawful (S.declared snap.now) (S.graph snap.now) → AreOfKind ds vars.now.variables → IsBlockOf (S.declared snap.now) ds block.now kept.now
        → AreLeftAt (S.declared snap.now) (S.graph snap.now) vars.now.variables block.now kept.now list.now left → IsErrOf result TreeFault.TooLarge → 16777216 < length (tree_text (trees.Array (plain_shown (S.declared snap.now) (S.graph snap.now) ds vars.now.variables block.now list.now))) }
{
    if normalizes(block.dirs.as_slice()) {
        return flat_array(alloc, snap, block, kept, vars, list, left, reads);
    }
    nested_array(alloc, snap, block, kept, vars, list, left, reads)
}

/// The array of what the nodes of a list show, as the row that is begun: what they unfold to where the block has a recursion, and flat
/// objects where it is normalized.
///
/// `TooLarge` comes only where the array has more than 16,777,216 bytes. The other error is want of memory.
pub fn array_shown<S: Snapshot, L: Ledger>(
    alloc: Global,
    snap: &S,
    block: &QBlock,
    kept: &Parts,
    vars: &Vars,
    list: &[u64],
    left: List<Left>,
    reads: &mut Steps<L>,
) -> Result<Rows, TreeFault>
    ensures ok { (ds : Items Definition) → IsLawful (S.declared snap.now) (S.graph snap.now) → AreOfKind ds vars.now.variables → IsBlockOf (S.declared snap.now) ds block.now kept.now
        → AreLeftAt (S.declared snap.now) (S.graph snap.now) vars.now.variables block.now kept.now list.now left → IfOk result (λ rows. rows.begun ≡ tree_text (array_shown (S.declared snap.now) (S.graph snap.now) ds vars.now.variables block.now list.now)) }
    ensures too_large { (ds : Items Definition) → IsLawful (S.declared snap.now) (S.graph snap.now) → AreOfKind ds vars.now.variables → IsBlockOf (S.declared snap.now) ds block.now kept.now
        → AreLeftAt (S.declared snap.now) (S.graph snap.now) vars.now.variables block.now kept.now list.now left → IsErrOf result TreeFault.TooLarge → 16777216 < length (tree_text (array_shown (S.declared snap.now) (S.graph snap.now) ds vars.now.variables block.now list.now)) }
{
    match recursion_in(block.dirs.as_slice()) {
        None => plain_array(alloc, snap, block, kept, vars, list, left, reads),
        Some(recursion) => {
            recursed_array(alloc, snap, block, kept, recursion, vars, list, reads)
        }
    }
}
