// The array of a block whose nodes are shown as flat objects.
ghost use Rattle.std.specs.Prelude.{◌≡◌, false, ◌<◌, List as Items, length, map, IfOk, IsErrOf};
ghost use Rattle.dg_graph.specs.Graphs.{IsLawful};
ghost use Rattle.dg_check.specs.Parts.{IsBlockOf};
ghost use Rattle.dg_check.specs.Variables.{Definition};
ghost use Rattle.dg_funcs.specs.Laws.{AreOfKind};
ghost use Rattle.dg_tree.specs.declared.tree.Tree.TheVariants as trees;
ghost use Rattle.dg_tree.specs.Texts.{tree_text};
ghost use Rattle.dg_level.specs.Shown.{cascades, objects_at};
ghost use Rattle.dg_level.specs.Blocks.{flat_shown};
ghost use Rattle.dg_level.specs.FlatLevels.{weight_of};
ghost use Rattle.dg_level.specs.Left.{AreLeft, AreLeftAt};

use crate::Rows;
use crate::blocks::MOST;
use crate::directives::cascades;
use crate::flat_levels::level_flats;
use crate::flat_rows::Flats;
use crate::left::Left;
use crate::whole::level_of;
use dg_check::{Parts, Vars};
use dg_funcs::meanings;
use dg_graph::Snapshot;
use dg_parse::QBlock;
use dg_tree::TreeFault;
use dg_uids::Uids;
use dg_values::{List, Steps};
use std::alloc::Global;
use std::sync::ledger::Ledger;

// The flat objects of each node of a block's level.
//
// `TooLarge` only where they weigh more than 16,777,216 bytes together. The other error is want of memory.
fn block_flats<S: Snapshot, L: Ledger>(
    alloc: Global,
    snap: &S,
    block: &QBlock,
    kept: &Parts,
    vars: &Vars,
    level: &Uids,
    left: List<Left>,
    reads: &mut Steps<L>,
) -> Result<Vec<Flats>, TreeFault>
    ensures flats { (ds : Items Definition) → IsLawful (S.declared snap.now) (S.graph snap.now) → AreOfKind ds vars.now.variables → IsBlockOf (S.declared snap.now) ds block.now kept.now
        → AreLeft (S.declared snap.now) (S.graph snap.now) vars.now.variables block.now.fields kept.now.fields level.now left → IfOk result (λ v. v.items ≡ map (objects_at (S.declared snap.now) (S.graph snap.now) ds vars.now.variables (cascades false block.now.dirs) block.now.fields) level.now) }
    ensures too_large { (ds : Items Definition) → IsLawful (S.declared snap.now) (S.graph snap.now) → AreOfKind ds vars.now.variables → IsBlockOf (S.declared snap.now) ds block.now kept.now
        → AreLeft (S.declared snap.now) (S.graph snap.now) vars.now.variables block.now.fields kept.now.fields level.now left → IsErrOf result TreeFault.TooLarge → 16777216 < weight_of (objects_at (S.declared snap.now) (S.graph snap.now) ds vars.now.variables (cascades false block.now.dirs) block.now.fields) level.now }
{
    meanings();
    level_flats(
        alloc,
        snap,
        cascades(false, block.dirs.as_slice()),
        block.fields.as_slice(),
        kept.fields.as_slice(),
        vars,
        level.as_slice(),
        left,
        reads,
    )
}

/// The array of the flat objects of the nodes of a list, as the row that is begun. Those of a node are made once, in a level of all of
/// them.
///
/// # Errors
///
/// `TooLarge` only where the array has more than 16,777,216 bytes, and else `OutOfMemory` for want of memory.
pub fn flat_array<S: Snapshot, L: Ledger>(
    alloc: Global,
    snap: &S,
    block: &QBlock,
    kept: &Parts,
    vars: &Vars,
    list: &[u64],
    left: List<Left>,
    reads: &mut Steps<L>,
) -> Result<Rows, TreeFault>
    ensures ok { (ds : Items Definition) → IsLawful (S.declared snap.now) (S.graph snap.now) → AreOfKind ds vars.now.variables → IsBlockOf (S.declared snap.now) ds block.now kept.now
        → AreLeftAt (S.declared snap.now) (S.graph snap.now) vars.now.variables block.now kept.now list.now left → IfOk result (λ rows. rows.begun ≡ tree_text (trees.Array (flat_shown (S.declared snap.now) (S.graph snap.now) ds vars.now.variables block.now list.now))) }
    ensures too_large { (ds : Items Definition) → IsLawful (S.declared snap.now) (S.graph snap.now) → AreOfKind ds vars.now.variables → IsBlockOf (S.declared snap.now) ds block.now kept.now
        → AreLeftAt (S.declared snap.now) (S.graph snap.now) vars.now.variables block.now kept.now list.now left → IsErrOf result TreeFault.TooLarge → 16777216 < length (tree_text (trees.Array (flat_shown (S.declared snap.now) (S.graph snap.now) ds vars.now.variables block.now list.now))) }
{
    let level = level_of(alloc, list)?;
    let below = block_flats(alloc, snap, block, kept, vars, &level, left, reads)?;
    let mut array = Rows::within(alloc, MOST);
    array.flat_array(list, &level, below.as_slice())?;
    Ok(array)
}
