// Normalize: nodes as flat objects.
ghost use Rattle.std.specs.Prelude.{◌≡◌, ◌≤◌, ◌<◌, IfOk, IsErrOf, length, map};
ghost use Rattle.dg_tree.specs.Texts.{array_text, tree_text};
ghost use Rattle.dg_shape.specs.Normalize.{normalized};

use crate::flattening::flatten;
use crate::tallies::count;
use crate::writing::written;
use dg_parse::QField;
use dg_tree::{Tree, TreeFault};
use dg_values::{Mem, OutOfMemory};
use std::alloc::Global;

// How many flat objects are made at most: the text of more has more bytes than an answer may have.
const MOST: usize = 8_388_608;

/// The flat objects of nodes, as the array of a normalized block shows them.
///
/// # Errors
///
/// `TooLarge` comes exactly where the text of the array has more than 16,777,216 bytes, and else `OutOfMemory` for want of
/// memory.
pub fn normalize(alloc: Global, trees: Vec<Tree>, fields: &[QField]) -> Result<Vec<Tree>, TreeFault>
    ensures ok { IfOk result (λ v. v.items ≡ normalized fields.now trees.items) }
    ensures within { IfOk result (λ v. length (array_text (map tree_text (normalized fields.now trees.items))) ≤ 16777216) }
    ensures too_large { IsErrOf result TreeFault.TooLarge → 16777216 < length (array_text (map tree_text (normalized fields.now trees.items))) }
{
    let nodes = trees.as_slice();
    if count(fields, nodes) > MOST {
        return Err(TreeFault::TooLarge);
    }
    let objects = flatten(alloc, fields, nodes)?;
    written(alloc, objects.as_slice())
}
