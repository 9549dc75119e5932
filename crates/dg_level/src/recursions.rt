// What recursion shows of the nodes of a level, by the text of a query.
ghost use Rattle.std.specs.Prelude.{◌≡◌, ◌<◌, ◌≤◌, List, map, IfOk, IfSome, IsErrOf};
ghost use Rattle.dg_graph.specs.Graphs.{IsLawful};
ghost use Rattle.dg_check.specs.Parts.{AreFieldsOf};
ghost use Rattle.dg_check.specs.Variables.{Definition};
ghost use Rattle.dg_funcs.specs.Laws.{AreOfKind};
ghost use Rattle.dg_level.specs.Recursions.{depth_of, depth_in, again_in, recursion_in, recursed_at};
ghost use Rattle.dg_level.specs.Rows.{total, row_text};

use crate::Rows;
use crate::looped::looped_rows;
use crate::walked::walked_rows;
use dg_check::{Field, Vars};
use dg_funcs::meanings;
use dg_graph::Snapshot;
use dg_parse::{QDir, QField, QOpt};
use dg_tree::TreeFault;
use dg_uids::Uids;
use dg_values::Steps;
use std::alloc::Global;
use std::sync::ledger::Ledger;

/// The recursion that a block asks for.
#[derive(Clone, Copy, Debug, PartialEq, Eq)]
pub struct Recursion {
    /// How many nodes are shown below one another, the block's own the first.
    pub depth: u32,
    /// Whether a node is shown again below itself.
    pub again: bool,
}

// A depth within its limits, as it is in each query that is checked.
fn depth_of(depth: i64) -> u32
    ensures value { result ≡ depth_of depth }
    ensures least { 1 ≤ result }
    ensures most { result ≤ 32 }
{
    if depth < 1 {
        return 1;
    }
    if depth > 32 {
        return 32;
    }
    depth as u32
}

// The depth that options say.
fn depth_in(options: &[QOpt]) -> u32
    ensures value { result ≡ depth_in options.now }
    ensures least { 1 ≤ result }
    ensures most { result ≤ 32 }
{
    for option in options {
        if let QOpt::Depth(depth) = option {
            return depth_of(*depth);
        }
    }
    1
}

// Whether they say that nodes come again.
fn again_in(options: &[QOpt]) -> bool
    ensures { result ≡ again_in options.now }
{
    for option in options {
        if let QOpt::Again(again) = option {
            return *again;
        }
    }
    false
}

/// The recursion that directives ask for, if they do.
pub fn recursion_in(dirs: &[QDir]) -> Option<Recursion>
    ensures value { result ≡ recursion_in dirs.now }
    ensures least { IfSome result (λ recursion. 1 ≤ recursion.depth) }
    ensures most { IfSome result (λ recursion. recursion.depth ≤ 32) }
{
    for dir in dirs {
        if let QDir::Recurse(options) = dir {
            let depth = depth_in(options.as_slice());
            let again = again_in(options.as_slice());
            return Some(Recursion { depth, again });
        }
    }
    None
}

/// The text of what is unfolded from nodes, a row for each node: so many nodes below one another, the node itself the first.
///
/// # Errors
///
/// `TooLarge` only where the rows together have more bytes than the limit, and else `OutOfMemory` for want of memory.
pub fn recursed_rows<S: Snapshot, L: Ledger>(
    alloc: Global,
    snap: &S,
    limit: usize,
    recursion: Recursion,
    fields: &[QField],
    kept: &[Field],
    vars: &Vars,
    nodes: &Uids,
    reads: &mut Steps<L>,
) -> Result<Rows, TreeFault>
    requires least { 1 ≤ recursion.depth }
    requires most { recursion.depth ≤ 32 }
    ensures rows { (ds : List Definition) → IsLawful (S.declared snap.now) (S.graph snap.now) → AreOfKind ds vars.now.variables → AreFieldsOf (S.declared snap.now) ds fields.now kept.now
        → IfOk result (λ rows. rows.rows ≡ map (λ n. row_text (recursed_at (S.declared snap.now) (S.graph snap.now) ds vars.now.variables recursion.again recursion.depth fields.now n)) nodes.now) }
    ensures too_large { (ds : List Definition) → IsLawful (S.declared snap.now) (S.graph snap.now) → AreOfKind ds vars.now.variables → AreFieldsOf (S.declared snap.now) ds fields.now kept.now
        → IsErrOf result TreeFault.TooLarge → limit < total (map (λ n. row_text (recursed_at (S.declared snap.now) (S.graph snap.now) ds vars.now.variables recursion.again recursion.depth fields.now n)) nodes.now) }
{
    meanings();
    if recursion.again {
        let left = recursion.depth - 1;
        let nodes = nodes.as_slice();
        return looped_rows(alloc, snap, limit, left, fields, kept, vars, nodes, reads);
    }
    walked_rows(
        alloc,
        snap,
        limit,
        recursion.depth,
        fields,
        kept,
        vars,
        nodes,
        reads,
    )
}
