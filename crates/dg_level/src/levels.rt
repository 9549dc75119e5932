// What the nodes of a level show, by the text of a query.
ghost use Rattle.std.specs.Prelude.{◌≡◌, ◌<◌, List as Items, map, IfOk, IsErrOf};
ghost use Rattle.dg_graph.specs.Graphs.{IsLawful};
ghost use Rattle.dg_check.specs.Parts.{AreFieldsOf};
ghost use Rattle.dg_check.specs.Variables.{Definition};
ghost use Rattle.dg_funcs.specs.Laws.{AreOfKind};
ghost use Rattle.dg_level.specs.Left.{AreLeft};
ghost use Rattle.dg_level.specs.Rows.{total, row_text};
ghost use Rattle.dg_level.specs.Shown.{fields_at};

use crate::Rows;
use crate::columns::level_rows;
use crate::left::Left;
use dg_check::{Field, Vars};
use dg_funcs::meanings;
use dg_graph::Snapshot;
use dg_parse::QField;
use dg_tree::TreeFault;
use dg_uids::Uids;
use dg_values::{List, Steps};
use std::alloc::Global;
use std::sync::ledger::Ledger;

/// The text of what fields show of nodes, a row for each node: what stands between the braces of its object.
///
/// It goes level by level: the lists of all nodes under an edge, the union of the lists as the level below, and the rows of
/// that. The row of a node is made once in each level, whatever number of nodes lead to it, and so is each look-up for a node
/// and a field. Where a cascade goes on from above, lists lose the nodes at which a field is missing; the lists that are read for
/// that aren't read again.
///
/// # Errors
///
/// `TooLarge` only where the rows together have more bytes than the limit, and else `OutOfMemory` for want of memory.
pub fn rows_of<S: Snapshot, L: Ledger>(
    alloc: Global,
    snap: &S,
    limit: usize,
    cascade: bool,
    fields: &[QField],
    kept: &[Field],
    vars: &Vars,
    nodes: &Uids,
    reads: &mut Steps<L>,
) -> Result<Rows, TreeFault>
    ensures rows { (ds : Items Definition) → IsLawful (S.declared snap.now) (S.graph snap.now) → AreOfKind ds vars.now.variables → AreFieldsOf (S.declared snap.now) ds fields.now kept.now
        → IfOk result (λ rows. rows.rows ≡ map (λ n. row_text (fields_at (S.declared snap.now) (S.graph snap.now) ds vars.now.variables cascade fields.now n)) nodes.now) }
    ensures too_large { (ds : Items Definition) → IsLawful (S.declared snap.now) (S.graph snap.now) → AreOfKind ds vars.now.variables → AreFieldsOf (S.declared snap.now) ds fields.now kept.now
        → IsErrOf result TreeFault.TooLarge → limit < total (map (λ n. row_text (fields_at (S.declared snap.now) (S.graph snap.now) ds vars.now.variables cascade fields.now n)) nodes.now) }
{
    let none = List::new(alloc);
    known_rows(
        alloc, snap, limit, cascade, fields, kept, vars, nodes, none, reads,
    )
}

/// The same where something may be known of the nodes under each field: that isn't read again.
///
/// # Errors
///
/// As for `rows_of`.
pub fn known_rows<S: Snapshot, L: Ledger>(
    alloc: Global,
    snap: &S,
    limit: usize,
    cascade: bool,
    fields: &[QField],
    kept: &[Field],
    vars: &Vars,
    nodes: &Uids,
    left: List<Left>,
    reads: &mut Steps<L>,
) -> Result<Rows, TreeFault>
    ensures rows { (ds : Items Definition) → IsLawful (S.declared snap.now) (S.graph snap.now) → AreOfKind ds vars.now.variables → AreFieldsOf (S.declared snap.now) ds fields.now kept.now
        → AreLeft (S.declared snap.now) (S.graph snap.now) vars.now.variables fields.now kept.now nodes.now left → IfOk result (λ rows. rows.rows ≡ map (λ n. row_text (fields_at (S.declared snap.now) (S.graph snap.now) ds vars.now.variables cascade fields.now n)) nodes.now) }
    ensures too_large { (ds : Items Definition) → IsLawful (S.declared snap.now) (S.graph snap.now) → AreOfKind ds vars.now.variables → AreFieldsOf (S.declared snap.now) ds fields.now kept.now
        → AreLeft (S.declared snap.now) (S.graph snap.now) vars.now.variables fields.now kept.now nodes.now left → IsErrOf result TreeFault.TooLarge → limit < total (map (λ n. row_text (fields_at (S.declared snap.now) (S.graph snap.now) ds vars.now.variables cascade fields.now n)) nodes.now) }
{
    meanings();
    level_rows(
        alloc,
        snap,
        limit,
        cascade,
        fields,
        kept,
        vars,
        nodes.as_slice(),
        left,
        reads,
    )
}
