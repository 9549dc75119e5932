// The rows of a recursion in which no node comes again below itself.
ghost use Rattle.std.specs.Prelude.{◌≡◌, ℕ, ◌-◌, ◌≤◌, ◌<◌, ◌++◌, ◌∷◌, [], Bool, true, false, List as Items, map, IfOk, OnOk, IsErrOf};
ghost use Rattle.std.specs.Ordering.{nat_cmp};
ghost use Rattle.dg_values.specs.Ascending.{has};
ghost use Rattle.dg_recurse.specs.Near.{AreLeast};
ghost use Rattle.dg_recurse.specs.Ways.{IsAtNone};
ghost use Rattle.dg_level.specs.Looping.{PieceOf, planned_pieces, pieces_by};
ghost use Rattle.dg_level.specs.Placing.{ArePlaced};
ghost use Rattle.dg_level.specs.Reaching.{Reaches};
ghost use Rattle.dg_level.specs.Rows.{total, row_text};
ghost use Rattle.dg_level.specs.Unfolding.{unfolded};

use crate::Rows;
use crate::looped::fetched_all;
use crate::placing::placed_columns;
use crate::reaching::reached;
use dg_check::{Field, Vars};
use dg_graph::Snapshot;
use dg_parse::QField;
use dg_recurse::{Column, Reach, Way, unfold_along};
use dg_sets::place_of;
use dg_tree::TreeFault;
use dg_uids::Uids;
use dg_values::{Mem, OutOfMemory, Steps};
use std::alloc::Global;
use std::sync::ledger::Ledger;

// Adds what is unfolded from a node, as a row.
fn push_unfolded(
    rows: &mut Rows,
    way: &mut Way,
    columns: &[Column],
    reach: &Reach,
    set: &Uids,
    depth: u32,
    node: u64,
) -> Result<(), TreeFault>
    requires begun { rows.old.begun ≡ [] }
    requires way { IsAtNone columns.now way.old }
    requires some { 1 ≤ depth }
    requires most { depth ≤ 32 }
    requires reach { AreLeast reach.now columns.now }
    ensures ok { (near : ℕ → Bool) (pieces : Items PieceOf) (roots : Items ℕ) → ArePlaced near set.now columns.now pieces → Reaches (pieces_by pieces) (depth - 1) roots near set.now → has nat_cmp roots node ≡ true
        → OnOk result (rows.new.rows ≡ rows.old.rows ++ row_text (unfolded (pieces_by pieces) false (depth - 1) (node ∷ []) node) ∷ []) }
    ensures way { OnOk result (IsAtNone columns.now way.new) }
    ensures begun { OnOk result (rows.new.begun ≡ []) }
    ensures limit { rows.new.limit ≡ rows.old.limit }
    ensures too_large { (near : ℕ → Bool) (pieces : Items PieceOf) (roots : Items ℕ) → ArePlaced near set.now columns.now pieces → Reaches (pieces_by pieces) (depth - 1) roots near set.now → has nat_cmp roots node ≡ true
        → IsErrOf result TreeFault.TooLarge → rows.old.limit < total (rows.old.rows ++ row_text (unfolded (pieces_by pieces) false (depth - 1) (node ∷ []) node) ∷ []) }
{
    let Ok(place) = place_of(set.as_slice(), &node) else {
        return Ok(rows.close()?);
    };
    let text = unfold_along(way, columns, reach, rows.room(), depth, place)?;
    rows.mark(text.as_str())?;
    Ok(rows.close()?)
}

// What is unfolded from nodes, each in its own row.
fn walked(
    alloc: Global,
    limit: usize,
    columns: &[Column],
    reach: &Reach,
    set: &Uids,
    depth: u32,
    nodes: &[u64],
) -> Result<Rows, TreeFault>
    requires some { 1 ≤ depth }
    requires most { depth ≤ 32 }
    requires reach { AreLeast reach.now columns.now }
    ensures rows { (near : ℕ → Bool) (pieces : Items PieceOf) → ArePlaced near set.now columns.now pieces → Reaches (pieces_by pieces) (depth - 1) nodes.now near set.now
        → IfOk result (λ rows. rows.rows ≡ map (λ n. row_text (unfolded (pieces_by pieces) false (depth - 1) (n ∷ []) n)) nodes.now) }
    ensures too_large { (near : ℕ → Bool) (pieces : Items PieceOf) → ArePlaced near set.now columns.now pieces → Reaches (pieces_by pieces) (depth - 1) nodes.now near set.now
        → IsErrOf result TreeFault.TooLarge → limit < total (map (λ n. row_text (unfolded (pieces_by pieces) false (depth - 1) (n ∷ []) n)) nodes.now) }
{
    let mut rows = Rows::within(alloc, limit);
    let mut way = Way::new(alloc);
    for node in nodes {
        push_unfolded(&mut rows, &mut way, columns, reach, set, depth, *node)?;
    }
    Ok(rows)
}

/// What fields unfold to from nodes, each in its own row, where no node comes again below itself. Where nodes lead is fetched once for
/// all that are reached but those at the last level, and then each root is walked along the edges.
///
/// # Errors
///
/// `TooLarge` only where all rows together have more bytes than the limit, and else `OutOfMemory` for want of memory.
pub fn walked_rows<S: Snapshot, L: Ledger>(
    alloc: Global,
    snap: &S,
    limit: usize,
    depth: u32,
    fields: &[QField],
    kept: &[Field],
    vars: &Vars,
    nodes: &Uids,
    reads: &mut Steps<L>,
) -> Result<Rows, TreeFault>
    requires some { 1 ≤ depth }
    requires most { depth ≤ 32 }
    ensures rows { IfOk result (λ rows. rows.rows ≡ map (λ n. row_text (unfolded (pieces_by (planned_pieces true (S.declared snap.now) (S.graph snap.now) vars.now.variables fields.now kept.now)) false (depth - 1) (n ∷ []) n)) nodes.now) }
    ensures too_large { IsErrOf result TreeFault.TooLarge → limit < total (map (λ n. row_text (unfolded (pieces_by (planned_pieces true (S.declared snap.now) (S.graph snap.now) vars.now.variables fields.now kept.now)) false (depth - 1) (n ∷ []) n)) nodes.now) }
{
    let found = reached(alloc, snap, depth - 1, fields, kept, vars, nodes, reads)?;
    let all = fetched_all(alloc, snap, true, fields, kept, vars, &[], reads)?;
    let columns = placed_columns(alloc, snap, &found, all.as_slice(), vars, reads)?;
    let reach = Reach::of(alloc, columns.as_slice(), found.set.len(), depth)?;
    walked(
        alloc,
        limit,
        columns.as_slice(),
        &reach,
        &found.set,
        depth,
        nodes.as_slice(),
    )
}
