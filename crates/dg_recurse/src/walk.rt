// The row of a node, by a walk along the edges.
ghost use Rattle.std.specs.Prelude.{◌≡◌, ℕ, ◌-◌, ◌≤◌, ◌<◌, ◌∷◌, ◌++◌, [], true, false, List, length, map, codes, IfOk, IfSome, OnOk, IsErrOf};
ghost use Rattle.dg_recurse.specs.declared.column.Column.{Column};
ghost use Rattle.dg_tree.specs.Texts.{with_commas};
ghost use Rattle.dg_recurse.specs.Unfolding.{Piece, unfolded};
ghost use Rattle.dg_recurse.specs.Rows.{row_text, objects_of, enclosed};
ghost use Rattle.dg_recurse.specs.Columns.{AreColumnsOf, pieces_at};
ghost use Rattle.dg_recurse.specs.Written.{edge_text, column_text, row_at, child_at, rows_behind};
ghost use Rattle.dg_recurse.specs.Near.{AreLeast};
ghost use Rattle.dg_recurse.specs.Ways.{IsSoundWay, IsKept, IsAtNone};

use crate::search::{is_too_far, may_show};
use crate::text::{add, enclose};
use crate::way::Way;
use crate::{Column, Reach};
use dg_tree::TreeFault;
use dg_values::Str;
use std::alloc::Global;

// The row of a node behind whom no edge is followed any more, if it is told.
fn leaf(
    alloc: Global,
    reach: &Reach,
    limit: usize,
    left: u32,
    node: usize,
) -> Result<Option<Str>, TreeFault>
    ensures text { (fetched : List Column) (path : List ℕ) → AreLeast reach.now fetched → IfOk result (λ row. IfSome row (λ text. text ≡ row_at fetched left path node)) }
    ensures within { IfOk result (λ row. IfSome row (λ text. length text ≤ limit)) }
    ensures too_large { (fetched : List Column) (path : List ℕ) → AreLeast reach.now fetched → IsErrOf result TreeFault.TooLarge → limit < length (row_at fetched left path node) }
{
    if left != 0 {
        return Ok(None);
    }
    match reach.row(node) {
        None => Ok(None),
        Some(row) => Ok(Some(enclose(alloc, limit, "", row.as_str(), "")?)),
    }
}

// The row of a node at the end of the path.
#[cycle(walk)]
fn row(
    columns: &[Column],
    reach: &Reach,
    way: &mut Way,
    limit: usize,
    left: u32,
    node: usize,
) -> Result<Str, TreeFault>
    requires near { AreLeast reach.now columns.now }
    requires sound { IsSoundWay columns.now way.old }
    ensures kept { OnOk result (IsKept columns.now way.old way.new) }
    ensures text { IfOk result (λ text. text ≡ row_at columns.now left way.old.path.items node) }
    ensures within { IfOk result (λ text. length text ≤ limit) }
    ensures too_large { IsErrOf result TreeFault.TooLarge → limit < length (row_at columns.now left way.old.path.items node) }
{
    if let Some(whole) = leaf(way.alloc, reach, limit, left, node)? {
        return Ok(whole);
    }
    let mut out = Str::from_string(String::new(way.alloc));
    for column in columns {
        let room = limit - out.len();
        let text = column_of(columns, reach, way, room, left, node, column)?;
        add(&mut out, limit, "", text.as_str(), "")?;
    }
    Ok(out)
}

// What stands for a column in the row of a node at the end of the path.
#[cycle(walk)]
fn column_of(
    columns: &[Column],
    reach: &Reach,
    way: &mut Way,
    limit: usize,
    left: u32,
    node: usize,
    column: &Column,
) -> Result<Str, TreeFault>
    requires near { AreLeast reach.now columns.now }
    requires sound { IsSoundWay columns.now way.old }
    ensures kept { OnOk result (IsKept columns.now way.old way.new) }
    ensures text { IfOk result (λ text. text ≡ column_text (rows_behind columns.now left way.old.path.items) node column.now) }
    ensures within { IfOk result (λ text. length text ≤ limit) }
    ensures too_large { IsErrOf result TreeFault.TooLarge → limit < length (column_text (rows_behind columns.now left way.old.path.items) node column.now) }
{
    match column {
        Column::Own(_) => enclose(way.alloc, limit, "", column.own(node), ""),
        Column::Edge { key, single, .. } => {
            if left == 0 {
                return Ok(Str::from_string(String::new(way.alloc)));
            }
            let nodes = column.nodes(node);
            let shown = shown_by(columns, reach, way, limit, left - 1, *single, nodes)?;
            enclose(way.alloc, limit, key.as_str(), shown.as_str(), "")
        }
    }
}

// What an edge shows of the nodes of a list: the first that shows something, or the array of all that do.
#[cycle(walk)]
fn shown_by(
    columns: &[Column],
    reach: &Reach,
    way: &mut Way,
    limit: usize,
    left: u32,
    single: bool,
    nodes: &[usize],
) -> Result<Str, TreeFault>
    requires near { AreLeast reach.now columns.now }
    requires sound { IsSoundWay columns.now way.old }
    ensures kept { OnOk result (IsKept columns.now way.old way.new) }
    ensures text { IfOk result (λ text. text ≡ edge_text single (objects_of (map (child_at columns.now left way.old.path.items) nodes.now))) }
    ensures within { IfOk result (λ text. length text ≤ limit) }
    ensures too_large { IsErrOf result TreeFault.TooLarge → limit < length (edge_text single (objects_of (map (child_at columns.now left way.old.path.items) nodes.now))) }
{
    if single {
        let row = first_row(columns, reach, way, limit, left, nodes)?;
        return enclose(way.alloc, limit, "{", row.as_str(), "}");
    }
    let objects = all_objects(columns, reach, way, limit, left, nodes)?;
    enclose(way.alloc, limit, "[", objects.as_str(), "]")
}

// The row of the first node of a list that shows something, or an empty text.
#[cycle(walk)]
fn first_row(
    columns: &[Column],
    reach: &Reach,
    way: &mut Way,
    limit: usize,
    left: u32,
    nodes: &[usize],
) -> Result<Str, TreeFault>
    requires near { AreLeast reach.now columns.now }
    requires sound { IsSoundWay columns.now way.old }
    ensures kept { OnOk result (IsKept columns.now way.old way.new) }
    ensures text { IfOk result (λ text. enclosed (codes "{") text (codes "}") ≡ edge_text true (objects_of (map (child_at columns.now left way.old.path.items) nodes.now))) }
    ensures too_large { IsErrOf result TreeFault.TooLarge → limit < length (edge_text true (objects_of (map (child_at columns.now left way.old.path.items) nodes.now))) }
{
    for node in nodes {
        let row = child_row(columns, reach, way, limit, left, *node)?;
        if !row.is_empty() {
            return Ok(row);
        }
    }
    Ok(Str::from_string(String::new(way.alloc)))
}

// The objects of the nodes of a list that show something, with commas between them.
#[cycle(walk)]
fn all_objects(
    columns: &[Column],
    reach: &Reach,
    way: &mut Way,
    limit: usize,
    left: u32,
    nodes: &[usize],
) -> Result<Str, TreeFault>
    requires near { AreLeast reach.now columns.now }
    requires sound { IsSoundWay columns.now way.old }
    ensures kept { OnOk result (IsKept columns.now way.old way.new) }
    ensures text { IfOk result (λ text. text ≡ with_commas (objects_of (map (child_at columns.now left way.old.path.items) nodes.now))) }
    ensures too_large { IsErrOf result TreeFault.TooLarge → limit < length (with_commas (objects_of (map (child_at columns.now left way.old.path.items) nodes.now))) }
{
    let mut out = Str::from_string(String::new(way.alloc));
    for node in nodes {
        if is_too_far(reach, way, left, *node) {
            continue;
        }
        let room = limit - out.len();
        let row = child_row(columns, reach, way, room, left, *node)?;
        add(&mut out, limit, "{", row.as_str(), "}")?;
    }
    Ok(out)
}

// The row of a node to which an edge leads from the end of the path, or nothing where it is on the path or shows nothing.
#[cycle(walk)]
fn child_row(
    columns: &[Column],
    reach: &Reach,
    way: &mut Way,
    limit: usize,
    left: u32,
    node: usize,
) -> Result<Str, TreeFault>
    requires near { AreLeast reach.now columns.now }
    requires sound { IsSoundWay columns.now way.old }
    ensures kept { OnOk result (IsKept columns.now way.old way.new) }
    ensures text { IfOk result (λ text. text ≡ child_at columns.now left way.old.path.items node) }
    ensures within { IfOk result (λ text. length text ≤ limit) }
    ensures too_large { IsErrOf result TreeFault.TooLarge → limit < length (child_at columns.now left way.old.path.items node) }
{
    if !may_show(columns, reach, way, left, node)? {
        return Ok(Str::from_string(String::new(way.alloc)));
    }
    way.enter(node)?;
    let out = row(columns, reach, way, limit, left, node)?;
    way.leave();
    Ok(out)
}

/// What recursion shows of the node at a place, `depth` nodes deep, as a row: what stands between the braces of its object.
///
/// Of a node its own fields are shown, and under an edge the nodes to which it leads, but for those of the path from the root to
/// the node, itself on it.
///
/// It goes only where something is shown, so that time follows the length of the row: it passes over a node that shows nothing of
/// itself, where none that does can be reached off the path. Where ways to the nearest are closed by nodes of the path, it learns
/// how far places are then, and that counts again whenever these nodes are on the path.
///
/// # Errors
///
/// `TooLarge` comes exactly where the row has more bytes than the limit, and else `OutOfMemory` for want of memory.
pub fn unfold(
    alloc: Global,
    columns: &[Column],
    reach: &Reach,
    limit: usize,
    depth: u32,
    node: usize,
) -> Result<Str, TreeFault>
    requires some { 1 ≤ depth }
    requires most { depth ≤ 32 }
    requires reach { AreLeast reach.now columns.now }
    ensures text { (pieces : List (ℕ → Piece)) → AreColumnsOf columns.now pieces
        → IfOk result (λ text. text ≡ row_text (unfolded (pieces_at pieces) false (depth - 1) (node ∷ []) node)) }
    ensures within { IfOk result (λ text. length text ≤ limit) }
    ensures too_large { (pieces : List (ℕ → Piece)) → AreColumnsOf columns.now pieces
        → IsErrOf result TreeFault.TooLarge → limit < length (row_text (unfolded (pieces_at pieces) false (depth - 1) (node ∷ []) node)) }
{
    unfold_along(&mut Way::new(alloc), columns, reach, limit, depth, node)
}

/// The same, for many nodes of the same columns one after another: the way is at no node before and after, and keeps its memory and
/// what was learned.
///
/// # Errors
///
/// As those of `unfold`. After an error the way serves no more.
pub fn unfold_along(
    way: &mut Way,
    columns: &[Column],
    reach: &Reach,
    limit: usize,
    depth: u32,
    node: usize,
) -> Result<Str, TreeFault>
    requires some { 1 ≤ depth }
    requires most { depth ≤ 32 }
    requires reach { AreLeast reach.now columns.now }
    requires way { IsAtNone columns.now way.old }
    ensures way { OnOk result (IsAtNone columns.now way.new) }
    ensures text { (pieces : List (ℕ → Piece)) → AreColumnsOf columns.now pieces
        → IfOk result (λ text. text ≡ row_text (unfolded (pieces_at pieces) false (depth - 1) (node ∷ []) node)) }
    ensures within { IfOk result (λ text. length text ≤ limit) }
    ensures too_large { (pieces : List (ℕ → Piece)) → AreColumnsOf columns.now pieces
        → IsErrOf result TreeFault.TooLarge → limit < length (row_text (unfolded (pieces_at pieces) false (depth - 1) (node ∷ []) node)) }
{
    way.enter(node)?;
    let out = row(columns, reach, way, limit, depth - 1, node)?;
    way.leave();
    Ok(out)
}
