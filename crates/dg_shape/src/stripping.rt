// Whole trees as they are shown: without nodes that have no field and edges that have no node.
ghost use Rattle.std.specs.Prelude.{◌≡◌, ◌≤◌, ◌<◌, ◌+◌, ◌++◌, ◌∷◌, [], List, if◌then◌else◌, None, Some, IfOk, length, take, drop, filter_map};
ghost use Rattle.std.specs.List.{list_all};
ghost use Rattle.dg_tree.specs.declared.tree.Tree.TheVariants as trees;
ghost use Rattle.dg_shape.specs.Asked.{Asked, asked_by, asked_by_item};
ghost use Rattle.dg_shape.specs.Strip.{shown_fields, shown_from, node_shown, something, is_node, list_shown, shown_by, shown_below, to_show, stripped};

use crate::counting::{counts, joined};
use crate::keys::is_key_of;
use crate::moves::{keep, put_back};
use dg_parse::{QField, QItem};
use dg_tree::{Field, Tree};
use dg_values::{List, Mem, OutOfMemory};
use std::alloc::Global;
use std::mem;

// How many fields are shown so far, and at which place the next one stands.
#[derive(Clone, Copy)]
struct Places {
    kept: usize,
    at: usize,
}

/// What is shown of a node, or of an array of nodes: nodes without fields and edges without nodes are left out, and the
/// objects of the numbers of nodes stand in front of arrays. The error is want of memory.
pub fn strip(alloc: Global, tree: Tree, fields: &[QField]) -> Mem<Tree>
    ensures { IfOk result (λ t. t ≡ stripped fields.now tree) }
{
    show(alloc, fields, tree)
}

// What is shown of a node or of an array of nodes; a value is shown as it is.
#[cycle(strip)]
fn show(alloc: Global, fields: &[QField], tree: Tree) -> Mem<Tree>
    ensures { IfOk result (λ t. t ≡ shown_by (to_show fields.now) tree) }
{
    match tree {
        Tree::Array(items) => show_array(alloc, fields, items),
        Tree::Node(parts) => show_node(alloc, fields, parts),
        other => Ok(other),
    }
}

/// Whether these are nodes.
pub fn are_nodes(items: &[Tree]) -> bool
    ensures { result ≡ list_all is_node items.now }
{
    items.iter().all(|item| matches!(item, Tree::Node(_)))
}

// An array of nodes with its numbers of nodes in front; an array of values as it is.
#[cycle(strip)]
fn show_array(alloc: Global, fields: &[QField], items: List<Tree>) -> Mem<Tree>
    ensures { IfOk result (λ t. t ≡ (if list_all is_node items then trees.Array (list_shown (to_show fields.now) items) else trees.Array items)) }
{
    if !are_nodes(items.as_slice()) {
        return Ok(Tree::Array(items));
    }
    let front = counts(alloc, fields, items.as_slice())?;
    let mut items = items.into_vec();
    let kept = show_all(alloc, fields, items.as_mut_slice())?;
    items.truncate(kept);
    joined(front, items)
}

// Moves what is shown of nodes to the front, and says how many there are.
#[cycle(strip)]
fn show_all(alloc: Global, fields: &[QField], items: &mut [Tree]) -> Mem<usize>
    ensures few { IfOk result (λ kept. kept ≤ length items.new) }
    ensures kept { IfOk result (λ kept. take kept items.new ≡ filter_map (λ t. something (node_shown (shown_fields (to_show fields.now)) t)) items.old) }
{
    let mut kept = 0;
    for i in 0..items.len() {
        let item = mem::replace(&mut items[i], Tree::Bool(false));
        let item = show_one(alloc, fields, item)?;
        kept = keep(items, kept, left_of(item));
    }
    Ok(kept)
}

// What is shown of a node; a value is shown as it is.
#[cycle(strip)]
fn show_one(alloc: Global, fields: &[QField], tree: Tree) -> Mem<Tree>
    ensures { IfOk result (λ t. t ≡ node_shown (shown_fields (to_show fields.now)) tree) }
{
    match tree {
        Tree::Node(parts) => show_node(alloc, fields, parts),
        other => Ok(other),
    }
}

// A node with what is shown of its fields.
#[cycle(strip)]
fn show_node(alloc: Global, fields: &[QField], parts: List<Field>) -> Mem<Tree>
    ensures { IfOk result (λ t. t ≡ trees.Node (shown_fields (to_show fields.now) parts)) }
{
    let mut parts = parts.into_vec();
    let kept = show_fields(alloc, fields, parts.as_mut_slice())?;
    parts.truncate(kept);
    Ok(Tree::Node(List::from_vec(parts)))
}

// Moves what is shown of the fields of a node to the front, and says how many there are.
#[cycle(strip)]
fn show_fields(alloc: Global, fields: &[QField], parts: &mut [Field]) -> Mem<usize>
    ensures { IfOk result (λ kept. take kept parts.new ≡ shown_fields (to_show fields.now) parts.old) }
{
    let mut places = Places { kept: 0, at: 0 };
    for field in fields {
        places = show_field(alloc, field, parts, places)?;
    }
    Ok(places.kept)
}

// Moves what is shown of a field to the others that are, if the node has it.
#[cycle(strip)]
fn show_field(alloc: Global, field: &QField, parts: &mut [Field], places: Places) -> Mem<Places>
    requires { places.kept ≤ places.at }
    ensures ordered { IfOk result (λ next. next.kept ≤ next.at) }
    ensures shown { (more : List Asked) → IfOk result (λ next. shown_from parts.old places.kept places.at (asked_by shown_below field.now ∷ more) ≡ shown_from parts.new next.kept next.at more) }
{
    if places.at >= parts.len() {
        return Ok(places);
    }
    if !is_key_of(parts[places.at].key.as_str(), field) {
        return Ok(places);
    }
    let stays = show_under(alloc, &field.item, &mut parts[places.at].tree)?;
    Ok(pass(parts, places, stays))
}

// Passes a field, and moves it to those that are shown if it is.
fn pass(parts: &mut [Field], places: Places, stays: bool) -> Places
    requires ordered { places.kept ≤ places.at }
    requires within { places.at < length parts.old }
    ensures ordered { result.kept ≤ result.at }
    ensures next { result.at ≡ places.at + 1 }
    ensures shown { take result.kept parts.new ≡ take places.kept parts.old ++ (if stays then take 1 (drop places.at parts.old) else []) }
    ensures rest { drop (places.at + 1) parts.new ≡ drop (places.at + 1) parts.old }
{
    let Places { kept, at } = places;
    if stays {
        parts.swap(kept, at);
        return Places {
            kept: kept + 1,
            at: at + 1,
        };
    }
    Places { kept, at: at + 1 }
}

// Leaves of what stands under a field what is shown, and says whether there is something.
#[cycle(strip)]
fn show_under(alloc: Global, item: &QItem, tree: &mut Tree) -> Mem<bool>
    ensures { IfOk result (λ stays. (asked_by_item shown_below item.now).left tree.old ≡ (if stays then Some tree.new else None)) }
{
    match item {
        QItem::Edge { fields, .. } => match fields {
            Some(fields) => show_below(alloc, fields.as_slice(), tree),
            None => show_below(alloc, &[], tree),
        },
        QItem::Uid | QItem::CountUid | QItem::Count(_) | QItem::Val(_) | QItem::Agg { .. } => Ok(
            true,
        ),
    }
}

// The same below an edge.
#[cycle(strip)]
fn show_below(alloc: Global, fields: &[QField], tree: &mut Tree) -> Mem<bool>
    ensures { IfOk result (λ stays. shown_below (to_show fields.now) tree.old ≡ (if stays then Some tree.new else None)) }
{
    let whole = mem::replace(tree, Tree::Bool(false));
    let whole = show(alloc, fields, whole)?;
    Ok(put_back(tree, left_of(whole)))
}

// A tree, unless it is a node without fields or an array without nodes.
fn left_of(tree: Tree) -> Option<Tree>
    ensures { result ≡ something tree }
{
    if is_nothing(&tree) {
        return None;
    }
    Some(tree)
}

// Whether it is a node without fields or an array without nodes.
fn is_nothing(tree: &Tree) -> bool
    ensures { something tree.now ≡ (if result then None else Some tree.now) }
{
    match tree {
        Tree::Array(items) => items.len() == 0,
        Tree::Node(parts) => parts.len() == 0,
        Tree::Int(_) | Tree::Bool(_) | Tree::Text(_) => false,
    }
}
