// Cascade: nodes are dropped where one of their fields is left out.
ghost use Rattle.std.specs.Prelude.{◌≡◌, ◌≤◌, ◌∷◌, List, if◌then◌else◌, true, false, None, Some, IsTrue, IfSome, IfNone, length, take, filter_map, option_map};
ghost use Rattle.dg_tree.specs.declared.tree.Tree.TheVariants as trees;
ghost use Rattle.dg_shape.specs.Asked.{Asked, asked_by, asked_by_item};
ghost use Rattle.dg_shape.specs.Cascade.{remaining, remaining_from, node_cut, some_array, cut, cut_below, to_remain, cascaded};

use crate::keys::{is_key_of, is_number};
use crate::moves::{keep, put_back};
use dg_parse::{QField, QItem};
use dg_tree::{Field, Tree};
use dg_values::List;
use std::mem;

/// What remains of a node, or of an array of nodes, in a cascade: from the leaves up, a node is dropped where one of its
/// fields is left out, and an edge is left out where no child remains. It cuts in place and takes no memory.
pub fn cascade(tree: Tree, fields: &[QField]) -> Option<Tree>
    ensures { result ≡ cascaded fields.now tree }
{
    cut(fields, tree)
}

// What remains of a node or of an array of nodes; a value stays.
#[cycle(cascade)]
fn cut(fields: &[QField], tree: Tree) -> Option<Tree>
    ensures { result ≡ cut (remaining (to_remain fields.now)) tree }
{
    match tree {
        Tree::Array(items) => cut_array(fields, items),
        Tree::Node(parts) => cut_node(fields, parts),
        other => Some(other),
    }
}

// The nodes of an array that stay, if there are any.
#[cycle(cascade)]
fn cut_array(fields: &[QField], items: List<Tree>) -> Option<Tree>
    ensures { result ≡ some_array (filter_map (node_cut (remaining (to_remain fields.now))) items) }
{
    let mut items = items.into_vec();
    let kept = cut_all(fields, items.as_mut_slice());
    items.truncate(kept);
    array_of(items)
}

// An array, if it isn't empty.
fn array_of(items: Vec<Tree>) -> Option<Tree>
    ensures { result ≡ some_array items.items }
{
    if items.is_empty() {
        return None;
    }
    Some(Tree::Array(List::from_vec(items)))
}

// Moves what is left of trees to the front, and says how many there are.
#[cycle(cascade)]
fn cut_all(fields: &[QField], items: &mut [Tree]) -> usize
    ensures few { result ≤ length items.new }
    ensures kept { take result items.new ≡ filter_map (node_cut (remaining (to_remain fields.now))) items.old }
{
    let mut kept = 0;
    for i in 0..items.len() {
        let item = mem::replace(&mut items[i], Tree::Bool(false));
        kept = keep(items, kept, cut_one(fields, item));
    }
    kept
}

// A node, if it stays; a value stays.
#[cycle(cascade)]
fn cut_one(fields: &[QField], tree: Tree) -> Option<Tree>
    ensures { result ≡ node_cut (remaining (to_remain fields.now)) tree }
{
    match tree {
        Tree::Node(parts) => cut_node(fields, parts),
        other => Some(other),
    }
}

// A node, if none of its fields is left out.
#[cycle(cascade)]
fn cut_node(fields: &[QField], parts: List<Field>) -> Option<Tree>
    ensures { result ≡ option_map trees.Node (remaining (to_remain fields.now) parts) }
{
    let mut parts = parts.into_vec();
    if cut_fields(fields, parts.as_mut_slice()) {
        return Some(Tree::Node(List::from_vec(parts)));
    }
    None
}

// Cuts the fields of a node, and says whether none is left out.
#[cycle(cascade)]
fn cut_fields(fields: &[QField], parts: &mut [Field]) -> bool
    ensures stays { IsTrue result → remaining (to_remain fields.now) parts.old ≡ Some parts.new }
    ensures goes { result ≡ false → remaining (to_remain fields.now) parts.old ≡ None }
{
    let mut at = 0;
    for field in fields {
        match cut_field(field, parts, at) {
            Some(next) => at = next,
            None => return false,
        }
    }
    true
}

// Cuts what a node has of a field, if it stands at this place, and says at which place the next one stands; none where the
// field is left out.
#[cycle(cascade)]
fn cut_field(field: &QField, parts: &mut [Field], at: usize) -> Option<usize>
    ensures stays { (more : List Asked) → IfSome result (λ next. remaining_from parts.old at (asked_by cut_below field.now ∷ more) ≡ remaining_from parts.new next more) }
    ensures goes { (more : List Asked) → IfNone result (remaining_from parts.old at (asked_by cut_below field.now ∷ more) ≡ None) }
{
    if is_number(field) {
        return Some(at);
    }
    if at >= parts.len() || !is_key_of(parts[at].key.as_str(), field) {
        return None;
    }
    if cut_under(&field.item, &mut parts[at].tree) {
        return Some(at + 1);
    }
    None
}

// Cuts what stands under a field, and says whether something remains.
#[cycle(cascade)]
fn cut_under(item: &QItem, tree: &mut Tree) -> bool
    ensures { (asked_by_item cut_below item.now).left tree.old ≡ (if result then Some tree.new else None) }
{
    let whole = mem::replace(tree, Tree::Bool(false));
    put_back(tree, cut_item(item, whole))
}

// What remains of what stands under a field.
#[cycle(cascade)]
fn cut_item(item: &QItem, tree: Tree) -> Option<Tree>
    ensures { result ≡ (asked_by_item cut_below item.now).left tree }
{
    match item {
        QItem::Edge { fields, .. } => match fields {
            Some(fields) => cut(fields.as_slice(), tree),
            None => cut(&[], tree),
        },
        QItem::Uid | QItem::CountUid | QItem::Count(_) | QItem::Val(_) | QItem::Agg { .. } => Some(
            tree,
        ),
    }
}
