// How many flat objects nodes have at least, before any is made.
ghost use Rattle.std.specs.Prelude.{◌≡◌, ◌≤◌, ◌||◌, ◌∷◌, List, true, length, drop, filter};
ghost use Rattle.std.specs.List.{list_all};
ghost use Rattle.dg_tree.specs.declared.tree.Field.{Field};
ghost use Rattle.dg_tree.specs.declared.tree.Tree.TheViews.{out-Tree};
ghost use Rattle.dg_shape.specs.Normalize.{Flattened, after_fields, flat_fields, flat_tree, flat_trees, after_edge, flattened, flattened_item, to_flatten, has_pair, times, with_value};
ghost use Rattle.dg_shape.specs.Tallies.{IsTally};

use crate::keys::is_key_of;
use crate::stripping::are_nodes;
use dg_parse::{QField, QItem};
use dg_tree::{Field, Tree};

// How many objects there are at least, and whether all have a field.
#[derive(Clone, Copy)]
struct Tally {
    total: usize,
    filled: bool,
}

// A tally, and the place of the field that stands next.
#[derive(Clone, Copy)]
struct Counted {
    tally: Tally,
    at: usize,
}

// Whether one of two holds.
fn either(a: bool, b: bool) -> bool
    ensures { result ≡ (a || b) }
{
    a || b
}

// The tally behind a value.
fn behind_value(tally: Tally, alias: bool, part: &Field) -> Tally
    ensures { (objects : List (List Field)) → IsTally tally.total tally.filled objects → IsTally result.total result.filled (with_value alias part.now objects) }
{
    let filled = either(tally.filled, alias);
    Tally {
        total: tally.total,
        filled,
    }
}

// The same where each object is followed by each of others, of which there are so many at least.
fn times(tally: Tally, others: usize) -> Tally
    ensures { (objects more : List (List Field)) → IsTally tally.total tally.filled objects → others ≤ length more → list_all has_pair more ≡ true → IsTally result.total result.filled (times objects more) }
{
    if others == 0 {
        return tally;
    }
    Tally {
        total: tally.total.saturating_mul(others),
        filled: true,
    }
}

/// How many flat objects nodes have, or fewer than that where the number would not fit.
#[cycle(tally)]
pub fn count(fields: &[QField], items: &[Tree]) -> usize
    ensures { result ≤ length (flat_trees (to_flatten fields.now) items.now) }
{
    let mut total: usize = 0;
    for item in items {
        total = total.saturating_add(count_one(fields, item));
    }
    total
}

// The same of a node; of anything else there are none.
#[cycle(tally)]
fn count_one(fields: &[QField], item: &Tree) -> usize
    ensures { result ≤ length (flat_tree (to_flatten fields.now) item.now) }
{
    match item {
        Tree::Node(parts) => count_node(fields, parts.as_slice()),
        Tree::Int(_) | Tree::Bool(_) | Tree::Text(_) | Tree::Array(_) => 0,
    }
}

// The same of a node, by its fields.
#[cycle(tally)]
fn count_node(fields: &[QField], parts: &[Field]) -> usize
    ensures { result ≤ length (flat_fields (to_flatten fields.now) parts.now) }
{
    let mut so_far = Counted {
        tally: Tally {
            total: 1,
            filled: false,
        },
        at: 0,
    };
    for field in fields {
        so_far = count_field(field, parts, so_far);
    }
    number_of(so_far.tally)
}

// How many objects have a field.
fn number_of(tally: Tally) -> usize
    ensures { (objects : List (List Field)) → IsTally tally.total tally.filled objects → result ≤ length (filter has_pair objects) }
{
    if tally.filled { tally.total } else { 0 }
}

// The tally behind a field, if the node has it.
#[cycle(tally)]
fn count_field(field: &QField, parts: &[Field], so_far: Counted) -> Counted
    ensures { (objects : List (List Field)) → IsTally so_far.tally.total so_far.tally.filled objects → (made : List (List Field)) × (IsTally result.tally.total result.tally.filled made) × ((more : List Flattened) → after_fields (flattened field.now ∷ more) (drop so_far.at parts.now) objects ≡ after_fields more (drop result.at parts.now) made) }
{
    let Counted { tally, at } = so_far;
    if at >= parts.len() {
        return so_far;
    }
    if !is_key_of(parts[at].key.as_str(), field) {
        return so_far;
    }
    let tally = count_under(&field.item, field.alias.is_some(), &parts[at], tally);
    Counted { tally, at: at + 1 }
}

// The tally behind what stands under a field.
#[cycle(tally)]
fn count_under(item: &QItem, alias: bool, part: &Field, tally: Tally) -> Tally
    ensures { (objects : List (List Field)) → IsTally tally.total tally.filled objects → IsTally result.total result.filled ((flattened_item item.now).after alias part.now objects) }
{
    match item {
        QItem::Edge { fields, .. } => match fields {
            Some(fields) => count_below(fields.as_slice(), alias, part, tally),
            None => count_below(&[], alias, part, tally),
        },
        QItem::CountUid => tally,
        QItem::Uid | QItem::Count(_) | QItem::Val(_) | QItem::Agg { .. } => {
            behind_value(tally, alias, part)
        }
    }
}

// The tally behind an edge.
#[cycle(tally)]
fn count_below(fields: &[QField], alias: bool, part: &Field, tally: Tally) -> Tally
    ensures { (objects : List (List Field)) → IsTally tally.total tally.filled objects → IsTally result.total result.filled (after_edge (to_flatten fields.now) alias part.now objects (out-Tree part.now.tree)) }
{
    match &part.tree {
        Tree::Node(parts) => times(tally, count_node(fields, parts.as_slice())),
        Tree::Array(items) => {
            if !are_nodes(items.as_slice()) {
                return behind_value(tally, alias, part);
            }
            times(tally, count(fields, items.as_slice()))
        }
        Tree::Int(_) | Tree::Bool(_) | Tree::Text(_) => behind_value(tally, alias, part),
    }
}
