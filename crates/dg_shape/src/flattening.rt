// The flat objects of nodes.
ghost use Rattle.std.specs.Prelude.{◌≡◌, ◌∷◌, List, IfOk, drop};
ghost use Rattle.dg_tree.specs.declared.tree.Tree.TheViews.{out-Tree};
ghost use Rattle.dg_shape.specs.Normalize.{Flattened, after_fields, flat_fields, flat_tree, flat_trees, after_edge, flattened, flattened_item, to_flatten};

use crate::flats::{Flat, one_object, times, with_pairs, with_value};
use crate::keys::is_key_of;
use crate::stripping::are_nodes;
use dg_parse::{QField, QItem};
use dg_tree::{Field, Tree};
use dg_values::{Mem, OutOfMemory};
use std::alloc::Global;

// The objects made so far, and the place of the field that stands next.
#[derive(Drop)]
struct Made<'a> {
    objects: Vec<Flat<'a>>,
    at: usize,
}

/// The flat objects of nodes, in order.
#[cycle(flatten)]
pub fn flatten<'a>(alloc: Global, fields: &[QField], items: &'a [Tree]) -> Mem<Vec<Flat<'a>>>
    ensures { IfOk result (λ v. v.items ≡ flat_trees (to_flatten fields.now) items.now) }
{
    let mut out = Vec::new(alloc);
    for item in items {
        let mut more = flatten_one(alloc, fields, item)?;
        out.append(&mut more)?;
    }
    Ok(out)
}

// The flat objects of a node; of anything else there are none.
#[cycle(flatten)]
fn flatten_one<'a>(alloc: Global, fields: &[QField], item: &'a Tree) -> Mem<Vec<Flat<'a>>>
    ensures { IfOk result (λ v. v.items ≡ flat_tree (to_flatten fields.now) item.now) }
{
    match item {
        Tree::Node(parts) => flatten_node(alloc, fields, parts.as_slice()),
        Tree::Int(_) | Tree::Bool(_) | Tree::Text(_) | Tree::Array(_) => Ok(Vec::new(alloc)),
    }
}

// The flat objects of a node, by its fields.
#[cycle(flatten)]
fn flatten_node<'a>(alloc: Global, fields: &[QField], parts: &'a [Field]) -> Mem<Vec<Flat<'a>>>
    ensures { IfOk result (λ v. v.items ≡ flat_fields (to_flatten fields.now) parts.now) }
{
    let mut made = Made {
        objects: one_object(alloc)?,
        at: 0,
    };
    for field in fields {
        made = flatten_field(alloc, field, parts, made)?;
    }
    Ok(with_pairs(made.objects))
}

// The objects behind a field, if the node has it.
#[cycle(flatten)]
fn flatten_field<'a>(
    alloc: Global,
    field: &QField,
    parts: &'a [Field],
    made: Made<'a>,
) -> Mem<Made<'a>>
    ensures { (more : List Flattened) → IfOk result (λ next. after_fields (flattened field.now ∷ more) (drop made.entry.at parts.now) made.entry.objects.items ≡ after_fields more (drop next.at parts.now) next.objects.items) }
{
    let Made { objects, at } = made;
    if at >= parts.len() {
        return Ok(Made { objects, at });
    }
    if !is_key_of(parts[at].key.as_str(), field) {
        return Ok(Made { objects, at });
    }
    let objects = flatten_under(
        alloc,
        &field.item,
        field.alias.is_some(),
        &parts[at],
        objects,
    )?;
    Ok(Made {
        objects,
        at: at + 1,
    })
}

// The objects behind what stands under a field.
#[cycle(flatten)]
fn flatten_under<'a>(
    alloc: Global,
    item: &QItem,
    alias: bool,
    part: &'a Field,
    objects: Vec<Flat<'a>>,
) -> Mem<Vec<Flat<'a>>>
    ensures { IfOk result (λ v. v.items ≡ (flattened_item item.now).after alias part.now objects.entry.items) }
{
    match item {
        QItem::Edge { fields, .. } => match fields {
            Some(fields) => flatten_below(alloc, fields.as_slice(), alias, part, objects),
            None => flatten_below(alloc, &[], alias, part, objects),
        },
        QItem::CountUid => Ok(objects),
        QItem::Uid | QItem::Count(_) | QItem::Val(_) | QItem::Agg { .. } => {
            with_value(alias, part, objects)
        }
    }
}

// The objects behind an edge.
#[cycle(flatten)]
fn flatten_below<'a>(
    alloc: Global,
    fields: &[QField],
    alias: bool,
    part: &'a Field,
    objects: Vec<Flat<'a>>,
) -> Mem<Vec<Flat<'a>>>
    ensures { IfOk result (λ v. v.items ≡ after_edge (to_flatten fields.now) alias part.now objects.entry.items (out-Tree part.now.tree)) }
{
    match &part.tree {
        Tree::Node(parts) => {
            let others = flatten_node(alloc, fields, parts.as_slice())?;
            times(alloc, objects, others.as_slice())
        }
        Tree::Array(items) => {
            if !are_nodes(items.as_slice()) {
                return with_value(alias, part, objects);
            }
            let others = flatten(alloc, fields, items.as_slice())?;
            times(alloc, objects, others.as_slice())
        }
        Tree::Int(_) | Tree::Bool(_) | Tree::Text(_) => with_value(alias, part, objects),
    }
}
