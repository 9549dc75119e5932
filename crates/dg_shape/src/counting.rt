// The objects of the numbers of nodes.
ghost use Rattle.std.specs.Prelude.{◌≡◌, ◌++◌, ◌∷◌, [], pos, IfOk, OnOk, length, flat_map, codes, unwrap_or};
ghost use Rattle.dg_tree.specs.declared.tree.Tree.TheVariants as trees;
ghost use Rattle.dg_shape.specs.Asked.{asked_by};
ghost use Rattle.dg_shape.specs.Strip.{count_object, shown_below, to_show};

use dg_parse::{QField, QItem};
use dg_tree::{Field, Tree};
use dg_values::{List, Mem, OutOfMemory, Str};
use std::alloc::Global;

// The number of trees.
fn number_of(items: &[Tree]) -> i64
    ensures { result ≡ pos (length items.now) }
{
    items.len() as i64
}

// The key of the number of nodes, by its alias if it has one.
fn count_key(alloc: Global, alias: &Option<Str>) -> Mem<Str>
    ensures { IfOk result (λ s. s ≡ unwrap_or alias.now (codes "count")) }
{
    match alias {
        Some(key) => key.copy(alloc),
        None => Str::from_str(alloc, "count"),
    }
}

// An object of one number.
fn object_of(alloc: Global, key: Str, items: &[Tree]) -> Mem<Tree>
    ensures { IfOk result (λ t. t ≡ trees.Node (record { key = key; tree = trees.Int (pos (length items.now)) } ∷ [])) }
{
    let tree = Tree::Int(number_of(items));
    let mut parts = Vec::new(alloc);
    parts.push(Field { key, tree })?;
    Ok(Tree::Node(List::from_vec(parts)))
}

// Adds the object of a field, if it asks for the number of nodes.
fn push_count(alloc: Global, out: &mut Vec<Tree>, field: &QField, items: &[Tree]) -> Mem<()>
    ensures { OnOk result (out.new.items ≡ out.old.items ++ count_object (length items.now) (asked_by shown_below field.now)) }
{
    match &field.item {
        QItem::CountUid => {
            let key = count_key(alloc, &field.alias)?;
            out.push(object_of(alloc, key, items)?)?;
            Ok(())
        }
        QItem::Uid | QItem::Count(_) | QItem::Val(_) | QItem::Agg { .. } | QItem::Edge { .. } => Ok(
            (),
        ),
    }
}

/// The objects of the fields that ask for the number of nodes of a list.
pub fn counts(alloc: Global, fields: &[QField], items: &[Tree]) -> Mem<Vec<Tree>>
    ensures { IfOk result (λ v. v.items ≡ flat_map (count_object (length items.now)) (to_show fields.now)) }
{
    let mut out = Vec::new(alloc);
    for field in fields {
        push_count(alloc, &mut out, field, items)?;
    }
    Ok(out)
}

/// An array of trees behind others.
pub fn joined(mut front: Vec<Tree>, mut items: Vec<Tree>) -> Mem<Tree>
    ensures { IfOk result (λ t. t ≡ trees.Array (front.items ++ items.items)) }
{
    if front.is_empty() {
        return Ok(Tree::Array(List::from_vec(items)));
    }
    front.append(&mut items)?;
    Ok(Tree::Array(List::from_vec(front)))
}
