// The keys of fields.
ghost use Rattle.std.specs.Prelude.{◌≡◌, map, IfOk, IfSome};
ghost use Rattle.dg_parse.specs.Keys.{edge_text, count_key, val_key, aggregate_word, agg_key, item_key, key_of};
ghost use Rattle.dg_tree.specs.Texts.{key_text};
ghost use Rattle.dg_level.specs.Keys.{asks_count, all_count_keys};

use dg_parse::{AggOp, QEdge, QField, QItem};
use dg_tree::{TreeFault, push_key};
use dg_values::{List, Mem, OutOfMemory, Str};
use std::alloc::Global;

// A predicate, with `~` where it is followed backwards.
fn edge_text(alloc: Global, edge: &QEdge) -> Mem<Str>
    ensures { IfOk result (λ text. text ≡ edge_text edge.now) }
{
    if edge.back {
        let pred = edge.pred.as_str();
        return Ok(Str::from_string(format!(in alloc; "~{pred}")?));
    }
    edge.pred.copy(alloc)
}

// The key of the number of an edge's objects.
fn count_key(alloc: Global, edge: &QEdge) -> Mem<Str>
    ensures { IfOk result (λ text. text ≡ count_key edge.now) }
{
    let text = edge_text(alloc, edge)?;
    let edge = text.as_str();
    Ok(Str::from_string(format!(in alloc; "count({edge})")?))
}

// The key of the value of a variable.
fn val_key(alloc: Global, x: &str) -> Mem<Str>
    ensures { IfOk result (λ text. text ≡ val_key x.now) }
{
    Ok(Str::from_string(format!(in alloc; "val({x})")?))
}

// The word of an aggregate.
fn aggregate_word(op: AggOp) -> &'static str
    ensures { result.now ≡ aggregate_word op }
{
    match op {
        AggOp::Min => "min",
        AggOp::Max => "max",
        AggOp::Sum => "sum",
    }
}

// The key of an aggregate of a variable.
fn agg_key(alloc: Global, op: AggOp, x: &str) -> Mem<Str>
    ensures { IfOk result (λ text. text ≡ agg_key op x.now) }
{
    let word = aggregate_word(op);
    Ok(Str::from_string(format!(in alloc; "{word}(val({x}))")?))
}

// The key of an item that has no alias.
fn item_key(alloc: Global, item: &QItem) -> Mem<Str>
    ensures { IfOk result (λ text. text ≡ item_key item.now) }
{
    match item {
        QItem::Uid => Str::from_str(alloc, "uid"),
        QItem::CountUid => Str::from_str(alloc, "count"),
        QItem::Count(edge) => count_key(alloc, edge),
        QItem::Val(x) => val_key(alloc, x.as_str()),
        QItem::Agg { op, var } => agg_key(alloc, *op, var.as_str()),
        QItem::Edge { edge, .. } => edge_text(alloc, edge),
    }
}

/// The key of a field. The error is want of memory.
pub fn key_of(alloc: Global, field: &QField) -> Mem<Str>
    ensures { IfOk result (λ text. text ≡ key_of field.now) }
{
    match &field.alias {
        Some(alias) => alias.copy(alloc),
        None => item_key(alloc, &field.item),
    }
}

// The key of an item without an alias, where it is a predicate.
fn pred_key(item: &QItem) -> Option<&str>
    ensures { IfSome result (λ key. key.now ≡ item_key item.now) }
{
    match item {
        QItem::Edge { edge, .. } if !edge.back => Some(edge.pred.as_str()),
        _ => None,
    }
}

// The key of a field, where it is an alias or a predicate. It takes no memory.
fn plain_key(field: &QField) -> Option<&str>
    ensures { IfSome result (λ key. key.now ≡ key_of field.now) }
{
    match &field.alias {
        Some(alias) => Some(alias.as_str()),
        None => pred_key(&field.item),
    }
}

// The text of a key. One of more bytes than a number counts can't be had: that is want of memory.
fn text_of(alloc: Global, key: &str) -> Mem<Str>
    ensures { IfOk result (λ text. text ≡ key_text key.now) }
{
    let room = key.len().saturating_add(3);
    let mut text = Str::from_string(String::with_capacity(alloc, room)?);
    match push_key(alloc, &mut text, usize::MAX, key) {
        Ok(()) => Ok(text),
        Err(TreeFault::OutOfMemory) => Err(OutOfMemory),
        Err(TreeFault::TooLarge) => Err(OutOfMemory),
    }
}

/// The text of the key of a field, with its colon. The error is want of memory.
pub fn key_text(alloc: Global, field: &QField) -> Mem<Str>
    ensures { IfOk result (λ text. text ≡ key_text (key_of field.now)) }
{
    match plain_key(field) {
        Some(key) => text_of(alloc, key),
        None => text_of(alloc, key_of(alloc, field)?.as_str()),
    }
}

// Whether a field asks for the number of nodes of its list.
fn asks_count(field: &QField) -> bool
    ensures { result ≡ asks_count field.now }
{
    match &field.item {
        QItem::CountUid => true,
        QItem::Uid | QItem::Count(_) | QItem::Val(_) | QItem::Agg { .. } | QItem::Edge { .. } => {
            false
        }
    }
}

/// The texts of the keys under which fields ask for the number of nodes of their list. The error is want of memory.
pub fn counts_of(alloc: Global, fields: &[QField]) -> Mem<List<Str>>
    ensures { IfOk result (λ texts. texts ≡ map key_text (all_count_keys fields.now)) }
{
    let mut texts = List::new(alloc);
    for field in fields {
        if asks_count(field) {
            texts.push(key_text(alloc, field)?)?;
        }
    }
    Ok(texts)
}
