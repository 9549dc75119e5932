// The keys of fields.
ghost use Rattle.std.specs.Prelude.{◌≡◌, IfOk, IfErr};
ghost use Rattle.dg_text.specs.declared.reading.ReadError.TheVariants as errors;
ghost use Rattle.dg_parse.specs.Keys as spec;

use crate::{AggOp, QEdge, QField, QItem};
use dg_text::ReadError;
use dg_text::texts::{joined, owned};
use dg_values::Str;
use std::alloc::Global;

/// A predicate, with `~` where it is followed backwards.
pub fn key_of_edge(alloc: Global, edge: &QEdge) -> Result<Str, ReadError>
    ensures made { IfOk result (λ s. s ≡ spec.edge_text edge.now) }
    ensures memory { IfErr result (λ e. e ≡ errors.OutOfMemory) }
{
    if edge.back {
        joined(owned(alloc, "~")?, edge.pred.as_str())
    } else {
        owned(alloc, edge.pred.as_str())
    }
}

/// The key of the number of an edge's objects.
pub fn key_of_count(alloc: Global, edge: &QEdge) -> Result<Str, ReadError>
    ensures made { IfOk result (λ s. s ≡ spec.count_key edge.now) }
    ensures memory { IfErr result (λ e. e ≡ errors.OutOfMemory) }
{
    let edge = joined(key_of_edge(alloc, edge)?, ")")?;
    joined(owned(alloc, "count(")?, edge.as_str())
}

/// The key of the value of a variable.
pub fn key_of_val(alloc: Global, x: &Str) -> Result<Str, ReadError>
    ensures made { IfOk result (λ s. s ≡ spec.val_key x.now) }
    ensures memory { IfErr result (λ e. e ≡ errors.OutOfMemory) }
{
    let x = joined(owned(alloc, x.as_str())?, ")")?;
    joined(owned(alloc, "val(")?, x.as_str())
}

// The word of an aggregate.
fn aggregate_word(op: AggOp) -> &'static str
    ensures { result.now ≡ spec.aggregate_word op }
{
    match op {
        AggOp::Min => "min",
        AggOp::Max => "max",
        AggOp::Sum => "sum",
    }
}

/// The key of an aggregate of a variable.
pub fn key_of_agg(alloc: Global, op: AggOp, x: &Str) -> Result<Str, ReadError>
    ensures made { IfOk result (λ s. s ≡ spec.agg_key op x.now) }
    ensures memory { IfErr result (λ e. e ≡ errors.OutOfMemory) }
{
    let x = joined(owned(alloc, x.as_str())?, "))")?;
    let val = joined(owned(alloc, "(val(")?, x.as_str())?;
    joined(owned(alloc, aggregate_word(op))?, val.as_str())
}

// The key of an item that has no alias.
fn key_of_item(alloc: Global, item: &QItem) -> Result<Str, ReadError>
    ensures made { IfOk result (λ s. s ≡ spec.item_key item.now) }
    ensures memory { IfErr result (λ e. e ≡ errors.OutOfMemory) }
{
    match item {
        QItem::Uid => owned(alloc, "uid"),
        QItem::CountUid => owned(alloc, "count"),
        QItem::Count(edge) => key_of_count(alloc, edge),
        QItem::Val(x) => key_of_val(alloc, x),
        QItem::Agg { op, var } => key_of_agg(alloc, *op, var),
        QItem::Edge { edge, .. } => key_of_edge(alloc, edge),
    }
}

/// The key of a field: its alias, or else that of its item.
pub fn key_of(alloc: Global, field: &QField) -> Result<Str, ReadError>
    ensures made { IfOk result (λ s. s ≡ spec.key_of field.now) }
    ensures memory { IfErr result (λ e. e ≡ errors.OutOfMemory) }
{
    match &field.alias {
        Some(key) => owned(alloc, key.as_str()),
        None => key_of_item(alloc, &field.item),
    }
}
