// What blocks without a function show: the least and the greatest value of a variable, and the sum of its numbers.
ghost use Rattle.std.specs.Prelude.{◌≡◌, ℕ, ◌<◌, ◌≤◌, ◌++◌, ◌∷◌, [], true, false, List, Some, length, map, flat_map, codes, option_copied, option_to_list, IfOk, OnOk, IsErrOf};
ghost use Rattle.std.specs.Fmt.{signed_decimal};
ghost use Rattle.dg_values.specs.declared.value.Value.{Value};
ghost use Rattle.dg_schema.specs.declared.definition.PredDef.{PredDef};
ghost use Rattle.dg_parse.specs.Keys.{key_of};
ghost use Rattle.dg_parse.specs.declared.query.AggOp.TheVariants as ops;
ghost use Rattle.dg_parse.specs.declared.query.QItem.TheViews.{out-QItem};
ghost use Rattle.dg_check.specs.declared.parts.Item.TheViews.{out-Item};
ghost use Rattle.dg_check.specs.Parts.{AreFieldsOf, AreBlocksOf};
ghost use Rattle.dg_check.specs.Variables.{Definition};
ghost use Rattle.dg_tree.specs.Texts.{tree_text};
ghost use Rattle.dg_tree.specs.declared.tree.Tree.TheVariants as trees;
ghost use Rattle.dg_level.specs.Aggregates.{is_beyond, aggregate, aggregates_shown, fields_beyond, sums_beyond};
ghost use Rattle.dg_level.specs.Folded.{found_in};
ghost use Rattle.dg_level.specs.Meaning.{first_name};
ghost use Rattle.dg_level.specs.Parts.{parts_text, has_parts};
ghost use Rattle.dg_level.specs.PlannedAggregates.{text_where, object_where, aggregate_kept, objects_with, objects_by, is_sum_beyond, beyond_by};

use crate::answers::value_tree;
use crate::arrays::comma_behind;
use crate::folds::{Folds, Found};
use crate::keys::key_of;
use dg_check::{Field, Item, Parts};
use dg_parse::{AggOp, QBlock, QField, QItem};
use dg_tree::{AnswerText, TreeFault};
use dg_values::{Mem, OutOfMemory, Str, Value};
use std::alloc::Global;

/// One value of all that a variable has.
#[derive(Clone, Copy, Debug)]
pub struct Aggregate {
    /// Which value.
    pub op: AggOp,
    /// The place of the variable among those of the plan.
    pub place: usize,
}

// Whether a sum is no number of 64 bits.
fn is_beyond(sum: i128) -> bool
    ensures { result ≡ is_beyond sum }
{
    sum < i128::from(i64::MIN) || sum > i128::from(i64::MAX)
}

// Adds a value, where there is one.
fn push_value(alloc: Global, out: &mut AnswerText, value: Option<&Value>) -> Result<(), TreeFault>
    ensures ok { OnOk result (out.new ≡ out.old ++ text_where (option_copied value.entry)) }
    ensures too_large { IsErrOf result TreeFault.TooLarge → 16777216 < length (out.old ++ text_where (option_copied value.entry)) }
{
    match value {
        None => Ok(()),
        Some(value) => {
            let tree = value_tree(alloc, value.copy(alloc)?)?;
            out.tree(&tree)
        }
    }
}

// The digits of the sum that was found, of whatever size it is.
fn sum_digits(alloc: Global, found: &Found) -> Mem<Str>
    ensures { IfOk result (λ text. text ≡ signed_decimal found.now.sum) }
{
    Ok(Str::from_string(found.sum.to_string(alloc)?))
}

// Adds the sum that was found.
fn push_sum(alloc: Global, out: &mut AnswerText, found: &Found) -> Result<(), TreeFault>
    ensures ok { OnOk result (out.new ≡ out.old ++ signed_decimal found.now.sum) }
    ensures too_large { IsErrOf result TreeFault.TooLarge → 16777216 < length (out.old ++ signed_decimal found.now.sum) }
{
    out.mark(sum_digits(alloc, found)?.as_str())
}

// Adds what an aggregate gives of values.
fn push_found(
    alloc: Global,
    out: &mut AnswerText,
    op: AggOp,
    found: &Found,
) -> Result<(), TreeFault>
    ensures ok { (values : List Value) → 0 < length values → found.now ≡ found_in values → OnOk result (out.new ≡ out.old ++ text_where (aggregate op values)) }
    ensures too_large { (values : List Value) → 0 < length values → found.now ≡ found_in values → IsErrOf result TreeFault.TooLarge → 16777216 < length (out.old ++ text_where (aggregate op values)) }
{
    match op {
        AggOp::Min => push_value(alloc, out, found.least.as_ref()),
        AggOp::Max => push_value(alloc, out, found.greatest.as_ref()),
        AggOp::Sum => push_sum(alloc, out, found),
    }
}

// Adds the object of what an aggregate gives of values, under a key.
fn push_object(
    alloc: Global,
    out: &mut AnswerText,
    key: &str,
    op: AggOp,
    found: &Found,
) -> Result<(), TreeFault>
    ensures ok { (values : List Value) → 0 < length values → found.now ≡ found_in values → OnOk result (out.new ≡ out.old ++ object_where key.now (aggregate op values)) }
    ensures too_large { (values : List Value) → 0 < length values → found.now ≡ found_in values → IsErrOf result TreeFault.TooLarge → 16777216 < length (out.old ++ object_where key.now (aggregate op values)) }
{
    out.mark("{")?;
    out.key(key)?;
    push_found(alloc, out, op, found)?;
    out.mark("}")
}

// Adds the object of a field that is an aggregate, where there are values. It answers whether a part stands there then.
fn push_aggregate(
    alloc: Global,
    out: &mut AnswerText,
    wrote: bool,
    field: &QField,
    op: AggOp,
    found: &Found,
) -> Result<bool, TreeFault>
    ensures ok { (values : List Value) → found.now ≡ found_in values → OnOk result (out.new ≡ out.old ++ parts_text wrote (map tree_text (objects_with (key_of field.now) (aggregate op values)))) }
    ensures wrote { (values : List Value) → found.now ≡ found_in values → IfOk result (λ w. w ≡ has_parts wrote (map tree_text (objects_with (key_of field.now) (aggregate op values)))) }
    ensures too_large { (values : List Value) → found.now ≡ found_in values → IsErrOf result TreeFault.TooLarge → 16777216 < length (out.old ++ parts_text wrote (map tree_text (objects_with (key_of field.now) (aggregate op values)))) }
{
    if found.least.is_none() {
        return Ok(wrote);
    }
    let key = key_of(alloc, field)?;
    out.mark(comma_behind(wrote))?;
    push_object(alloc, out, key.as_str(), op, found)?;
    Ok(true)
}

// The aggregate that an item is, if it is one.
fn aggregate_of(item: &QItem, kept: &Item) -> Option<Aggregate>
    ensures { result ≡ aggregate_kept (out-QItem item.now) (out-Item kept.now) }
{
    match item {
        QItem::Agg { op, .. } => match kept {
            Item::Val(place) => {
                let (op, place) = (*op, *place);
                Some(Aggregate { op, place })
            }
            Item::Plain | Item::Edge { .. } => None,
        },
        QItem::Uid | QItem::CountUid | QItem::Count(_) | QItem::Val(_) | QItem::Edge { .. } => None,
    }
}

// Adds the object of a field, where it is an aggregate and its variable has a value. It answers whether a part stands there then.
fn push_field(
    alloc: Global,
    out: &mut AnswerText,
    wrote: bool,
    field: &QField,
    kept: &Field,
    folds: &Folds,
) -> Result<bool, TreeFault>
    ensures ok { OnOk result (out.new ≡ out.old ++ parts_text wrote (map tree_text (objects_by folds.now (key_of field.now) (aggregate_kept (out-QItem field.now.item) (out-Item kept.now.item))))) }
    ensures wrote { IfOk result (λ w. w ≡ has_parts wrote (map tree_text (objects_by folds.now (key_of field.now) (aggregate_kept (out-QItem field.now.item) (out-Item kept.now.item))))) }
    ensures too_large { IsErrOf result TreeFault.TooLarge → 16777216 < length (out.old ++ parts_text wrote (map tree_text (objects_by folds.now (key_of field.now) (aggregate_kept (out-QItem field.now.item) (out-Item kept.now.item))))) }
{
    match aggregate_of(&field.item, &kept.item) {
        None => Ok(wrote),
        Some(aggregate) => match folds.at(aggregate.place) {
            None => Ok(wrote),
            Some(found) => push_aggregate(alloc, out, wrote, field, aggregate.op, found),
        },
    }
}

// Adds the objects of fields, with commas between them.
fn push_objects(
    alloc: Global,
    out: &mut AnswerText,
    fields: &[QField],
    kept: &[Field],
    folds: &Folds,
) -> Result<(), TreeFault>
    ensures ok { (schema : List PredDef) (ds : List Definition) → AreFieldsOf schema ds fields.now kept.now
        → OnOk result (out.new ≡ out.old ++ parts_text false (map tree_text (aggregates_shown ds folds.now fields.now))) }
    ensures too_large { (schema : List PredDef) (ds : List Definition) → AreFieldsOf schema ds fields.now kept.now
        → IsErrOf result TreeFault.TooLarge → 16777216 < length (out.old ++ parts_text false (map tree_text (aggregates_shown ds folds.now fields.now))) }
{
    let mut wrote = false;
    for (place, field) in fields.iter().enumerate() {
        if place >= kept.len() {
            return Ok(());
        }
        wrote = push_field(alloc, out, wrote, field, &kept[place], folds)?;
    }
    Ok(())
}

/// Adds the array of what the fields of a block without a function show: the object of each aggregate whose variable has a value.
///
/// # Errors
///
/// `TooLarge` only where the text passes its limit with the array, and else `OutOfMemory` for want of memory.
pub fn push_aggregates(
    alloc: Global,
    out: &mut AnswerText,
    fields: &[QField],
    kept: &[Field],
    folds: &Folds,
) -> Result<(), TreeFault>
    ensures ok { (schema : List PredDef) (ds : List Definition) → AreFieldsOf schema ds fields.now kept.now
        → OnOk result (out.new ≡ out.old ++ tree_text (trees.Array (aggregates_shown ds folds.now fields.now))) }
    ensures too_large { (schema : List PredDef) (ds : List Definition) → AreFieldsOf schema ds fields.now kept.now
        → IsErrOf result TreeFault.TooLarge → 16777216 < length (out.old ++ tree_text (trees.Array (aggregates_shown ds folds.now fields.now))) }
{
    out.mark("[")?;
    push_objects(alloc, out, fields, kept, folds)?;
    out.mark("]")
}

// Whether the sum of the numbers of a variable is no number of 64 bits.
fn is_sum_beyond(kept: &Item, folds: &Folds) -> bool
    ensures { result ≡ is_sum_beyond folds.now (out-Item kept.now) }
{
    match kept {
        Item::Val(place) => match folds.at(*place) {
            None => false,
            Some(found) => is_beyond(found.sum),
        },
        Item::Plain | Item::Edge { .. } => false,
    }
}

// The variable of a field, where its sum is no number of 64 bits.
fn beyond_in_field<'a>(field: &'a QField, kept: &Field, folds: &Folds) -> Option<&'a Str>
    ensures { option_copied result ≡ first_name (beyond_by folds.now (out-QItem field.now.item) (out-Item kept.now.item)) }
{
    match &field.item {
        QItem::Agg { op, var } => match op {
            AggOp::Sum => {
                if is_sum_beyond(&kept.item, folds) {
                    return Some(var);
                }
                None
            }
            AggOp::Min | AggOp::Max => None,
        },
        QItem::Uid | QItem::CountUid | QItem::Count(_) | QItem::Val(_) | QItem::Edge { .. } => None,
    }
}

// The variable of the first of fields whose sum is no number of 64 bits.
fn beyond_in_fields<'a>(fields: &'a [QField], kept: &[Field], folds: &Folds) -> Option<&'a Str>
    ensures { (schema : List PredDef) (ds : List Definition) → AreFieldsOf schema ds fields.now kept.now
        → option_copied result ≡ first_name (fields_beyond ds folds.now fields.now) }
{
    for (place, field) in fields.iter().enumerate() {
        if place >= kept.len() {
            return None;
        }
        let found = beyond_in_field(field, &kept[place], folds);
        if found.is_some() {
            return found;
        }
    }
    None
}

/// The variable of the first sum of the text that is no number of 64 bits, also in blocks that aren't shown.
pub fn sum_beyond<'a>(blocks: &'a [QBlock], kept: &[Parts], folds: &Folds) -> Option<&'a Str>
    ensures { (schema : List PredDef) (ds : List Definition) → AreBlocksOf schema ds blocks.now kept.now
        → option_copied result ≡ first_name (sums_beyond ds folds.now blocks.now) }
{
    for (at, block) in blocks.iter().enumerate() {
        if at >= kept.len() {
            return None;
        }
        let fields = block.fields.as_slice();
        let found = beyond_in_fields(fields, kept[at].fields.as_slice(), folds);
        if found.is_some() {
            return found;
        }
    }
    None
}
