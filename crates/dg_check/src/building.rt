// The parts of a plan: the tree of a query, in which what was read in the order of the text takes its place.
ghost use Rattle.std.specs.Prelude.{◌≡◌, List as Items, [], drop, flat_map, option_to_list, IfOk};
ghost use Rattle.dg_schema.specs.declared.definition.PredDef.{PredDef};
ghost use Rattle.dg_check.specs.declared.plan.Read.{Read as WasRead};
ghost use Rattle.dg_check.specs.Variables.{Definition};
ghost use Rattle.dg_check.specs.Parts.{func_in, orders_in, val_in, func_first, orders_first, val_first, asked_of_var, asked_of_root, asked_of_filter, asked_of_part, asked_of_dir, asked_of_field, asked_of_item, asked_of_block, filters_at, filters_in, IsVarOf, IsRootOf, IsFilterOf, IsPartOf, AreFiltersOf, IsItemOf, IsFieldOf, AreFieldsOf, IsBlockOf, AreBlocksOf, Takes};

use crate::adding::add_any;
use crate::parts::{Field, Filter, Func, Item, OrderKey, Part, Parts};
use crate::plan::Read;
use dg_parse::{QBlock, QDir, QField, QFilter, QFunc, QItem, QPart};
use dg_values::{List, Mem, OutOfMemory, Str};
use std::alloc::Global;
use std::collections::VecDeque;

// What was read as a function. Where it is none, which never is so, one that names no node.
fn func_in(alloc: Global, read: Read) -> Func
    ensures { result ≡ func_in read }
{
    match read {
        Read::Func(func) => func,
        Read::Orders(_) | Read::Val(_) => Func::Uid(List::new(alloc)),
    }
}

// The function that comes next.
fn next_func(alloc: Global, reads: &mut VecDeque<Read>) -> Func
    ensures first { result ≡ func_first reads.old.items }
    ensures rest { reads.new.items ≡ drop 1 reads.old.items }
{
    match reads.pop_front() {
        None => Func::Uid(List::new(alloc)),
        Some(read) => func_in(alloc, read),
    }
}

// What was read as order keys. Where it isn't, which never is so, none.
fn orders_in(alloc: Global, read: Read) -> List<OrderKey>
    ensures { result ≡ orders_in read }
{
    match read {
        Read::Orders(orders) => orders,
        Read::Func(_) | Read::Val(_) => List::new(alloc),
    }
}

// The order keys that come next.
fn next_orders(alloc: Global, reads: &mut VecDeque<Read>) -> List<OrderKey>
    ensures first { result ≡ orders_first reads.old.items }
    ensures rest { reads.new.items ≡ drop 1 reads.old.items }
{
    match reads.pop_front() {
        None => List::new(alloc),
        Some(read) => orders_in(alloc, read),
    }
}

// What was read as the place of a variable. Where it is none, which never is so, the first place.
fn val_in(read: Read) -> usize
    ensures { result ≡ val_in read }
{
    match read {
        Read::Val(place) => place,
        Read::Func(_) | Read::Orders(_) => 0,
    }
}

// The place of a variable that comes next.
fn next_val(reads: &mut VecDeque<Read>) -> usize
    ensures first { result ≡ val_first reads.old.items }
    ensures rest { reads.new.items ≡ drop 1 reads.old.items }
{
    match reads.pop_front() {
        None => 0,
        Some(read) => val_in(read),
    }
}

// A filter.
#[cycle(filter)]
fn filter_of(alloc: Global, reads: &mut VecDeque<Read>, filter: &QFilter) -> Mem<Filter>
    ensures { (schema : Items PredDef) (ds : Items Definition) (after : Items WasRead) → Takes schema ds (asked_of_filter filter.now) reads.old.items after → IfOk result (λ made. IsFilterOf schema ds filter.now made × (reads.new.items ≡ after)) }
{
    let part = part_of(alloc, reads, &filter.part)?;
    let nots = filter.nots;
    Ok(Filter { nots, part })
}

// What `not` stands before.
#[cycle(filter)]
fn part_of(alloc: Global, reads: &mut VecDeque<Read>, part: &QPart) -> Mem<Part>
    ensures { (schema : Items PredDef) (ds : Items Definition) (after : Items WasRead) → Takes schema ds (asked_of_part part.now) reads.old.items after → IfOk result (λ made. IsPartOf schema ds part.now made × (reads.new.items ≡ after)) }
{
    match part {
        QPart::Or(parts) => {
            let filters = filters_of(alloc, reads, parts.as_slice())?;
            Ok(Part::Or(filters))
        }
        QPart::And(parts) => {
            let filters = filters_of(alloc, reads, parts.as_slice())?;
            Ok(Part::And(filters))
        }
        QPart::Func(_) => Ok(Part::Func(next_func(alloc, reads))),
    }
}

// Filters, in their order.
#[cycle(filter)]
fn filters_of(alloc: Global, reads: &mut VecDeque<Read>, filters: &[QFilter]) -> Mem<List<Filter>>
    ensures { (schema : Items PredDef) (ds : Items Definition) (after : Items WasRead) → Takes schema ds (flat_map asked_of_filter filters.now) reads.old.items after → IfOk result (λ made. AreFiltersOf schema ds filters.now made × (reads.new.items ≡ after)) }
{
    let mut made = Vec::new(alloc);
    for filter in filters {
        let next = filter_of(alloc, reads, filter)?;
        made.push(next)?;
    }
    Ok(List::from_vec(made))
}

// The filter of a directive, if it is one.
fn filter_of_dir(alloc: Global, reads: &mut VecDeque<Read>, dir: &QDir) -> Mem<Option<Filter>>
    ensures { (schema : Items PredDef) (ds : Items Definition) (after : Items WasRead) → Takes schema ds (asked_of_dir dir.now) reads.old.items after → IfOk result (λ made. AreFiltersOf schema ds (filters_at dir.now) (option_to_list made) × (reads.new.items ≡ after)) }
{
    match dir {
        QDir::Filter(filter) => {
            let made = filter_of(alloc, reads, filter)?;
            Ok(Some(made))
        }
        QDir::Cascade | QDir::Normalize | QDir::Recurse(_) => Ok(None),
    }
}

// The filters of directives, in their order.
fn filters_in(alloc: Global, reads: &mut VecDeque<Read>, dirs: &[QDir]) -> Mem<List<Filter>>
    ensures { (schema : Items PredDef) (ds : Items Definition) (after : Items WasRead) → Takes schema ds (flat_map asked_of_dir dirs.now) reads.old.items after → IfOk result (λ made. AreFiltersOf schema ds (filters_in dirs.now) made × (reads.new.items ≡ after)) }
{
    let mut out = Vec::new(alloc);
    for dir in dirs {
        let next = filter_of_dir(alloc, reads, dir)?;
        add_any(&mut out, next)?;
    }
    Ok(List::from_vec(out))
}

// The place of a variable, where one is defined.
fn var_of(reads: &mut VecDeque<Read>, var: &Option<Str>) -> Option<usize>
    ensures { (schema : Items PredDef) (ds : Items Definition) (after : Items WasRead) → Takes schema ds (asked_of_var var.now) reads.old.items after → IsVarOf ds var.now result × (reads.new.items ≡ after) }
{
    match var {
        None => None,
        Some(_) => Some(next_val(reads)),
    }
}

// What is kept of what a field shows.
#[cycle(field)]
fn item_of(alloc: Global, reads: &mut VecDeque<Read>, item: &QItem) -> Mem<Item>
    ensures { (schema : Items PredDef) (ds : Items Definition) (after : Items WasRead) → Takes schema ds (asked_of_item item.now) reads.old.items after → IfOk result (λ made. IsItemOf schema ds item.now made × (reads.new.items ≡ after)) }
{
    match item {
        QItem::Uid | QItem::CountUid | QItem::Count(_) => Ok(Item::Plain),
        QItem::Val(_) | QItem::Agg { .. } => Ok(Item::Val(next_val(reads))),
        QItem::Edge { dirs, fields, .. } => {
            let orders = next_orders(alloc, reads);
            let filters = filters_in(alloc, reads, dirs.as_slice())?;
            match fields {
                None => {
                    let fields = List::new(alloc);
                    Ok(Item::Edge {
                        orders,
                        filters,
                        fields,
                    })
                }
                Some(braces) => {
                    let fields = fields_of(alloc, reads, braces.as_slice())?;
                    Ok(Item::Edge {
                        orders,
                        filters,
                        fields,
                    })
                }
            }
        }
    }
}

// What is kept of a field.
#[cycle(field)]
fn field_of(alloc: Global, reads: &mut VecDeque<Read>, field: &QField) -> Mem<Field>
    ensures { (schema : Items PredDef) (ds : Items Definition) (after : Items WasRead) → Takes schema ds (asked_of_field field.now) reads.old.items after → IfOk result (λ made. IsFieldOf schema ds field.now made × (reads.new.items ≡ after)) }
{
    let var = var_of(reads, &field.var);
    let item = item_of(alloc, reads, &field.item)?;
    Ok(Field { var, item })
}

// What is kept of fields, in their order.
#[cycle(field)]
fn fields_of(alloc: Global, reads: &mut VecDeque<Read>, fields: &[QField]) -> Mem<List<Field>>
    ensures { (schema : Items PredDef) (ds : Items Definition) (after : Items WasRead) → Takes schema ds (flat_map asked_of_field fields.now) reads.old.items after → IfOk result (λ made. AreFieldsOf schema ds fields.now made × (reads.new.items ≡ after)) }
{
    let mut out = Vec::new(alloc);
    for field in fields {
        let next = field_of(alloc, reads, field)?;
        out.push(next)?;
    }
    Ok(List::from_vec(out))
}

// The function of a root, where there is one.
fn root_of(alloc: Global, reads: &mut VecDeque<Read>, func: &Option<QFunc>) -> Option<Func>
    ensures { (schema : Items PredDef) (ds : Items Definition) (after : Items WasRead) → Takes schema ds (asked_of_root func.now) reads.old.items after → IsRootOf schema ds func.now result × (reads.new.items ≡ after) }
{
    match func {
        None => None,
        Some(_) => Some(next_func(alloc, reads)),
    }
}

// What is kept of a block.
fn block_of(alloc: Global, reads: &mut VecDeque<Read>, block: &QBlock) -> Mem<Parts>
    ensures { (schema : Items PredDef) (ds : Items Definition) (after : Items WasRead) → Takes schema ds (asked_of_block block.now) reads.old.items after → IfOk result (λ made. IsBlockOf schema ds block.now made × (reads.new.items ≡ after)) }
{
    let var = var_of(reads, &block.var);
    let root = root_of(alloc, reads, &block.func);
    let orders = next_orders(alloc, reads);
    let filters = filters_in(alloc, reads, block.dirs.as_slice())?;
    let fields = fields_of(alloc, reads, block.fields.as_slice())?;
    Ok(Parts {
        var,
        root,
        orders,
        filters,
        fields,
    })
}

/// What is kept of blocks, in their order, given all that was read of them.
pub fn parts_of(alloc: Global, blocks: &[QBlock], read: List<Read>) -> Mem<List<Parts>>
    ensures { (schema : Items PredDef) (ds : Items Definition) → Takes schema ds (flat_map asked_of_block blocks.now) read [] → IfOk result (AreBlocksOf schema ds blocks.now) }
{
    let mut reads = VecDeque::from_vec(read.into_vec());
    let mut out = Vec::new(alloc);
    for block in blocks {
        let next = block_of(alloc, &mut reads, block)?;
        out.push(next)?;
    }
    Ok(List::from_vec(out))
}
