// The places of a query, in the order of its text.
ghost use Rattle.std.specs.Prelude.{◌≡◌, ◌++◌, [], ◌∷◌, OnOk, IfOk, flat_map};
ghost use Rattle.dg_check.specs.Places.{places_met, place_met, source_met, places_of_part, places_of_filter, places_of_dir, place_of_var, walked_item, places_of_field, place_of_root, places_of_block, places_of_query, source_of_item};

use dg_parse::{
    AggOp, QArg, QBlock, QDir, QEdge, QField, QFilter, QFunc, QItem, QOpt, QPart, Query,
};
use dg_values::{Mem, OutOfMemory, Str};
use std::alloc::Global;

/// What a variable stands for.
#[derive(Clone, Copy)]
pub enum Source<'a> {
    /// The nodes of a list.
    Listed,
    /// The number of objects that each node of a list has along an edge.
    Counted(&'a QEdge),
    /// What an edge leads to, nodes or values.
    Followed(&'a QEdge),
}

/// A place of a query at which something can be wrong.
#[derive(Clone, Copy)]
pub enum Place<'a> {
    /// A variable is defined.
    Defined(&'a Str, Source<'a>),
    /// The function of a root.
    Root(&'a QFunc),
    /// A function in a filter.
    Tested(&'a QFunc),
    /// The arguments of a list.
    Arguments(&'a [QArg]),
    /// The options of a recursion.
    Recursion(&'a [QOpt]),
    /// An edge that is followed or counted.
    Edge(&'a QEdge),
    /// The value of a variable is shown.
    Shown(&'a Str),
    /// A variable is aggregated.
    Aggregated(AggOp, &'a Str),
}

// Adds one place.
fn add<'a>(out: &mut Vec<Place<'a>>, place: Place<'a>) -> Mem<()>
    ensures { OnOk result (places_met out.new.items ≡ places_met out.old.items ++ place_met place.entry ∷ []) }
{
    Ok(out.push(place)?)
}

// Adds the places of a filter.
#[cycle(filter)]
fn add_filter<'a>(out: &mut Vec<Place<'a>>, filter: &'a QFilter) -> Mem<()>
    ensures { OnOk result (places_met out.new.items ≡ places_met out.old.items ++ places_of_filter filter.now) }
{
    add_part(out, &filter.part)
}

// Adds the places of a filter's part, before which `not` may stand.
#[cycle(filter)]
fn add_part<'a>(out: &mut Vec<Place<'a>>, part: &'a QPart) -> Mem<()>
    ensures { OnOk result (places_met out.new.items ≡ places_met out.old.items ++ places_of_part part.now) }
{
    match part {
        QPart::Or(parts) => add_filters(out, parts.as_slice()),
        QPart::And(parts) => add_filters(out, parts.as_slice()),
        QPart::Func(func) => add(out, Place::Tested(func)),
    }
}

// Adds the places of filters.
#[cycle(filter)]
fn add_filters<'a>(out: &mut Vec<Place<'a>>, filters: &'a [QFilter]) -> Mem<()>
    ensures { OnOk result (places_met out.new.items ≡ places_met out.old.items ++ flat_map places_of_filter filters.now) }
{
    for filter in filters {
        add_filter(out, filter)?;
    }
    Ok(())
}

// Adds the places of a directive.
fn add_dir<'a>(out: &mut Vec<Place<'a>>, dir: &'a QDir) -> Mem<()>
    ensures { OnOk result (places_met out.new.items ≡ places_met out.old.items ++ places_of_dir dir.now) }
{
    match dir {
        QDir::Filter(filter) => add_filter(out, filter),
        QDir::Cascade | QDir::Normalize => Ok(()),
        QDir::Recurse(options) => add(out, Place::Recursion(options.as_slice())),
    }
}

// Adds the places of directives.
fn add_dirs<'a>(out: &mut Vec<Place<'a>>, dirs: &'a [QDir]) -> Mem<()>
    ensures { OnOk result (places_met out.new.items ≡ places_met out.old.items ++ flat_map places_of_dir dirs.now) }
{
    for dir in dirs {
        add_dir(out, dir)?;
    }
    Ok(())
}

// Adds the `as` of a variable, where there is one.
fn add_var<'a>(out: &mut Vec<Place<'a>>, var: &'a Option<Str>, source: Source<'a>) -> Mem<()>
    ensures { OnOk result (places_met out.new.items ≡ places_met out.old.items ++ place_of_var var.now (source_met source.entry)) }
{
    match var {
        None => Ok(()),
        Some(name) => add(out, Place::Defined(name, source)),
    }
}

// What a variable before an item stands for.
fn source_of<'a>(item: &'a QItem) -> Source<'a>
    ensures { source_met result ≡ source_of_item item.now }
{
    match item {
        QItem::Count(edge) => Source::Counted(edge),
        QItem::Edge { edge, .. } => Source::Followed(edge),
        QItem::Uid | QItem::CountUid | QItem::Val(_) | QItem::Agg { .. } => Source::Listed,
    }
}

// Adds the places of a field.
#[cycle(field)]
fn add_field<'a>(out: &mut Vec<Place<'a>>, field: &'a QField) -> Mem<()>
    ensures { OnOk result (places_met out.new.items ≡ places_met out.old.items ++ places_of_field field.now) }
{
    add_var(out, &field.var, source_of(&field.item))?;
    add_item(out, &field.item)
}

// Adds the places of an item.
#[cycle(field)]
fn add_item<'a>(out: &mut Vec<Place<'a>>, item: &'a QItem) -> Mem<()>
    ensures { OnOk result (places_met out.new.items ≡ places_met out.old.items ++ (walked_item item.now).places) }
{
    match item {
        QItem::Uid | QItem::CountUid => Ok(()),
        QItem::Count(edge) => add(out, Place::Edge(edge)),
        QItem::Val(var) => add(out, Place::Shown(var)),
        QItem::Agg { op, var } => add(out, Place::Aggregated(*op, var)),
        QItem::Edge {
            edge,
            args,
            dirs,
            fields,
        } => {
            add(out, Place::Edge(edge))?;
            add(out, Place::Arguments(args.as_slice()))?;
            add_dirs(out, dirs.as_slice())?;
            match fields {
                None => Ok(()),
                Some(fields) => add_fields(out, fields.as_slice()),
            }
        }
    }
}

// Adds the places of fields.
#[cycle(field)]
fn add_fields<'a>(out: &mut Vec<Place<'a>>, fields: &'a [QField]) -> Mem<()>
    ensures { OnOk result (places_met out.new.items ≡ places_met out.old.items ++ flat_map places_of_field fields.now) }
{
    for field in fields {
        add_field(out, field)?;
    }
    Ok(())
}

// Adds the function of a root, where there is one.
fn add_root<'a>(out: &mut Vec<Place<'a>>, func: &'a Option<QFunc>) -> Mem<()>
    ensures { OnOk result (places_met out.new.items ≡ places_met out.old.items ++ place_of_root func.now) }
{
    match func {
        None => Ok(()),
        Some(func) => add(out, Place::Root(func)),
    }
}

/// Adds the places of a block, in the order of its text.
pub fn add_block<'a>(out: &mut Vec<Place<'a>>, block: &'a QBlock) -> Mem<()>
    ensures { OnOk result (places_met out.new.items ≡ places_met out.old.items ++ places_of_block block.now) }
{
    add_var(out, &block.var, Source::Listed)?;
    add_root(out, &block.func)?;
    add(out, Place::Arguments(block.args.as_slice()))?;
    add_dirs(out, block.dirs.as_slice())?;
    add_fields(out, block.fields.as_slice())
}

/// The places of a block, in the order of its text.
pub fn places_of_block<'a>(alloc: Global, block: &'a QBlock) -> Mem<Vec<Place<'a>>>
    ensures { IfOk result (λ places. places_met places.items ≡ places_of_block block.now) }
{
    let mut places = Vec::new(alloc);
    add_block(&mut places, block)?;
    Ok(places)
}

/// The places of a query, in the order of its text.
pub fn places_of<'a>(alloc: Global, query: &'a Query) -> Mem<Vec<Place<'a>>>
    ensures { IfOk result (λ places. places_met places.items ≡ places_of_query query.now) }
{
    let mut places = Vec::new(alloc);
    for block in query.blocks.as_slice() {
        add_block(&mut places, block)?;
    }
    Ok(places)
}
