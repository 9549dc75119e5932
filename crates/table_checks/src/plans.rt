// Plans: in which order the blocks of a query run, and what is read of its functions.
ghost use Rattle.std.specs.Prelude.{◌≤◌, length};

use crate::answers::fault_text;
use dg_check::{
    CheckFault, Field, Filter, Func, Item, Part, Plan, RegexPatterns, check, check_upsert,
};
use dg_parse::{parse, parse_upsert};
use dg_schema::Schema;
use dg_values::{Kind, Mem, OutOfMemory, Str, Value, write_value};
use std::alloc::Global;
use std::fmt::Write;

// The plan of a query, or what is wrong with it.
pub(crate) fn plan(alloc: Global, schema: &Schema, text: &str) -> Mem<Option<String>>
    requires { length text.now ≤ 1048576 }
{
    match parse(alloc, text) {
        Ok(query) => {
            let mut maker = RegexPatterns::new(alloc);
            let made = check(alloc, query, schema, &mut maker);
            Ok(Some(outcome(alloc, &made)?))
        }
        Err(fault) => Ok(Some(fault.to_string(alloc)?)),
    }
}

// The plan of an upsert block's query and how many mutations it has, or what is wrong with it.
pub(crate) fn upsert_plan(alloc: Global, schema: &Schema, text: &str) -> Mem<Option<String>>
    requires { length text.now ≤ 1048576 }
{
    match parse_upsert(alloc, text) {
        Ok(upsert) => {
            let mut maker = RegexPatterns::new(alloc);
            match check_upsert(alloc, upsert, schema, &mut maker) {
                Ok((plan, blocks)) => {
                    let mut out = plan_text(alloc, &plan)?;
                    let count = blocks.mutations.len();
                    write!(out, " | {count} mutations")?;
                    Ok(Some(out))
                }
                Err(fault) => Ok(Some(fault_text(alloc, &fault)?)),
            }
        }
        Err(fault) => Ok(Some(fault.to_string(alloc)?)),
    }
}

// A plan or a fault.
fn outcome(alloc: Global, made: &Result<Plan, CheckFault>) -> Mem<String> {
    match made {
        Ok(plan) => plan_text(alloc, plan),
        Err(fault) => fault_text(alloc, fault),
    }
}

// The places of blocks, and behind a bar for each function what is read of it, in the order of the text.
fn plan_text(alloc: Global, plan: &Plan) -> Mem<String> {
    let mut out = String::from_str(alloc, "ok")?;
    for place in plan.order.as_slice() {
        write!(out, " {place}")?;
    }
    for block in plan.parts.as_slice() {
        add_root(alloc, &mut out, &block.root)?;
        add_filters(alloc, &mut out, block.filters.as_slice())?;
        add_fields(alloc, &mut out, block.fields.as_slice())?;
    }
    Ok(out)
}

// Adds what is read of a root, where there is one.
fn add_root(alloc: Global, out: &mut String, root: &Option<Func>) -> Mem<()> {
    match root {
        None => Ok(()),
        Some(func) => add_func(alloc, out, func),
    }
}

// Adds what is read of the functions of filters.
#[cycle(filter)]
fn add_filters(alloc: Global, out: &mut String, filters: &[Filter]) -> Mem<()> {
    for filter in filters {
        add_part(alloc, out, &filter.part)?;
    }
    Ok(())
}

// Adds what is read of the functions of a filter's part.
#[cycle(filter)]
fn add_part(alloc: Global, out: &mut String, part: &Part) -> Mem<()> {
    match part {
        Part::Or(parts) => add_filters(alloc, out, parts.as_slice()),
        Part::And(parts) => add_filters(alloc, out, parts.as_slice()),
        Part::Func(func) => add_func(alloc, out, func),
    }
}

// Adds what is read of the functions of fields.
#[cycle(field)]
fn add_fields(alloc: Global, out: &mut String, fields: &[Field]) -> Mem<()> {
    for field in fields {
        add_item(alloc, out, &field.item)?;
    }
    Ok(())
}

// Adds what is read of the functions of an item.
#[cycle(field)]
fn add_item(alloc: Global, out: &mut String, item: &Item) -> Mem<()> {
    match item {
        Item::Plain | Item::Val(_) => Ok(()),
        Item::Edge {
            filters,
            fields,
            ..
        } => {
            add_filters(alloc, out, filters.as_slice())?;
            add_fields(alloc, out, fields.as_slice())
        }
    }
}

// Adds what is read of a function.
fn add_func(alloc: Global, out: &mut String, func: &Func) -> Mem<()> {
    match func {
        Func::Uid(_) | Func::Has(_) | Func::Terms { .. } | Func::UidIn { .. } => {
            Ok(write!(out, " | -")?)
        }
        Func::Regexp { .. } => Ok(write!(out, " | pattern")?),
        Func::Cmp { kind, values, .. } => {
            write!(out, " |")?;
            add_values(alloc, out, *kind, values.as_slice())
        }
        Func::Between { kind, values, .. } => {
            write!(out, " |")?;
            add_values(alloc, out, *kind, values.as_slice())
        }
    }
}

// Adds a kind and values.
pub(crate) fn add_values(
    alloc: Global,
    out: &mut String,
    kind: Option<Kind>,
    values: &[Value],
) -> Mem<()> {
    let word = kind_word(kind);
    write!(out, " {word}")?;
    for value in values {
        add_value(alloc, out, value)?;
    }
    Ok(())
}

// Adds the text of a value in quotes.
fn add_value(alloc: Global, out: &mut String, value: &Value) -> Mem<()> {
    let mut text = Str::from_str(alloc, "")?;
    write_value(alloc, &mut text, value)?;
    write!(out, " '{text}'")?;
    Ok(())
}

// The word of a kind; `none` where there is none.
fn kind_word(kind: Option<Kind>) -> &'static str {
    match kind {
        None => "none",
        Some(Kind::Default) => "default",
        Some(Kind::Int) => "int",
        Some(Kind::Text) => "string",
        Some(Kind::Bool) => "bool",
        Some(Kind::Time) => "dateTime",
        Some(Kind::Uid) => "uid",
    }
}
