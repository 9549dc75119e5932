// What is read of schemas, printed of them, looked up in them, and made of two of them.
ghost use Rattle.std.specs.Prelude.{◌≤◌, length};

use crate::MOST;
use crate::pictures::{pictured, plain};
use dg_schema::{PredDef, Schema, SchemaFault, read_schema};
use dg_values::{Mem, OutOfMemory};
use std::alloc::Global;
use std::fmt::Write;
use std::mem;

// The schema that calls are made on, and one that was laid aside.
#[derive(Drop)]
pub(crate) struct Held {
    schema: Schema,
    aside: Schema,
}

impl Held {
    // Nothing is declared in either.
    pub(crate) fn new(alloc: Global) -> Held {
        Held {
            schema: Schema::new(alloc),
            aside: Schema::new(alloc),
        }
    }
}

// The definitions of a text in its order, or the line of its fault.
pub(crate) fn definitions(alloc: Global, text: &str) -> Mem<Option<String>>
    requires { length text.now ≤ 1048576 }
{
    match read_schema(alloc, text) {
        Ok(schema) => declared(alloc, &schema),
        Err(fault) => refused(alloc, fault),
    }
}

// What is printed of the definitions of a text.
pub(crate) fn printed(alloc: Global, text: &str) -> Mem<Option<String>>
    requires { length text.now ≤ 1048576 }
{
    match read_schema(alloc, text) {
        Ok(schema) => lines_of(alloc, &schema),
        Err(fault) => refused(alloc, fault),
    }
}

// What a call answers on the schema that is held. The fields are the call and what it is called with.
pub(crate) fn call(alloc: Global, held: &mut Held, fields: &str) -> Mem<Option<String>> {
    let (name, argument) = fields.split_once('\t').unwrap_or((fields, ""));
    match name {
        "lookup" => lookup(alloc, &held.schema, argument),
        "lookup aside" => lookup(alloc, &held.aside, argument),
        "text_of" => lines_of(alloc, &held.schema),
        _ => {
            if change(alloc, held, name, argument)? {
                declared(alloc, &held.schema)
            } else {
                Ok(None)
            }
        }
    }
}

// Whether the call could be made, which puts another schema in the place of the one that is held.
fn change(alloc: Global, held: &mut Held, name: &str, argument: &str) -> Mem<bool> {
    match name {
        "new" => held.schema = Schema::new(alloc),
        "copy" => held.schema = held.schema.copy()?,
        "with" => {
            let Some(newer) = schema_of(alloc, argument)? else {
                return Ok(false);
            };
            held.schema = held.schema.with(&newer)?;
        }
        "single" => {
            let Some(single) = single_of(alloc, argument)? else {
                return Ok(false);
            };
            held.schema = single;
        }
        "lay aside" => held.aside = mem::replace(&mut held.schema, Schema::new(alloc)),
        "put on aside" => held.schema = held.aside.with(&held.schema)?,
        _ => return Ok(false),
    }
    Ok(true)
}

// The schema of a field, where it is one.
fn schema_of(alloc: Global, field: &str) -> Mem<Option<Schema>> {
    let text = plain(alloc, field)?;
    read(alloc, text.as_str())
}

// The first line that is printed of a field's schema, read by itself.
fn single_of(alloc: Global, field: &str) -> Mem<Option<Schema>> {
    let Some(schema) = schema_of(alloc, field)? else {
        return Ok(None);
    };
    let text = schema.text_of()?;
    match text.split_once('\n') {
        None => Ok(None),
        Some((line, _)) => read(alloc, line),
    }
}

// The schema of a text, where it is one.
fn read(alloc: Global, text: &str) -> Mem<Option<Schema>> {
    if text.len() > MOST {
        return Ok(None);
    }
    match read_schema(alloc, text) {
        Ok(schema) => Ok(Some(schema)),
        Err(SchemaFault::SchemaSyntax { .. }) => Ok(None),
        Err(SchemaFault::OutOfMemory) => Err(OutOfMemory),
    }
}

fn lookup(alloc: Global, schema: &Schema, name: &str) -> Mem<Option<String>> {
    match schema.lookup(name) {
        None => Ok(Some(String::from_str(alloc, "none")?)),
        Some(definition) => Ok(Some(definition_text(alloc, definition)?)),
    }
}

fn refused(alloc: Global, fault: SchemaFault) -> Mem<Option<String>> {
    Ok(Some(fault.to_string(alloc)?))
}

fn lines_of(alloc: Global, schema: &Schema) -> Mem<Option<String>> {
    let text = schema.text_of()?;
    if text.is_empty() {
        return Ok(Some(String::from_str(alloc, "nothing")?));
    }
    Ok(Some(pictured(alloc, text.as_str())?))
}

// The definitions in the order in which they were declared.
fn declared(alloc: Global, schema: &Schema) -> Mem<Option<String>> {
    let mut list = String::new(alloc);
    for definition in schema.definitions() {
        let text = definition_text(alloc, definition)?;
        write!(list, "{text};")?;
    }
    if list.is_empty() {
        list.push_str("none")?;
    }
    Ok(Some(list))
}

// A definition by its fields, each flag by its name where it is set.
fn definition_text(alloc: Global, definition: &PredDef) -> Mem<String> {
    let name = &definition.name;
    let kind = definition.kind;
    let list = where_so(definition.list, " list");
    let tokens = definition.tokens.as_slice();
    let reverse = where_so(definition.reverse, " reverse");
    let count = where_so(definition.count, " count");
    let upsert = where_so(definition.upsert, " upsert");
    Ok(format!(in alloc; "{name} {kind:?}{list} {tokens:?}{reverse}{count}{upsert}")?)
}

fn where_so(holds: bool, text: &'static str) -> &'static str {
    if holds { text } else { "" }
}
