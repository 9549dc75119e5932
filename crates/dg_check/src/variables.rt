// The variables that a query defines, and what they have.
ghost use Rattle.std.specs.Prelude.{◌≡◌, [], IfOk, Option, map, option_map, true, false};
ghost use Rattle.dg_schema.specs.Definitions.{definition_of};
ghost use Rattle.dg_check.specs.Places.{source_met, places_met};
ghost use Rattle.dg_check.specs.Variables.{content_of_kind, content_of_edge, content_of, definitions_in, definitions_met, has_values, names_for};
ghost use Rattle.dg_check.specs.Faults.{first_again, twice};

use crate::names::Names;
use crate::places::{Place, Source};
use crate::{CheckFault, Content};
use dg_parse::QEdge;
use dg_schema::Schema;
use dg_values::{Kind, List, Mem, OutOfMemory, Str};
use std::alloc::Global;

/// A variable that is defined, and what it has.
#[derive(Clone, Copy)]
pub struct Definition<'a> {
    /// Its name.
    pub name: &'a str,
    /// What it has.
    pub content: Content,
}

// What a variable of a predicate's kind has.
fn content_of_kind(kind: Kind) -> Content
    ensures { result ≡ content_of_kind kind }
{
    match kind {
        Kind::Uid => Content::Nodes,
        Kind::Default | Kind::Int | Kind::Text | Kind::Bool | Kind::Time => Content::Values(kind),
    }
}

// What a variable on an edge has.
fn content_of_edge(schema: &Schema, edge: &QEdge) -> Content
    ensures { result ≡ content_of_edge (definition_of schema.now edge.now.pred) edge.now.back }
{
    match schema.lookup(edge.pred.as_str()) {
        None => Content::Both,
        Some(definition) => {
            if edge.back {
                Content::Nodes
            } else {
                content_of_kind(definition.kind)
            }
        }
    }
}

// What a variable that stands for this has.
fn content_of(schema: &Schema, source: Source<'_>) -> Content
    ensures { result ≡ content_of schema.now (source_met source.entry) }
{
    match source {
        Source::Listed => Content::Nodes,
        Source::Counted(_) => Content::Values(Kind::Int),
        Source::Followed(edge) => content_of_edge(schema, edge),
    }
}

/// The variables that are defined, in the order of the text.
pub fn definitions_of<'a>(
    alloc: Global,
    schema: &Schema,
    places: &[Place<'a>],
) -> Mem<Vec<Definition<'a>>>
    ensures { IfOk result (λ definitions. definitions_met definitions.items ≡ definitions_in schema.now (places_met places.now)) }
{
    let mut definitions = Vec::new(alloc);
    for place in places {
        if let Place::Defined(name, source) = *place {
            let name = name.as_str();
            let content = content_of(schema, source);
            definitions.push(Definition { name, content })?;
        }
    }
    Ok(definitions)
}

// Whether a variable has values, or may have.
fn has_values(content: Content) -> bool
    ensures { result ≡ has_values content }
{
    match content {
        Content::Nodes => false,
        Content::Values(_) | Content::Both => true,
    }
}

/// The names of all variables.
pub fn all_names<'a>(alloc: Global, definitions: &[Definition<'a>]) -> Mem<Names<'a>>
    ensures { IfOk result (λ names. names ≡ names_for false (definitions_met definitions.now)) }
{
    let mut names = Names::none(alloc);
    for definition in definitions {
        names.push(definition.name)?;
    }
    Ok(names)
}

/// The names of those that have values.
pub fn valued_names<'a>(alloc: Global, definitions: &[Definition<'a>]) -> Mem<Names<'a>>
    ensures { IfOk result (λ names. names ≡ names_for true (definitions_met definitions.now)) }
{
    let mut names = Names::none(alloc);
    for definition in definitions {
        if has_values(definition.content) {
            names.push(definition.name)?;
        }
    }
    Ok(names)
}

// The first name that is defined a second time.
fn first_again<'a>(alloc: Global, definitions: &[Definition<'a>]) -> Mem<Option<&'a str>>
    ensures { IfOk result (λ found. option_map (λ name. name.now) found ≡ first_again [] (map (λ d. d.name) (definitions_met definitions.now))) }
{
    let mut before = Names::none(alloc);
    for definition in definitions {
        if before.has(definition.name) {
            return Ok(Some(definition.name));
        }
        before.push(definition.name)?;
    }
    Ok(None)
}

/// The fault of the first variable that is defined a second time.
pub fn twice(alloc: Global, definitions: &[Definition<'_>]) -> Mem<Option<CheckFault>>
    ensures { IfOk result (λ found. found ≡ twice (definitions_met definitions.now)) }
{
    match first_again(alloc, definitions)? {
        None => Ok(None),
        Some(name) => {
            let name = Str::from_str(alloc, name)?;
            Ok(Some(CheckFault::VariableTwice { name }))
        }
    }
}
