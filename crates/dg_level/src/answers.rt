// What is shown of a predicate of a node.
ghost use Rattle.std.specs.Prelude.{◌≡◌, false, IfOk, map, flat_map, slice_get, option_copied, option_to_list};
ghost use Rattle.dg_values.specs.Printing.{time_text};
ghost use Rattle.dg_level.specs.Answers.{value_tree, value_of, values_shown, shown};

use dg_schema::PredDef;
use dg_tree::Tree;
use dg_values::{List, Mem, Moment, OutOfMemory, Posting, Str, Value, write_value};
use std::alloc::Global;

// The text of a moment.
fn moment_text(alloc: Global, moment: Moment) -> Mem<Str>
    ensures { IfOk result (λ text. text ≡ time_text moment) }
{
    let mut text = Str::from_str(alloc, "")?;
    write_value(alloc, &mut text, &Value::Time(moment))?;
    Ok(text)
}

/// The tree of a value. The error is want of memory.
pub fn value_tree(alloc: Global, value: Value) -> Mem<Tree>
    ensures { IfOk result (λ tree. tree ≡ value_tree value) }
{
    match value {
        Value::Int(n) => Ok(Tree::Int(n)),
        Value::Bool(b) => Ok(Tree::Bool(b)),
        Value::Text(text) => Ok(Tree::Text(text)),
        Value::Time(moment) => Ok(Tree::Text(moment_text(alloc, moment)?)),
    }
}

// The trees of values, in their order.
fn value_trees(alloc: Global, values: Vec<Value>) -> Mem<List<Tree>>
    ensures { IfOk result (λ trees. trees ≡ map value_tree values.items) }
{
    let mut trees = List::new(alloc);
    for value in values {
        trees.push(value_tree(alloc, value)?)?;
    }
    Ok(trees)
}

/// The objects that are values, in their order. The error is want of memory.
pub fn values_of(alloc: Global, objects: Vec<Posting>) -> Mem<Vec<Value>>
    ensures { IfOk result (λ values. values.items ≡ flat_map value_of objects.items) }
{
    let mut values = Vec::new(alloc);
    for object in objects {
        if let Posting::Val(value) = object {
            values.push(value)?;
        }
    }
    Ok(values)
}

/// The tree of values, if there are any: of a list all in an array, else the first. The error is want of memory.
pub fn values_shown(alloc: Global, list: bool, values: Vec<Value>) -> Mem<Option<Tree>>
    ensures { IfOk result (λ tree. option_to_list tree ≡ values_shown list values.items) }
{
    if list && !values.is_empty() {
        return Ok(Some(Tree::Array(value_trees(alloc, values)?)));
    }
    match values.into_iter().next() {
        None => Ok(None),
        Some(value) => Ok(Some(value_tree(alloc, value)?)),
    }
}

// The first of these objects.
fn first_object(objects: Vec<Posting>) -> Option<Posting>
    ensures { result ≡ slice_get objects.items 0 }
{
    objects.into_iter().next()
}

// The tree of an object that is a value.
fn object_shown(alloc: Global, object: Posting) -> Mem<Option<Tree>>
    ensures { IfOk result (λ tree. option_to_list tree ≡ values_shown false (value_of object)) }
{
    match object {
        Posting::Uid(_) => Ok(None),
        Posting::Val(value) => Ok(Some(value_tree(alloc, value)?)),
    }
}

// The tree of the first value among objects, if there is one. Of one object no list is made.
#[tactic(auto, using(crate::proofs::ObjectLaws::none_shown, crate::proofs::ObjectLaws::one_shown))]
fn first_shown(alloc: Global, objects: Vec<Posting>) -> Mem<Option<Tree>>
    ensures { IfOk result (λ tree. option_to_list tree ≡ values_shown false (flat_map value_of objects.items)) }
{
    if objects.len() > 1 {
        return values_shown(alloc, false, values_of(alloc, objects)?);
    }
    match first_object(objects) {
        None => Ok(None),
        Some(object) => object_shown(alloc, object),
    }
}

/// The tree of the values among objects, if there are any: of a list all in an array, else the first. The error is want of memory.
pub fn objects_shown(alloc: Global, list: bool, objects: Vec<Posting>) -> Mem<Option<Tree>>
    ensures { IfOk result (λ tree. option_to_list tree ≡ values_shown list (flat_map value_of objects.items)) }
{
    if list {
        return values_shown(alloc, true, values_of(alloc, objects)?);
    }
    first_shown(alloc, objects)
}

/// What is shown of the objects of a predicate, if anything. The error is want of memory.
pub fn shown(
    alloc: Global,
    definition: Option<&PredDef>,
    objects: Vec<Posting>,
) -> Mem<Option<Tree>>
    ensures { IfOk result (λ tree. option_to_list tree ≡ shown (option_copied definition.entry) objects.items) }
{
    match definition {
        None => Ok(None),
        Some(definition) => objects_shown(alloc, definition.list, objects),
    }
}
