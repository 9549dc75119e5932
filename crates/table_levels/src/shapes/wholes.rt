// Rows of whole trees: what is left of them, and what is shown.
use crate::asked::query_of;
use crate::shapes::trees::trees_of;
use dg_parse::{QField, Query};
use dg_shape::{cascade, normalize, strip};
use dg_tree::{Field, Tree, TreeFault, answer_text};
use dg_values::{List, Mem, OutOfMemory, Str};
use std::alloc::Global;

// The name of each node of a product.
const NAME: &str = "a name that takes some room in an answer";

// The fields of the first block.
fn fields_of(query: &Query) -> &[QField] {
    match query.blocks.as_slice().first() {
        Some(block) => block.fields.as_slice(),
        None => &[],
    }
}

// The text of trees under a key.
fn text_of(alloc: Global, trees: Vec<Tree>) -> Mem<String> {
    let key = Str::from_str(alloc, "q")?;
    let tree = Tree::Array(List::from_vec(trees));
    match answer_text(alloc, &[Field { key, tree }]) {
        Ok(text) => Ok(text),
        Err(fault) => fault_text(alloc, fault),
    }
}

fn fault_text(alloc: Global, fault: TreeFault) -> Mem<String> {
    match fault {
        TreeFault::OutOfMemory => Err(OutOfMemory),
        TreeFault::TooLarge => Ok(fault.to_string(alloc)?),
    }
}

// The query of a row, and its trees.
fn parts_of(alloc: Global, fields: &str) -> Mem<Option<(Query, Vec<Tree>)>> {
    let (text, steps) = fields.split_once('\t').unwrap_or((fields, ""));
    let Some(query) = query_of(alloc, text)? else {
        return Ok(None);
    };
    Ok(trees_of(alloc, steps)?.map(|trees| (query, trees)))
}

// What a cascade leaves of trees.
fn remaining(alloc: Global, trees: Vec<Tree>, fields: &[QField]) -> Mem<Vec<Tree>> {
    let mut left = Vec::new(alloc);
    for tree in trees {
        if let Some(tree) = cascade(tree, fields) {
            left.push(tree)?;
        }
    }
    Ok(left)
}

/// `QUERY, STEPS`: what a cascade by the first block's fields leaves of the trees that the steps make.
pub(crate) fn cascaded(alloc: Global, fields: &str) -> Mem<Option<String>> {
    let Some((query, trees)) = parts_of(alloc, fields)? else {
        return Ok(None);
    };
    let left = remaining(alloc, trees, fields_of(&query))?;
    Ok(Some(text_of(alloc, left)?))
}

// What is shown of trees.
fn shown(alloc: Global, trees: Vec<Tree>, fields: &[QField]) -> Mem<Vec<Tree>> {
    let mut made = Vec::new(alloc);
    for tree in trees {
        made.push(strip(alloc, tree, fields)?)?;
    }
    Ok(made)
}

/// `QUERY, STEPS`: the trees that the steps make, without what isn't shown.
pub(crate) fn stripped(alloc: Global, fields: &str) -> Mem<Option<String>> {
    let Some((query, trees)) = parts_of(alloc, fields)? else {
        return Ok(None);
    };
    let made = shown(alloc, trees, fields_of(&query))?;
    Ok(Some(text_of(alloc, made)?))
}

// The text of flat objects, or of what is wrong.
fn flat_text(alloc: Global, trees: Vec<Tree>, fields: &[QField]) -> Mem<String> {
    match normalize(alloc, trees, fields) {
        Ok(made) => text_of(alloc, made),
        Err(fault) => fault_text(alloc, fault),
    }
}

/// `QUERY, STEPS`: the flat objects of the trees that the steps make.
pub(crate) fn normalized(alloc: Global, fields: &str) -> Mem<Option<String>> {
    let Some((query, trees)) = parts_of(alloc, fields)? else {
        return Ok(None);
    };
    Ok(Some(flat_text(alloc, trees, fields_of(&query))?))
}

// A node with a name under a key.
fn named(alloc: Global, key: &str) -> Mem<Tree> {
    let mut fields = List::new(alloc);
    let key = Str::from_str(alloc, key)?;
    let tree = Tree::Text(Str::from_str(alloc, NAME)?);
    fields.push(Field { key, tree })?;
    Ok(Tree::Node(fields))
}

// So many nodes with a name under a key.
fn nodes(alloc: Global, key: &str, count: u32) -> Mem<Tree> {
    let mut trees = List::new(alloc);
    for _ in 0..count {
        trees.push(named(alloc, key)?)?;
    }
    Ok(Tree::Array(trees))
}

// A node with so many nodes under each of three edges; those of each edge have a key of their own.
fn crossed(alloc: Global, count: u32) -> Mem<Tree> {
    let mut fields = List::new(alloc);
    for (edge, key) in [("x", "a"), ("y", "b"), ("z", "c")] {
        let tree = nodes(alloc, key, count)?;
        let key = Str::from_str(alloc, edge)?;
        fields.push(Field { key, tree })?;
    }
    Ok(Tree::Node(fields))
}

/// `COUNT`: how many bytes the flat objects have of a node with so many nodes under each of three edges, each followed by each.
pub(crate) fn product(alloc: Global, fields: &str) -> Mem<Option<String>> {
    let Ok(count) = fields.parse::<u32>() else {
        return Ok(None);
    };
    let text = "{ q(func: uid(0x1)) { x { a: n } y { b: n } z { c: n } } }";
    let Some(query) = query_of(alloc, text)? else {
        return Ok(None);
    };
    let mut trees = Vec::new(alloc);
    trees.push(crossed(alloc, count.min(1000))?)?;
    match normalize(alloc, trees, fields_of(&query)) {
        Ok(made) => Ok(Some(format!(in alloc; "{} bytes", text_of(alloc, made)?.len())?)),
        Err(fault) => Ok(Some(fault_text(alloc, fault)?)),
    }
}
