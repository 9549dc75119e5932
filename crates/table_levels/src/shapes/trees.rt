// Trees that the steps of a row make.
ghost use Rattle.std.specs.Prelude.{◌≤◌, IfSome};

use dg_tree::{Field, Tree};
use dg_values::{List, Mem, Str};
use std::alloc::Global;

// What the steps have made and no later step has taken.
#[derive(Drop)]
struct Made {
    trees: Vec<Tree>,
    fields: Vec<Field>,
}

/// The trees that are left behind the last step, where no field is.
pub(crate) fn trees_of(alloc: Global, steps: &str) -> Mem<Option<Vec<Tree>>> {
    let mut made = Made {
        trees: Vec::new(alloc),
        fields: Vec::new(alloc),
    };
    for step in steps.split('\t') {
        let (word, said) = step.split_once(' ').unwrap_or((step, ""));
        if !take_step(alloc, &mut made, word, said)? {
            return Ok(None);
        }
    }
    let Made { trees, fields } = made;
    if fields.is_empty() {
        Ok(Some(trees))
    } else {
        Ok(None)
    }
}

// Whether the step could be taken. A leaf is added to the trees; the other steps take what was made last.
fn take_step(alloc: Global, made: &mut Made, word: &str, said: &str) -> Mem<bool> {
    match word {
        "nothing" => Ok(true),
        "array" => push_array(made, said),
        "node" => push_node(made, said),
        "field" => push_field(alloc, made, said),
        _ => push_leaf(alloc, made, word, said),
    }
}

fn push_leaf(alloc: Global, made: &mut Made, word: &str, said: &str) -> Mem<bool> {
    match leaf(alloc, word, said)? {
        None => Ok(false),
        Some(tree) => {
            made.trees.push(tree)?;
            Ok(true)
        }
    }
}

fn leaf(alloc: Global, word: &str, said: &str) -> Mem<Option<Tree>> {
    match word {
        "int" => Ok(said.parse::<i64>().ok().map(Tree::Int)),
        "true" => Ok(Some(Tree::Bool(true))),
        "false" => Ok(Some(Tree::Bool(false))),
        "text" => Ok(Some(Tree::Text(Str::from_str(alloc, said)?))),
        _ => Ok(None),
    }
}

// Where the last ones begin, of which so many are asked for.
fn start_of_last(len: usize, count: &str) -> Option<usize>
    ensures { IfSome result (λ start. start ≤ len) }
{
    let count = count.parse::<usize>().ok()?;
    len.checked_sub(count)
}

// An array of the last trees.
fn push_array(made: &mut Made, count: &str) -> Mem<bool> {
    let Some(start) = start_of_last(made.trees.len(), count) else {
        return Ok(false);
    };
    let last = made.trees.split_off(start)?;
    made.trees.push(Tree::Array(List::from_vec(last)))?;
    Ok(true)
}

// A node of the last fields.
fn push_node(made: &mut Made, count: &str) -> Mem<bool> {
    let Some(start) = start_of_last(made.fields.len(), count) else {
        return Ok(false);
    };
    let last = made.fields.split_off(start)?;
    made.trees.push(Tree::Node(List::from_vec(last)))?;
    Ok(true)
}

// The last tree at a key.
fn push_field(alloc: Global, made: &mut Made, key: &str) -> Mem<bool> {
    match made.trees.pop() {
        None => Ok(false),
        Some(tree) => {
            let key = Str::from_str(alloc, key)?;
            made.fields.push(Field { key, tree })?;
            Ok(true)
        }
    }
}
