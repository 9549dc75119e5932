// Copies of trees.
ghost use Rattle.std.specs.Prelude.{◌≡◌, IfOk};

use dg_tree::{Field, Tree};
use dg_values::{List, Mem, OutOfMemory};
use std::alloc::Global;

// An equal tree.
#[cycle(copy)]
fn copy_tree(alloc: Global, tree: &Tree) -> Mem<Tree>
    ensures { IfOk result (λ t. t ≡ tree.now) }
{
    match tree {
        Tree::Int(n) => Ok(Tree::Int(*n)),
        Tree::Bool(b) => Ok(Tree::Bool(*b)),
        Tree::Text(text) => Ok(Tree::Text(text.copy(alloc)?)),
        Tree::Array(items) => Ok(Tree::Array(copy_trees(alloc, items.as_slice())?)),
        Tree::Node(parts) => Ok(Tree::Node(copy_fields(alloc, parts.as_slice())?)),
    }
}

// Equal trees.
#[cycle(copy)]
fn copy_trees(alloc: Global, items: &[Tree]) -> Mem<List<Tree>>
    ensures { IfOk result (λ l. l ≡ items.now) }
{
    let mut out = Vec::new(alloc);
    for item in items {
        out.push(copy_tree(alloc, item)?)?;
    }
    Ok(List::from_vec(out))
}

// Equal fields.
#[cycle(copy)]
fn copy_fields(alloc: Global, parts: &[Field]) -> Mem<List<Field>>
    ensures { IfOk result (λ l. l ≡ parts.now) }
{
    let mut out = Vec::new(alloc);
    for part in parts {
        out.push(copy_field(alloc, part)?)?;
    }
    Ok(List::from_vec(out))
}

/// An equal field. The error is want of memory.
#[cycle(copy)]
pub fn copy_field(alloc: Global, part: &Field) -> Mem<Field>
    ensures { IfOk result (λ f. f ≡ part.now) }
{
    let key = part.key.copy(alloc)?;
    let tree = copy_tree(alloc, &part.tree)?;
    Ok(Field { key, tree })
}
