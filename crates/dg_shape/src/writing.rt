// Flat objects as trees, no more than an answer may have.
ghost use Rattle.std.specs.Prelude.{◌≡◌, ◌≤◌, ◌<◌, ◌++◌, ◌∷◌, [], IfOk, OnOk, IsErrOf, length, map};
ghost use Rattle.dg_tree.specs.declared.tree.Tree.TheVariants as trees;
ghost use Rattle.dg_tree.specs.Texts.{comma_before, array_text, tree_text};

use crate::copying::copy_field;
use crate::flats::Flat;
use dg_tree::{AnswerText, Field, Tree, TreeFault};
use dg_values::{List, Mem, OutOfMemory};
use std::alloc::Global;

// Copies of fields.
fn copies(alloc: Global, pairs: &[&Field]) -> Mem<Vec<Field>>
    ensures { IfOk result (λ v. v.items ≡ map (λ p. p.now) pairs.now) }
{
    let mut out = Vec::with_capacity(alloc, pairs.len())?;
    for i in 0..pairs.len() {
        out.push(copy_field(alloc, pairs[i])?)?;
    }
    Ok(out)
}

// An object as a node.
fn node_of(alloc: Global, object: &Flat) -> Mem<Tree>
    ensures { IfOk result (λ t. t ≡ trees.Node object.now) }
{
    Ok(Tree::Node(List::from_vec(copies(alloc, object.pairs())?)))
}

// Adds the comma before the object at a place.
fn push_comma(answer: &mut AnswerText, place: usize) -> Result<(), TreeFault>
    ensures ok { OnOk result (answer.new ≡ answer.old ++ comma_before place) }
    ensures too_large { IsErrOf result TreeFault.TooLarge → 16777216 < length (answer.old ++ comma_before place) }
{
    if place == 0 {
        return Ok(());
    }
    answer.mark(",")
}

// Adds a node.
fn add(out: &mut Vec<Tree>, node: Tree) -> Mem<()>
    ensures { OnOk result (out.new.items ≡ out.old.items ++ node ∷ []) }
{
    Ok(out.push(node)?)
}

/// Objects as nodes. `TooLarge` comes exactly where the text of their array has more than 16,777,216 bytes.
pub fn written(alloc: Global, objects: &[Flat]) -> Result<Vec<Tree>, TreeFault>
    ensures ok { IfOk result (λ v. v.items ≡ map trees.Node objects.now) }
    ensures within { IfOk result (λ v. length (array_text (map (λ o. tree_text (trees.Node o)) objects.now)) ≤ 16777216) }
    ensures too_large { IsErrOf result TreeFault.TooLarge → 16777216 < length (array_text (map (λ o. tree_text (trees.Node o)) objects.now)) }
{
    let mut answer = AnswerText::new(alloc)?;
    answer.mark("[")?;
    let mut out = Vec::new(alloc);
    for (place, object) in objects.iter().enumerate() {
        push_comma(&mut answer, place)?;
        let node = node_of(alloc, object)?;
        answer.tree(&node)?;
        add(&mut out, node)?;
    }
    answer.mark("]")?;
    let _text = answer.into_string();
    Ok(out)
}
