// The nodes for which those of a statement stand.
ghost use Rattle.std.specs.Prelude.{◌≡◌, ◌↔◌, [], ◌∷◌, IfOk, IsTrue, map};
ghost use Rattle.dg_nquad.specs.declared.mutation.Node.TheVariants as nodes;
ghost use Rattle.dg_upsert.specs.Meaning.{new_name, nodes_for, nodes_meant, ends_meant};

use crate::copying::copy_node;
use crate::known::{Known, nodes_named};
use dg_nquad::{Node, Object};
use dg_values::{Mem, OutOfMemory, Str};
use std::alloc::Global;

// A list of one node.
fn only(alloc: Global, node: Node) -> Mem<Vec<Node>>
    ensures { IfOk result (λ all. all.items ≡ node ∷ []) }
{
    let mut all = Vec::new(alloc);
    all.push(node)?;
    Ok(all)
}

// The nodes of these numbers.
fn numbered(alloc: Global, uids: &[u64]) -> Mem<Vec<Node>>
    ensures { IfOk result (λ all. all.items ≡ map nodes.Uid uids.now) }
{
    let mut all = Vec::with_capacity(alloc, uids.len())?;
    for uid in uids {
        all.push(Node::Uid(*uid))?;
    }
    Ok(all)
}

// The name of the new node that a variable stands for, with the variable's in it, so that it is the same wherever it is named.
fn new_name(alloc: Global, variable: &Str) -> Mem<Str>
    ensures { IfOk result (λ name. name ≡ new_name variable.now) }
{
    Ok(Str::from_string(format!(in alloc; "uid({variable})")?))
}

// The new node that a variable without nodes stands for, or none.
fn new_node(alloc: Global, delete: bool, variable: &Str) -> Mem<Vec<Node>>
    ensures { IfOk result (λ all. all.items ≡ nodes_for delete variable.now []) }
{
    if delete {
        Ok(Vec::new(alloc))
    } else {
        only(alloc, Node::Blank(new_name(alloc, variable)?))
    }
}

// The nodes for which a variable of these nodes stands.
fn nodes_for(alloc: Global, delete: bool, variable: &Str, uids: &[u64]) -> Mem<Vec<Node>>
    ensures { IfOk result (λ all. all.items ≡ nodes_for delete variable.now uids.now) }
{
    match uids {
        [] => new_node(alloc, delete, variable),
        _ => numbered(alloc, uids),
    }
}

/// Whether a node of a statement stands for none, as a variable without nodes does in a delete. No node is made for it.
pub fn stands_for_none(known: &Known<'_>, delete: bool, node: &Node) -> bool
    ensures { IsTrue result ↔ nodes_meant known.now.names known.now.vars.now.variables delete node.now ≡ [] }
{
    match node {
        Node::Uid(_) | Node::Blank(_) => false,
        Node::Var(x) => delete && nodes_named(known, x.as_str()).is_empty(),
    }
}

/// The nodes for which a node of a statement stands.
pub fn nodes_meant(alloc: Global, known: &Known<'_>, delete: bool, node: &Node) -> Mem<Vec<Node>>
    ensures { IfOk result (λ all. all.items ≡ nodes_meant known.now.names known.now.vars.now.variables delete node.now) }
{
    match node {
        Node::Uid(_) | Node::Blank(_) => only(alloc, copy_node(alloc, node)?),
        Node::Var(x) => nodes_for(alloc, delete, x, nodes_named(known, x.as_str())),
    }
}

/// The nodes for which an object stands, none where it is no node.
pub fn ends_meant(alloc: Global, known: &Known<'_>, delete: bool, object: &Object) -> Mem<Vec<Node>>
    ensures { IfOk result (λ all. all.items ≡ ends_meant known.now.names known.now.vars.now.variables delete object.now) }
{
    match object {
        Object::Node(node) => nodes_meant(alloc, known, delete, node),
        Object::Literal { .. } | Object::Star | Object::Val(_) => Ok(Vec::new(alloc)),
    }
}
