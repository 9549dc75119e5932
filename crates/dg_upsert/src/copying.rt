// Equal nodes and objects.
ghost use Rattle.std.specs.Prelude.{◌≡◌, IfOk};

use dg_nquad::{Node, Object};
use dg_values::{Mem, OutOfMemory};
use std::alloc::Global;

/// An equal node.
pub fn copy_node(alloc: Global, node: &Node) -> Mem<Node>
    ensures { IfOk result (λ n. n ≡ node.now) }
{
    match node {
        Node::Uid(uid) => Ok(Node::Uid(*uid)),
        Node::Blank(name) => Ok(Node::Blank(name.copy(alloc)?)),
        Node::Var(name) => Ok(Node::Var(name.copy(alloc)?)),
    }
}

/// An equal object.
pub fn copy_object(alloc: Global, object: &Object) -> Mem<Object>
    ensures { IfOk result (λ o. o ≡ object.now) }
{
    match object {
        Object::Node(node) => Ok(Object::Node(copy_node(alloc, node)?)),
        Object::Literal { text, tag } => {
            let text = text.copy(alloc)?;
            Ok(Object::Literal { text, tag: *tag })
        }
        Object::Star => Ok(Object::Star),
        Object::Val(name) => Ok(Object::Val(name.copy(alloc)?)),
    }
}
