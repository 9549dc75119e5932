// Parts of functions and order keys with their variables as places among those that are defined.
ghost use Rattle.std.specs.Prelude.{◌≡◌, map, IfOk};
ghost use Rattle.dg_check.specs.Plans.{node_of, of_part, by_of, key_of, keys_of};

use crate::adding::add_any;
use crate::literals::Variables;
use crate::parts::{By, Node, Of, OrderKey};
use dg_parse::{QArg, QEdge, QOf, QOrder, UidArg};
use dg_values::{List, Mem, OutOfMemory};
use std::alloc::Global;

// A node, or a variable by its place.
fn node_of(variables: &Variables<'_>, uid: &UidArg) -> Node
    ensures { result ≡ node_of variables.now uid.now }
{
    match uid {
        UidArg::Uid(n) => Node::Uid(*n),
        UidArg::Var(name) => Node::Var(variables.place(name.as_str())),
    }
}

/// Nodes, and variables by their places.
pub fn nodes_of(alloc: Global, variables: &Variables<'_>, uids: &[UidArg]) -> Mem<List<Node>>
    ensures { IfOk result (λ nodes. nodes ≡ map (node_of variables.now) uids.now) }
{
    let mut nodes = Vec::new(alloc);
    for uid in uids {
        nodes.push(node_of(variables, uid))?;
    }
    Ok(List::from_vec(nodes))
}

/// A copy of an edge.
pub fn copy_edge(alloc: Global, edge: &QEdge) -> Mem<QEdge>
    ensures { IfOk result (λ copy. copy ≡ edge.now) }
{
    let pred = edge.pred.copy(alloc)?;
    Ok(QEdge {
        back: edge.back,
        pred,
    })
}

/// What is compared, a variable by its place.
pub fn of_part(alloc: Global, variables: &Variables<'_>, of: &QOf) -> Mem<Of>
    ensures { IfOk result (λ made. made ≡ of_part variables.now of.now) }
{
    match of {
        QOf::Pred(pred) => Ok(Of::Pred(pred.copy(alloc)?)),
        QOf::Count(edge) => Ok(Of::Count(copy_edge(alloc, edge)?)),
        QOf::Val(name) => Ok(Of::Val(variables.place(name.as_str()))),
    }
}

// What a list is ordered by, a variable by its place.
fn by_of(alloc: Global, variables: &Variables<'_>, order: &QOrder) -> Mem<By>
    ensures { IfOk result (λ by. by ≡ by_of variables.now order.now) }
{
    match order {
        QOrder::Pred(pred) => Ok(By::Pred(pred.copy(alloc)?)),
        QOrder::Val(name) => Ok(By::Val(variables.place(name.as_str()))),
    }
}

// The order key that an argument is, if it is one.
fn key_of(alloc: Global, variables: &Variables<'_>, arg: &QArg) -> Mem<Option<OrderKey>>
    ensures { IfOk result (λ key. key ≡ key_of variables.now arg.now) }
{
    match arg {
        QArg::First(_) | QArg::Offset(_) | QArg::After(_) => Ok(None),
        QArg::Asc(order) => Ok(Some(OrderKey::Asc(by_of(alloc, variables, order)?))),
        QArg::Desc(order) => Ok(Some(OrderKey::Desc(by_of(alloc, variables, order)?))),
    }
}

/// The order keys among arguments, in their order.
pub fn keys_of(alloc: Global, variables: &Variables<'_>, args: &[QArg]) -> Mem<List<OrderKey>>
    ensures { IfOk result (λ keys. keys ≡ keys_of variables.now args.now) }
{
    let mut keys = Vec::new(alloc);
    for arg in args {
        let key = key_of(alloc, variables, arg)?;
        add_any(&mut keys, key)?;
    }
    Ok(List::from_vec(keys))
}
