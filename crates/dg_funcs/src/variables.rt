// What names of nodes and variables stand for.
ghost use Rattle.std.specs.Prelude.{◌≡◌, ◌++◌, IfOk, IfSome, OnOk, option_copied, slice_get};
ghost use Rattle.std.specs.Ordering.{nat_cmp};
ghost use Rattle.dg_values.specs.Ascending.{Ascends, ascending};
ghost use Rattle.dg_check.specs.Vars.{value_beside, value_at, nodes_of, nodes_named, named_nodes};

use dg_check::{Node, Vars};
use dg_sets::place_of;
use dg_uids::Uids;
use dg_values::{Mem, OutOfMemory, Value};
use std::alloc::Global;

// The value at a place.
fn item_at(values: &[Value], at: usize) -> Option<&Value>
    ensures { option_copied result ≡ slice_get values.now at }
{
    values.get(at)
}

// The value that stands beside a node. It looks by halves.
fn value_beside<'a>(nodes: &[u64], values: &'a [Value], node: u64) -> Option<&'a Value>
    requires ascend { Ascends nat_cmp nodes.now }
    ensures { option_copied result ≡ value_beside nodes.now values.now node }
{
    match place_of(nodes, &node) {
        Ok(at) => item_at(values, at),
        Err(_) => None,
    }
}

/// The value of the variable at a place, at a node; none exactly where there is none. It looks by halves, and takes no
/// memory.
pub fn value_at<'a>(vars: &'a Vars, place: usize, node: u64) -> Option<&'a Value>
    ensures { option_copied result ≡ value_at vars.now.variables place node }
{
    match vars.variables.as_slice().get(place) {
        Some(v) => value_beside(v.nodes.as_slice(), v.values.as_slice(), node),
        None => None,
    }
}

// The nodes of the variable at a place.
fn nodes_of(vars: &Vars, place: usize) -> &[u64]
    ensures { result.now ≡ nodes_of vars.now.variables place }
{
    match vars.variables.as_slice().get(place) {
        Some(v) => v.nodes.as_slice(),
        None => &[],
    }
}

// Adds the nodes for which a name stands.
fn add_named(found: &mut Vec<u64>, vars: &Vars, name: Node) -> Mem<()>
    ensures { OnOk result (found.new.items ≡ found.old.items ++ nodes_named vars.now.variables name) }
{
    match name {
        Node::Uid(n) => found.push(n)?,
        Node::Var(place) => found.extend_from_slice(nodes_of(vars, place))?,
    }
    Ok(())
}

// A set itself, which is in order.
fn as_it_stands(set: &Uids) -> &Uids
    ensures { result.now ≡ ascending nat_cmp set.now }
{
    let _nodes = set.as_slice();
    set
}

// The set of the variable at a place, if there is one.
fn set_at(vars: &Vars, place: usize) -> Option<&Uids>
    ensures { IfSome (option_copied result) (λ uids. uids ≡ nodes_of vars.now.variables place) }
{
    match vars.variables.as_slice().get(place) {
        Some(v) => Some(&v.nodes),
        None => None,
    }
}

/// The set of a variable that is named alone, as it stands: nothing is copied. None where other names stand there, or none does.
pub(crate) fn sole_set<'a>(vars: &'a Vars, names: &[Node]) -> Option<&'a Uids>
    ensures { IfSome (option_copied result) (λ uids. uids ≡ ascending nat_cmp (named_nodes vars.now.variables names.now)) }
{
    match names {
        [Node::Var(place)] => match set_at(vars, *place) {
            Some(set) => Some(as_it_stands(set)),
            None => None,
        },
        _ => None,
    }
}

/// The nodes for which names stand, ascending. Those of a variable that is named alone are copied as they stand, others are
/// gathered and sorted once. The error is want of memory.
pub fn named(alloc: Global, vars: &Vars, names: &[Node]) -> Mem<Uids>
    ensures { IfOk result (λ uids. uids ≡ ascending nat_cmp (named_nodes vars.now.variables names.now)) }
{
    match sole_set(vars, names) {
        Some(set) => set.copy(alloc),
        None => gathered(alloc, vars, names),
    }
}

// The same of any names.
fn gathered(alloc: Global, vars: &Vars, names: &[Node]) -> Mem<Uids>
    ensures { IfOk result (λ uids. uids ≡ ascending nat_cmp (named_nodes vars.now.variables names.now)) }
{
    let mut found = Vec::new(alloc);
    for name in names {
        add_named(&mut found, vars, *name)?;
    }
    Ok(Uids::gathered(found))
}
