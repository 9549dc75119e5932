// What the variables of an upsert block stand for, by their names.
ghost use Rattle.std.specs.Prelude.{◌≡◌, IfOk, option_copied};
ghost use Rattle.dg_check.specs.Vars.{nodes_of};
ghost use Rattle.dg_uids.specs.Sets.{common};
ghost use Rattle.dg_upsert.specs.Conditions.{nodes_named, value_named};

use crate::names::Names;
use dg_check::Vars;
use dg_funcs::value_at;
use dg_uids::Uids;
use dg_values::{Mem, OutOfMemory, Value};
use std::alloc::Global;

/// What variables stand for, by their names.
#[derive(Drop)]
pub struct Known<'a> {
    /// The names, at the places that the variables have.
    pub names: Names<'a>,
    /// What they stand for.
    pub vars: &'a Vars,
}

// The nodes of the variable at a place.
fn nodes_of(vars: &Vars, place: usize) -> &[u64]
    ensures { result.now ≡ nodes_of vars.now.variables place }
{
    match vars.variables.as_slice().get(place) {
        Some(v) => v.nodes.as_slice(),
        None => &[],
    }
}

/// The nodes of the variable of a name. It looks by halves.
pub fn nodes_named<'a>(known: &'a Known<'_>, name: &str) -> &'a [u64]
    ensures { result.now ≡ nodes_named known.now.names known.now.vars.now.variables name.now }
{
    nodes_of(known.vars, known.names.place(name))
}

// The nodes that the variable at a place has in common with a set.
fn common_with(alloc: Global, vars: &Vars, place: usize, nodes: &Uids) -> Mem<Uids>
    ensures { IfOk result (λ uids. uids ≡ common nodes.now (nodes_of vars.now.variables place)) }
{
    match vars.variables.as_slice().get(place) {
        Some(v) => nodes.and(alloc, &v.nodes),
        None => Ok(Uids::gathered(Vec::new(alloc))),
    }
}

// The nodes that the variables at two places have in common.
fn common_of(alloc: Global, vars: &Vars, place: usize, other: usize) -> Mem<Uids>
    ensures { IfOk result (λ uids. uids ≡ common (nodes_of vars.now.variables place) (nodes_of vars.now.variables other)) }
{
    match vars.variables.as_slice().get(place) {
        Some(v) => common_with(alloc, vars, other, &v.nodes),
        None => Ok(Uids::gathered(Vec::new(alloc))),
    }
}

/// The nodes that the variables of two names have in common. It goes over the fewer, and searches for them among the others.
pub fn common_nodes(alloc: Global, known: &Known<'_>, name: &str, other: &str) -> Mem<Uids>
    ensures { IfOk result (λ uids. uids ≡ common (nodes_named known.now.names known.now.vars.now.variables name.now) (nodes_named known.now.names known.now.vars.now.variables other.now)) }
{
    let place = known.names.place(name);
    common_of(alloc, known.vars, place, known.names.place(other))
}

/// The value of the variable of a name at a node; none exactly where there is none. It looks by halves.
pub fn value_named<'a>(known: &'a Known<'_>, name: &str, node: u64) -> Option<&'a Value>
    ensures { option_copied result ≡ value_named known.now.names known.now.vars.now.variables name.now node }
{
    value_at(known.vars, known.names.place(name), node)
}
