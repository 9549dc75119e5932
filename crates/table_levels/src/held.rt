// At which nodes the filters of a block hold, each node asked by itself.
ghost use Rattle.std.specs.Prelude.{◌≡◌, ◌<◌};

use crate::asked::{no_variables, nodes_in, plan_of};
use crate::ground::Ground;
use dg_check::{Filter, Parts, Vars};
use dg_funcs::holds;
use dg_graph::Plain;
use dg_values::{Mem, OutOfMemory, Steps};
use std::alloc::Global;
use std::marker::Brand;
use std::sync::ledger::{Blank, Ledger};

// Whether each filter holds at a node.
fn all_hold<L: Ledger>(
    alloc: Global,
    at: &Plain,
    node: u64,
    filters: &[Filter],
    vars: &Vars,
    reads: &mut Steps<L>,
) -> Mem<bool> {
    for filter in filters {
        if !holds(alloc, at, node, filter, vars, reads)? {
            return Ok(false);
        }
    }
    Ok(true)
}

// The nodes of a block's root at which its filters hold, with a blank between any two.
fn held_text<L: Ledger>(alloc: Global, at: &Plain, kept: &Parts, blank: Blank) -> Mem<String>
    requires name { blank.name ≡ L.name }
    requires parts { blank.parts ≡ L.parts }
    requires some { 0 < blank.parts }
{
    let mut reads = Steps::<L>::new(blank);
    let vars = no_variables(alloc);
    let nodes = nodes_in(alloc, at, kept, &vars, &mut reads)?;
    let mut text = String::new(alloc);
    for node in nodes.as_slice() {
        if all_hold(alloc, at, *node, kept.filters.as_slice(), &vars, &mut reads)? {
            text.push_str(if text.is_empty() { "" } else { " " })?;
            text.push_str(node.to_string(alloc)?.as_str())?;
        }
    }
    Ok(text)
}

/// `QUERY`: the nodes of its first block's root at which the block's filters hold.
pub(crate) fn nodes(alloc: Global, ground: &Ground, text: &str) -> Mem<Option<String>> {
    let Some(plan) = plan_of(alloc, ground, text)? else {
        return Ok(None);
    };
    match plan.parts.as_slice().first() {
        Some(kept) => Ok(Some(held_text::<Brand>(alloc, &ground.at, kept, Blank::new(1))?)),
        None => Ok(None),
    }
}
