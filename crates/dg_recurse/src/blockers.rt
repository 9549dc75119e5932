// Blockers: the nodes of the path that close nearer ways from a place.
ghost use Rattle.std.specs.Prelude.{◌≡◌, true, [], IfOk, OnOk};
ghost use Rattle.dg_recurse.specs.Unfolding.{is_on};
ghost use Rattle.dg_recurse.specs.Ways.{Covers, are_on, is_far, are_far, are_far_from};

use crate::way::Way;
use crate::{Column, Reach};
use dg_values::{List, Mem, OutOfMemory};

// Adds a node, if it isn't there.
fn add(blockers: &mut List<usize>, node: usize) -> Mem<()>
    ensures kept { OnOk result (Covers blockers.old blockers.new) }
    ensures there { OnOk result (is_on blockers.new node ≡ true) }
{
    if !blockers.as_slice().contains(&node) {
        blockers.push(node)?;
    }
    Ok(())
}

// Adds those nodes of a list that aren't there.
fn add_all(blockers: &mut List<usize>, nodes: &[usize]) -> Mem<()>
    ensures kept { OnOk result (Covers blockers.old blockers.new) }
    ensures there { OnOk result (are_on blockers.new nodes.now ≡ true) }
{
    for node in nodes {
        add(blockers, *node)?;
    }
    Ok(())
}

// Adds the blockers of a node that is on the path or so far: itself where it is on the path, those of what was learned of it, or
// none where it is so far on any path.
fn add_for(reach: &Reach, way: &Way, edges: u8, node: usize, blockers: &mut List<usize>) -> Mem<()>
    requires { is_far reach.now.edges way.now.path.items way.now.raised.items edges node ≡ true }
    ensures kept { OnOk result (Covers blockers.old blockers.new) }
    ensures far { OnOk result (is_far reach.now.edges blockers.new way.now.raised.items edges node ≡ true) }
{
    if reach.edges(node) >= edges {
        return Ok(());
    }
    if way.is_on(node) {
        return add(blockers, node);
    }
    add_all(blockers, way.blockers(node))
}

// Adds the blockers of all nodes of a list, each of which is on the path or so far.
fn add_for_all(
    reach: &Reach,
    way: &Way,
    edges: u8,
    nodes: &[usize],
    blockers: &mut List<usize>,
) -> Mem<()>
    requires { are_far reach.now.edges way.now.path.items way.now.raised.items edges nodes.now ≡ true }
    ensures kept { OnOk result (Covers blockers.old blockers.new) }
    ensures far { OnOk result (are_far reach.now.edges blockers.new way.now.raised.items edges nodes.now ≡ true) }
{
    for node in nodes {
        add_for(reach, way, edges, *node, blockers)?;
    }
    Ok(())
}

/// The blockers of all nodes to which columns lead from a place, each of which is on the path or so far: so it is on whatever path
/// has these blockers on it. None of them stands there twice, and all are on the path. The error is want of memory.
pub fn blockers_of(
    columns: &[Column],
    reach: &Reach,
    way: &Way,
    edges: u8,
    place: usize,
) -> Mem<List<usize>>
    requires { are_far_from columns.now reach.now.edges way.now.path.items way.now.raised.items edges place ≡ true }
    ensures { IfOk result (λ blockers. are_far_from columns.now reach.now.edges blockers way.now.raised.items edges place ≡ true) }
{
    let mut blockers = List::new(way.alloc);
    for column in columns {
        add_for_all(reach, way, edges, column.nodes(place), &mut blockers)?;
    }
    Ok(blockers)
}
