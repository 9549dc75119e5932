// A search for a place that shows something of itself, off the path.
ghost use Rattle.std.specs.Prelude.{◌≡◌, ◌≤◌, ◌<◌, ℕ, true, false, [], max, ◌↔◌, IsTrue, slice_index_or, IfOk, OnOk};
ghost use Rattle.dg_recurse.specs.Unfolding.{is_on};
ghost use Rattle.dg_recurse.specs.Written.{child_at, IsDry};
ghost use Rattle.dg_recurse.specs.Near.{AreLeast};
ghost use Rattle.dg_recurse.specs.Ways.{IsSoundWay, IsKept, far_at, is_far, are_far, are_far_from};

use crate::blockers::blockers_of;
use crate::way::{Raised, Way};
use crate::{Column, Reach};
use dg_values::{Mem, OutOfMemory};

// The nearest of some nodes, and how many edges it is away at least.
#[derive(Clone, Copy)]
struct Nearest {
    edges: u8,
    node: usize,
}

// How many edges a place is away at least from one that shows something of itself.
fn edges_of(reach: &Reach, way: &Way, place: usize) -> u8
    ensures { result ≡ far_at reach.now.edges way.now.path.items way.now.raised.items place }
{
    reach.edges(place).max(way.edges(place))
}

/// Whether a node is farther than so many edges from any place that shows something of itself, off the path.
pub fn is_too_far(reach: &Reach, way: &Way, left: u32, node: usize) -> bool
    ensures { IsTrue result ↔ (left < far_at reach.now.edges way.now.path.items way.now.raised.items node) }
{
    u32::from(reach.edges(node)) > left || u32::from(way.edges(node)) > left
}

// A node, if it is off the path and nearer than the one given.
fn nearer(reach: &Reach, way: &Way, node: usize, given: Nearest) -> Nearest
    ensures edges { result.edges ≤ given.edges }
    ensures far { is_far reach.now.edges way.now.path.items way.now.raised.items result.edges node ≡ true }
{
    if reach.edges(node) >= given.edges {
        return given;
    }
    let edges = edges_of(reach, way, node);
    if edges >= given.edges || way.is_on(node) {
        return given;
    }
    Nearest { edges, node }
}

// The nearest of these nodes that is off the path, or the one given, where none is nearer; or one that is near enough.
fn nearest_of(reach: &Reach, way: &Way, nodes: &[usize], given: Nearest, enough: u8) -> Nearest
    ensures edges { result.edges ≤ given.edges }
    ensures far { enough ≤ result.edges → are_far reach.now.edges way.now.path.items way.now.raised.items result.edges nodes.now ≡ true }
{
    let mut best = given;
    for node in nodes {
        best = nearer(reach, way, *node, best);
        if best.edges < enough {
            return best;
        }
    }
    best
}

// The nearest node to which columns lead from a place, off the path, or one that is nearer than `enough`. Where there is none it is
// farther than any.
fn nearest_from(columns: &[Column], reach: &Reach, way: &Way, place: usize, enough: u8) -> Nearest
    ensures { enough ≤ result.edges → are_far_from columns.now reach.now.edges way.now.path.items way.now.raised.items result.edges place ≡ true }
{
    let mut best = Nearest {
        edges: u8::MAX,
        node: place,
    };
    for column in columns {
        best = nearest_of(reach, way, column.nodes(place), best, enough);
    }
    best
}

// Learns that a place is an edge farther than all to which it leads, each of which is on the path or so far. The error is want of
// memory.
fn learn(columns: &[Column], reach: &Reach, way: &mut Way, place: usize, edges: u8) -> Mem<()>
    requires near { AreLeast reach.now columns.now }
    requires sound { IsSoundWay columns.now way.old }
    requires bare { 0 < slice_index_or reach.now.edges place 0 }
    requires far { are_far_from columns.now reach.now.edges way.old.path.items way.old.raised.items edges place ≡ true }
    ensures kept { OnOk result (IsKept columns.now way.old way.new) }
{
    let blockers = blockers_of(columns, reach, way, edges, place)?;
    let found = Raised {
        edges: edges.saturating_add(1),
        blockers,
    };
    way.learn(reach.len(), place, found)
}

// Goes on from a node to the nearest, until one shows something of itself. Where a place isn't nearer than all to which it leads, it
// learns how far that place is, and begins again.
fn search(columns: &[Column], reach: &Reach, way: &mut Way, left: u32, node: usize) -> Mem<bool>
    requires near { AreLeast reach.now columns.now }
    requires sound { IsSoundWay columns.now way.old }
    ensures kept { OnOk result (IsKept columns.now way.old way.new) }
    ensures dry { IfOk result (λ shows. shows ≡ false → IsDry columns.now way.old.path.items left node) }
{
    let mut place = node;
    for _step in 0..u64::MAX {
        if is_too_far(reach, way, left, node) {
            return Ok(false);
        }
        if reach.edges(place) == 0 {
            return Ok(true);
        }
        let edges = edges_of(reach, way, place);
        let nearest = nearest_from(columns, reach, way, place, edges);
        if nearest.edges < edges {
            place = nearest.node;
        } else {
            learn(columns, reach, way, place, nearest.edges)?;
            place = node;
        }
    }
    Ok(true)
}

/// Whether a node to which an edge leads is off the path and shows something, where so many edges more may be followed.
pub fn may_show(
    columns: &[Column],
    reach: &Reach,
    way: &mut Way,
    left: u32,
    node: usize,
) -> Mem<bool>
    requires near { AreLeast reach.now columns.now }
    requires sound { IsSoundWay columns.now way.old }
    ensures kept { OnOk result (IsKept columns.now way.old way.new) }
    ensures none { IfOk result (λ shows. shows ≡ false → child_at columns.now left way.old.path.items node ≡ []) }
    ensures off { IfOk result (λ shows. shows ≡ true → is_on way.old.path.items node ≡ false) }
{
    if is_too_far(reach, way, left, node) || way.is_on(node) {
        return Ok(false);
    }
    search(columns, reach, way, left, node)
}
