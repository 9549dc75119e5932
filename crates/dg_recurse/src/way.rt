// The path of a walk, and what was learned on the way.
ghost use Rattle.std.specs.Prelude.{◌≡◌, ◌⊎◌, ◌<◌, ℕ, [], ◌∷◌, ◌++◌, List, slice_index_or, slice_set, IfOk, OnOk};
ghost use Rattle.dg_recurse.specs.Unfolding.{is_on};
ghost use Rattle.dg_recurse.specs.Ways.{no_raise, are_on, raise_at, raised_at, IsLearned, IsAtNone};
ghost use Rattle.dg_recurse.specs.declared.column.Column.{Column};

use dg_values::{List, Mem, OutOfMemory};
use std::alloc::Global;

/// How far a place is, as was learned: none that shows something of itself is nearer, off whatever path has its blockers on it.
#[derive(Drop)]
pub struct Raised {
    /// The edges to it.
    pub edges: u8,
    /// The nodes that close nearer ways when they are on the path, none of them twice.
    pub blockers: List<usize>,
}

/// A path from the root to a node, itself on it, and what was learned of places. That stays true wherever the path goes, and counts
/// whenever its blockers are on the path, so that leaving a node forgets nothing.
#[derive(Drop)]
pub struct Way {
    /// What it takes memory from.
    pub(crate) alloc: Global,
    /// The nodes.
    pub(crate) path: Vec<usize>,
    /// What was learned last of each place, or nothing yet.
    pub(crate) raised: Vec<Raised>,
}

// Whether all nodes of a list are on a path.
fn are_on(path: &[usize], nodes: &[usize]) -> bool
    ensures { result ≡ are_on path.now nodes.now }
{
    nodes.iter().all(|node| path.contains(node))
}

// The edges of what was learned, where its blockers are on the path.
fn edges_by(path: &[usize], found: &Raised) -> u8
    ensures { result ≡ raise_at path.now found.now }
{
    if are_on(path, found.blockers.as_slice()) {
        found.edges
    } else {
        0
    }
}

// The edges of what was learned of a place.
fn edges_at(path: &[usize], raised: &[Raised], place: usize) -> u8
    ensures { result ≡ raised_at path.now raised.now place }
{
    match raised.get(place) {
        Some(found) => edges_by(path, found),
        None => 0,
    }
}

// The blockers of what was learned of a place.
fn blockers_at(raised: &[Raised], place: usize) -> &[usize]
    ensures { result.now ≡ (slice_index_or raised.now place no_raise).blockers }
{
    match raised.get(place) {
        Some(found) => found.blockers.as_slice(),
        None => &[],
    }
}

// Puts what was learned of a place at it, if there is room for that place. What was there is let go.
fn put(raised: &mut Vec<Raised>, place: usize, found: Raised)
    ensures { raised.new.items ≡ slice_set raised.old.items place found }
{
    if place < raised.len() {
        raised[place] = found;
    }
}

// Nothing learned yet, of so many places.
fn unlearned(alloc: Global, count: usize) -> Mem<Vec<Raised>>
    ensures { IfOk result (λ raised. (n : ℕ) → slice_index_or raised.items n no_raise ≡ no_raise) }
{
    let mut raised = Vec::with_capacity(alloc, count)?;
    for _place in 0..count {
        raised.push(Raised {
            edges: 0,
            blockers: List::new(alloc),
        })?;
    }
    Ok(raised)
}

// Makes room for what is learned of so many places.
fn ready(alloc: Global, raised: &mut Vec<Raised>, count: usize) -> Mem<()>
    ensures { OnOk result ((n : ℕ) → slice_index_or raised.new.items n no_raise ≡ slice_index_or raised.old.items n no_raise) }
{
    if raised.is_empty() {
        *raised = unlearned(alloc, count)?;
    }
    Ok(())
}

impl Way {
    /// No node.
    pub fn new(alloc: Global) -> Way
        ensures { (fetched : List Column) → IsAtNone fetched result }
    {
        Way {
            alloc,
            path: Vec::new(alloc),
            raised: Vec::new(alloc),
        }
    }

    /// Whether a node is on the path.
    pub(crate) fn is_on(&self, node: usize) -> bool
        ensures { result ≡ is_on self.now.path.items node }
    {
        self.path.contains(&node)
    }

    /// How many edges a place is away at least, as was learned, where its blockers are on the path.
    pub(crate) fn edges(&self, place: usize) -> u8
        ensures { result ≡ raised_at self.now.path.items self.now.raised.items place }
    {
        edges_at(self.path.as_slice(), self.raised.as_slice(), place)
    }

    /// The blockers of what was learned of a place.
    pub(crate) fn blockers(&self, place: usize) -> &[usize]
        ensures { result.now ≡ (slice_index_or self.now.raised.items place no_raise).blockers }
    {
        blockers_at(self.raised.as_slice(), place)
    }

    /// Learns how far a place is, one of so many, in place of what was learned of it before. The error is want of memory.
    pub(crate) fn learn(&mut self, count: usize, place: usize, found: Raised) -> Mem<()>
        ensures path { self.new.path ≡ self.old.path }
        ensures raised { OnOk result (IsLearned self.old.raised.items self.new.raised.items place found) }
    {
        ready(self.alloc, &mut self.raised, count)?;
        put(&mut self.raised, place, found);
        Ok(())
    }

    /// Enters a node.
    pub(crate) fn enter(&mut self, node: usize) -> Mem<()>
        ensures path { OnOk result (self.new.path.items ≡ self.old.path.items ++ node ∷ []) }
        ensures raised { self.new.raised ≡ self.old.raised }
    {
        self.path.push(node)?;
        Ok(())
    }

    /// Leaves the last node.
    pub(crate) fn leave(&mut self)
        ensures path { (front : List ℕ) (node : ℕ) → self.old.path.items ≡ front ++ node ∷ [] → self.new.path.items ≡ front }
        ensures raised { self.new.raised ≡ self.old.raised }
    {
        self.path.pop();
    }
}
