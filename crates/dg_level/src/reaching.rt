// The nodes that a recursion reaches, and what is fetched of them.
ghost use Rattle.std.specs.Prelude.{◌≡◌, ◌&&◌, ◌++◌, ◌∷◌, [], ℕ, true, not, List as Items, IfOk, OnOk};
ghost use Rattle.std.specs.Ordering.{nat_cmp};
ghost use Rattle.dg_values.specs.Ascending.{has};
ghost use Rattle.dg_graph.specs.declared.change.Triple.{Triple};
ghost use Rattle.dg_check.specs.declared.vars.Variable.{Variable as Known};
ghost use Rattle.dg_level.specs.Looping.{PieceOf, planned_pieces, pieces_by, AreFetched};
ghost use Rattle.dg_level.specs.Reaching.{one_step, is_near, AreSteps, Reaches};

use crate::looped::{Fetched, fetched_all, level_below};
use dg_check::{Field, Vars};
use dg_graph::Snapshot;
use dg_parse::QField;
use dg_uids::Uids;
use dg_values::{Mem, OutOfMemory, Steps};
use std::alloc::Global;
use std::sync::ledger::Ledger;

/// The nodes so many edges from the roots and no fewer, with what was fetched of them.
#[derive(Drop)]
pub struct Step {
    /// The nodes.
    pub nodes: Uids,
    /// What was fetched of them for each field.
    pub all: Vec<Fetched>,
}

/// What a recursion reaches.
#[derive(Drop)]
pub struct Found {
    /// All nodes, those at which it ends among them.
    pub set: Uids,
    /// What was fetched of those from which it goes on, step by step.
    pub steps: Vec<Step>,
}

// What is fetched of some nodes.
fn step_of<S: Snapshot, L: Ledger>(
    alloc: Global,
    snap: &S,
    fields: &[QField],
    kept: &[Field],
    vars: &Vars,
    nodes: &Uids,
    reads: &mut Steps<L>,
) -> Mem<Step>
    ensures nodes { IfOk result (λ step. step.nodes ≡ nodes.now) }
    ensures fetched { IfOk result (λ step. AreFetched (S.graph snap.now) vars.now.variables step.nodes step.all.items (planned_pieces true (S.declared snap.now) (S.graph snap.now) vars.now.variables fields.now kept.now)) }
{
    let slice = nodes.as_slice();
    let all = fetched_all(alloc, snap, true, fields, kept, vars, slice, reads)?;
    let copy = nodes.copy(alloc)?;
    Ok(Step { nodes: copy, all })
}

// The nodes to which those of a step lead, without those that were found before.
fn new_ones(alloc: Global, step: &Step, found: &Uids) -> Mem<Uids>
    ensures { (graph : Items Triple) (vars : Items Known) (pieces : Items PieceOf) → AreFetched graph vars step.now.nodes step.now.all.items pieces
        → IfOk result (λ uids. (u : ℕ) → has nat_cmp uids u ≡ (not (has nat_cmp found.now u) && has nat_cmp (one_step (pieces_by pieces) step.now.nodes) u)) }
{
    let next = level_below(alloc, step.all.as_slice())?;
    next.without(alloc, found)
}

// Adds a step.
fn add(steps: &mut Vec<Step>, step: Step) -> Mem<()>
    ensures { OnOk result (steps.new.items ≡ steps.old.items ++ step ∷ []) }
{
    Ok(steps.push(step)?)
}

/// All nodes at most so many edges from the roots, with what is fetched of those that are nearer: of each node once. The error is
/// want of memory.
pub fn reached<S: Snapshot, L: Ledger>(
    alloc: Global,
    snap: &S,
    edges: u32,
    fields: &[QField],
    kept: &[Field],
    vars: &Vars,
    roots: &Uids,
    reads: &mut Steps<L>,
) -> Mem<Found>
    ensures fetched { IfOk result (λ found. AreSteps (S.graph snap.now) vars.now.variables (planned_pieces true (S.declared snap.now) (S.graph snap.now) vars.now.variables fields.now kept.now) found.steps.items) }
    ensures reaches { IfOk result (λ found. Reaches (pieces_by (planned_pieces true (S.declared snap.now) (S.graph snap.now) vars.now.variables fields.now kept.now)) edges roots.now (is_near found.steps.items) found.set) }
{
    let mut steps = Vec::new(alloc);
    let mut set = roots.copy(alloc)?;
    let mut fresh = roots.copy(alloc)?;
    for _round in 0..edges {
        let step = step_of(alloc, snap, fields, kept, vars, &fresh, reads)?;
        fresh = new_ones(alloc, &step, &set)?;
        set = set.or(alloc, &fresh)?;
        add(&mut steps, step)?;
    }
    Ok(Found { set, steps })
}
