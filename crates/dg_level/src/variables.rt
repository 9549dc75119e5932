// What the variables of a plan stand for, block by block.
ghost use Rattle.std.specs.Prelude.{◌≡◌, fold, replicate, slice_set, IfOk};
ghost use Rattle.dg_graph.specs.Graphs.{IsLawful};
ghost use Rattle.dg_level.specs.Given.{unknown, with_known};
ghost use Rattle.dg_level.specs.PlannedGiven.{planned_gives, planned_at_place, planned_in_order};

use crate::blocks::planned_nodes;
use crate::defining::defines;
use crate::given::{push_given, push_nodes, unknown};
use crate::whole::level_of;
use dg_check::{Parts, Variable, Vars};
use dg_graph::Snapshot;
use dg_parse::QBlock;
use dg_values::{List, Mem, OutOfMemory, Steps};
use std::alloc::Global;
use std::sync::ledger::Ledger;

// So many variables of which nothing is known.
fn all_unknown(alloc: Global, count: usize) -> Mem<Vec<Variable>>
    ensures { IfOk result (λ made. made.items ≡ replicate count unknown) }
{
    let mut made = Vec::new(alloc);
    for _made in 0..count {
        made.push(unknown(alloc))?;
    }
    Ok(made)
}

// Puts a variable at its place. One that has none changes nothing.
fn set_known(variables: &mut Vec<Variable>, place: usize, variable: Variable)
    ensures { variables.new.items ≡ slice_set variables.old.items place variable }
{
    if place < variables.len() {
        variables[place] = variable;
    }
}

// Puts variables at their places, one after the other.
fn set_each(variables: &mut Vec<Variable>, known: Vec<(usize, Variable)>)
    ensures { variables.new.items ≡ fold with_known variables.old.items known.items }
{
    for (place, variable) in known {
        set_known(variables, place, variable);
    }
}

// Variables, of which some more are known.
fn with_all(vars: Vars, known: Vec<(usize, Variable)>) -> Vars
    ensures { result.variables ≡ fold with_known vars.variables known.items }
{
    let mut variables = vars.variables.into_vec();
    set_each(&mut variables, known);
    Vars {
        variables: List::from_vec(variables),
    }
}

// What a block makes known, given what those before it did. One that defines no variable isn't run.
fn known_by<S: Snapshot, L: Ledger>(
    alloc: Global,
    snap: &S,
    block: &QBlock,
    kept: &Parts,
    vars: &Vars,
    reads: &mut Steps<L>,
) -> Mem<Vec<(usize, Variable)>>
    ensures { IsLawful (S.declared snap.now) (S.graph snap.now) → IfOk result (λ known. known.items ≡ planned_gives (S.declared snap.now) (S.graph snap.now) vars.now.variables block.now kept.now) }
{
    let mut known = Vec::new(alloc);
    if !defines(kept.var, kept.fields.as_slice()) {
        return Ok(known);
    }
    let list = planned_nodes(alloc, snap, block.args.as_slice(), kept, vars, reads)?;
    let nodes = level_of(alloc, list.as_slice())?;
    push_nodes(alloc, kept.var, &nodes, &mut known)?;
    push_given(
        alloc,
        snap,
        block.fields.as_slice(),
        kept.fields.as_slice(),
        vars,
        &nodes,
        &mut known,
        reads,
    )?;
    Ok(known)
}

// The variables once the block at a place has run.
fn run_at<S: Snapshot, L: Ledger>(
    alloc: Global,
    snap: &S,
    blocks: &[QBlock],
    kept: &[Parts],
    at: usize,
    vars: Vars,
    reads: &mut Steps<L>,
) -> Mem<Vars>
    ensures { IsLawful (S.declared snap.now) (S.graph snap.now) → IfOk result (λ after. after.variables ≡ planned_at_place (S.declared snap.now) (S.graph snap.now) blocks.now kept.now vars.variables at) }
{
    let Some(block) = blocks.get(at) else {
        return Ok(vars);
    };
    let Some(part) = kept.get(at) else {
        return Ok(vars);
    };
    let known = known_by(alloc, snap, block, part, &vars, reads)?;
    Ok(with_all(vars, known))
}

/// What so many variables stand for once the blocks of a plan have run in an order, each with what those before it made known.
///
/// Blocks that define no variable are not run, and nothing is looked up for fields that define none. The error is want of memory.
pub fn variables_in_order<S: Snapshot, L: Ledger>(
    alloc: Global,
    snap: &S,
    blocks: &[QBlock],
    kept: &[Parts],
    order: &[usize],
    count: usize,
    reads: &mut Steps<L>,
) -> Mem<Vars>
    ensures { IsLawful (S.declared snap.now) (S.graph snap.now) → IfOk result (λ vars. vars.variables ≡ planned_in_order (S.declared snap.now) (S.graph snap.now) count blocks.now kept.now order.now) }
{
    let mut vars = Vars {
        variables: List::from_vec(all_unknown(alloc, count)?),
    };
    for at in order {
        vars = run_at(alloc, snap, blocks, kept, *at, vars, reads)?;
    }
    Ok(vars)
}
