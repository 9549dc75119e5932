// Two runs of operations on a list as one, where the second goes on from where the first leads.
ghost use Rattle.std.specs.Prelude.{◌≡◌, ◌++◌, IfOk, OnOk};
ghost use Rattle.dg_values.specs.Ascending.{Ascends};
ghost use Rattle.dg_delta.specs.Ops.{op_cmp};
ghost use Rattle.dg_txn.specs.Gains as gains;

use dg_delta::Op;
use dg_values::{Mem, OutOfMemory, cmp_posting};
use std::alloc::Global;
use std::cmp::Ordering;

// The operations of both, without two on one posting, which undo each other. The error is want of memory.
pub fn composed(alloc: Global, own: &[Op], step: &[Op]) -> Mem<Vec<Op>>
    requires own { Ascends op_cmp own.now }
    requires step { Ascends op_cmp step.now }
    ensures { IfOk result (λ v. v.items ≡ gains.composed own.now step.now) }
{
    let mut ops = Vec::with_capacity(alloc, step.len())?;
    let mut before = 0;
    let mut after = 0;
    while before < own.len() && after < step.len() {
        let one = &own[before];
        let other = &step[after];
        match cmp_posting(one.posting(), other.posting()) {
            Ordering::Less => {
                ops.push(one.copy(alloc)?)?;
                before += 1;
            }
            Ordering::Equal => {
                before += 1;
                after += 1;
            }
            Ordering::Greater => {
                ops.push(other.copy(alloc)?)?;
                after += 1;
            }
        }
    }
    push_copies(alloc, &mut ops, &own[before..])?;
    push_copies(alloc, &mut ops, &step[after..])?;
    Ok(ops)
}

// Adds equal operations at the end.
pub fn push_copies(alloc: Global, out: &mut Vec<Op>, ops: &[Op]) -> Mem<()>
    ensures { OnOk result (out.new.items ≡ out.old.items ++ ops.now) }
{
    for op in ops {
        out.push(op.copy(alloc)?)?;
    }
    Ok(())
}
