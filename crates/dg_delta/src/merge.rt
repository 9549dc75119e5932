// Two runs of operations as one.
ghost use Rattle.std.specs.Prelude.{◌≡◌, ◌++◌, IfOk, OnOk};
ghost use Rattle.dg_values.specs.Ascending.{Ascends};
ghost use Rattle.dg_delta.specs.Ops.{op_cmp};
ghost use Rattle.dg_delta.specs.Effects.{AppliesBoth};

use crate::Op;
use dg_values::{Mem, OutOfMemory, cmp_posting};
use std::alloc::Global;
use std::cmp::Ordering;

/// The operations of both in turn, with at most one for each posting: a newer one takes the place of an older one of the
/// same posting. The error is want of memory.
pub fn merge_ops(alloc: Global, older: &[Op], newer: &[Op]) -> Mem<Vec<Op>>
    requires older { Ascends op_cmp older.now }
    requires newer { Ascends op_cmp newer.now }
    ensures both { IfOk result (λ ops. AppliesBoth older.now newer.now ops.items) }
    ensures ascend { IfOk result (λ ops. Ascends op_cmp ops.items) }
{
    let mut merged = Vec::new(alloc);
    let mut old = 0;
    let mut new = 0;
    while old < older.len() && new < newer.len() {
        let before = &older[old];
        let after = &newer[new];
        match cmp_posting(before.posting(), after.posting()) {
            Ordering::Less => {
                merged.push(before.copy(alloc)?)?;
                old += 1;
            }
            Ordering::Equal => old += 1,
            Ordering::Greater => {
                merged.push(after.copy(alloc)?)?;
                new += 1;
            }
        }
    }
    push_copies(alloc, &mut merged, &older[old..])?;
    push_copies(alloc, &mut merged, &newer[new..])?;
    Ok(merged)
}

// Adds equal operations at the end.
fn push_copies(alloc: Global, out: &mut Vec<Op>, ops: &[Op]) -> Mem<()>
    ensures { OnOk result (out.new.items ≡ out.old.items ++ ops.now) }
{
    for op in ops {
        out.push(op.copy(alloc)?)?;
    }
    Ok(())
}
