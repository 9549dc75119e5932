// The operations from one list to another, in one pass over both.
ghost use Rattle.std.specs.Prelude.{◌≡◌, ◌++◌, IfOk, map};
ghost use Rattle.dg_values.specs.Ascending.{Ascends};
ghost use Rattle.dg_values.specs.Order.{posting_cmp};
ghost use Rattle.dg_delta.specs.declared.op.Op.TheVariants as ops;
ghost use Rattle.dg_delta.specs.Ops.{changes_between};

use dg_delta::Op;
use dg_sets::InOrder;
use dg_values::{Mem, OutOfMemory, Posting};
use std::alloc::Global;
use std::cmp::Ordering;

// Adds that each of these is taken out.
fn push_lost(alloc: Global, found: &mut Vec<Op>, lost: &[Posting]) -> Mem<()>
    ensures { IfOk result (λ u. found.new.items ≡ found.old.items ++ map ops.Del lost.now) }
{
    for posting in lost {
        found.push(Op::Del(posting.copy(alloc)?))?;
    }
    Ok(())
}

// Adds that each of these is put in.
fn push_gained(alloc: Global, found: &mut Vec<Op>, gained: &[Posting]) -> Mem<()>
    ensures { IfOk result (λ u. found.new.items ≡ found.old.items ++ map ops.Set gained.now) }
{
    for posting in gained {
        found.push(Op::Set(posting.copy(alloc)?))?;
    }
    Ok(())
}

/// The operations from one ascending list to another, ascending by posting. The error is want of memory.
pub fn between(alloc: Global, old: &[Posting], new: &[Posting]) -> Mem<Vec<Op>>
    requires old_ascends { Ascends posting_cmp old.now }
    requires new_ascends { Ascends posting_cmp new.now }
    ensures { IfOk result (λ v. v.items ≡ changes_between old.now new.now) }
{
    let mut found = Vec::new(alloc);
    let mut lost = 0;
    let mut gained = 0;
    while lost < old.len() && gained < new.len() {
        let before = &old[lost];
        let after = &new[gained];
        match before.compare(after) {
            Ordering::Less => {
                found.push(Op::Del(before.copy(alloc)?))?;
                lost += 1;
            }
            Ordering::Equal => {
                lost += 1;
                gained += 1;
            }
            Ordering::Greater => {
                found.push(Op::Set(after.copy(alloc)?))?;
                gained += 1;
            }
        }
    }
    push_lost(alloc, &mut found, &old[lost..])?;
    push_gained(alloc, &mut found, &new[gained..])?;
    Ok(found)
}
