// What operations make of a list.
ghost use Rattle.std.specs.Prelude.{[], ◌≡◌, ◌++◌, IfOk, OnOk};
ghost use Rattle.dg_values.specs.Ascending.{Ascends};
ghost use Rattle.dg_values.specs.Order.{posting_cmp};
ghost use Rattle.dg_delta.specs.Ops.{op_cmp, after_ops};
ghost use Rattle.dg_delta.specs.Effects.{put_by_all};

use crate::Op;
use dg_values::{Mem, OutOfMemory, Posting, cmp_posting};
use std::alloc::Global;
use std::cmp::Ordering;

/// The list after the operations, in one pass over both. The error is want of memory.
pub fn apply(alloc: Global, postings: &[Posting], ops: &[Op]) -> Mem<Vec<Posting>>
    requires postings { Ascends posting_cmp postings.now }
    requires ops { Ascends op_cmp ops.now }
    ensures after { IfOk result (λ list. list.items ≡ after_ops postings.now ops.now) }
    ensures ascend { IfOk result (λ list. Ascends posting_cmp list.items) }
{
    let mut list = Vec::new(alloc);
    let mut at = 0;
    let mut done = 0;
    while at < postings.len() && done < ops.len() {
        let posting = &postings[at];
        let op = &ops[done];
        match cmp_posting(op.posting(), posting) {
            Ordering::Less => {
                op.put_into(alloc, &mut list)?;
                done += 1;
            }
            Ordering::Equal => {
                op.put_into(alloc, &mut list)?;
                done += 1;
                at += 1;
            }
            Ordering::Greater => {
                list.push(posting.copy(alloc)?)?;
                at += 1;
            }
        }
    }
    push_copies(alloc, &mut list, &postings[at..])?;
    put_all(alloc, &mut list, &ops[done..])?;
    Ok(list)
}

/// The postings that ascending operations put in, which are what they make of the empty list. The error is want of memory.
pub fn put_in(alloc: Global, ops: &[Op]) -> Mem<Vec<Posting>>
    requires { Ascends op_cmp ops.now }
    ensures after { IfOk result (λ list. list.items ≡ after_ops [] ops.now) }
    ensures ascend { IfOk result (λ list. Ascends posting_cmp list.items) }
{
    let mut list = Vec::new(alloc);
    put_all(alloc, &mut list, ops)?;
    Ok(list)
}

// Adds equal postings at the end.
fn push_copies(alloc: Global, list: &mut Vec<Posting>, postings: &[Posting]) -> Mem<()>
    ensures { OnOk result (list.new.items ≡ list.old.items ++ postings.now) }
{
    for posting in postings {
        list.push(posting.copy(alloc)?)?;
    }
    Ok(())
}

// Adds at the end what the operations put in.
fn put_all(alloc: Global, list: &mut Vec<Posting>, ops: &[Op]) -> Mem<()>
    ensures { OnOk result (list.new.items ≡ list.old.items ++ put_by_all ops.now) }
{
    for op in ops {
        op.put_into(alloc, list)?;
    }
    Ok(())
}
