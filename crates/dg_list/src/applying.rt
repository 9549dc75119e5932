// What ranked operations make of a list that is handed over.
ghost use Rattle.std.specs.Prelude.{[], ◌≡◌, ◌≤◌, ◌∷◌, ◌++◌, if◌then◌else◌, IfOk, OnOk, length, drop};
ghost use Rattle.dg_values.specs.Ascending.{Ascends};
ghost use Rattle.dg_values.specs.Order.{posting_cmp};
ghost use Rattle.dg_delta.specs.Ops.{op_cmp, after_ops};
ghost use Rattle.dg_delta.specs.Effects.{put_by_all, GoesOn};

use crate::ranked::Ranked;
use dg_values::{Mem, OutOfMemory, Posting};
use std::alloc::Global;
use std::cmp::Ordering;

// The list after the operations, in one pass over both. The postings that stay are moved.
pub(crate) fn apply_ranked(
    alloc: Global,
    postings: Vec<Posting>,
    ops: &[Ranked],
) -> Mem<Vec<Posting>>
    requires postings { Ascends posting_cmp postings.items }
    requires ops { Ascends op_cmp ops.now }
    ensures after { IfOk result (λ list. list.items ≡ after_ops postings.items ops.now) }
    ensures ascend { IfOk result (λ list. Ascends posting_cmp list.items) }
{
    let mut list = Vec::with_capacity(alloc, postings.len().max(ops.len()))?;
    let mut done = 0;
    for posting in postings {
        done = put_next(alloc, &mut list, posting, ops, done)?;
    }
    put_rest(alloc, &mut list, &ops[done..])?;
    Ok(list)
}

// Adds the next posting at the end, behind what operations up to it put in, and not where one of them is on it. Answers how
// many operations are done then.
fn put_next(
    alloc: Global,
    list: &mut Vec<Posting>,
    posting: Posting,
    ops: &[Ranked],
    done: usize,
) -> Mem<usize>
    requires ops { Ascends op_cmp ops.now }
    requires done { done ≤ length ops.now }
    ensures within { IfOk result (λ next. next ≤ length ops.now) }
    ensures on { IfOk result (λ next. GoesOn posting list.old.items (drop done ops.now) list.new.items (drop next ops.now)) }
{
    let (next, stays) = put_upto(alloc, list, &posting, ops, done)?;
    if stays {
        list.push(posting)?;
    }
    Ok(next)
}

// Adds at the end what operations up to a posting put in. Answers how many are done then, and whether none is on it.
fn put_upto(
    alloc: Global,
    list: &mut Vec<Posting>,
    posting: &Posting,
    ops: &[Ranked],
    done: usize,
) -> Mem<(usize, bool)>
    requires ops { Ascends op_cmp ops.now }
    requires done { done ≤ length ops.now }
    ensures within { IfOk result (λ r. r.0 ≤ length ops.now) }
    ensures on { IfOk result (λ r. GoesOn posting.now list.old.items (drop done ops.now) (list.new.items ++ (if r.1 then posting.now ∷ [] else [])) (drop r.0 ops.now)) }
{
    let mut next = done;
    while next < ops.len() {
        let op = &ops[next];
        match op.compare_to(posting) {
            Ordering::Less => {
                op.put_into(alloc, list)?;
                next += 1;
            }
            Ordering::Equal => {
                op.put_into(alloc, list)?;
                return Ok((next + 1, false));
            }
            Ordering::Greater => return Ok((next, true)),
        }
    }
    Ok((next, true))
}

// Adds at the end what the operations put in.
fn put_rest(alloc: Global, list: &mut Vec<Posting>, ops: &[Ranked]) -> Mem<()>
    ensures { OnOk result (list.new.items ≡ list.old.items ++ put_by_all ops.now) }
{
    for op in ops {
        op.put_into(alloc, list)?;
    }
    Ok(())
}
