// The uids of two lists together.
ghost use Rattle.std.specs.Prelude.{◌≡◌, IfOk};
ghost use Rattle.std.specs.Ordering.{nat_cmp};
ghost use Rattle.dg_values.specs.Ascending.{Ascends};
ghost use Rattle.dg_uids.specs.Sets.{either};

use crate::sides::{around, is_much_shorter};
use dg_values::{Mem, OutOfMemory};
use std::alloc::Global;
use std::cmp::Ordering;

// The uids of either.
pub(crate) fn both(alloc: Global, uids: &[u64], others: &[u64]) -> Mem<Vec<u64>>
    requires uids { Ascends nat_cmp uids.now }
    requires others { Ascends nat_cmp others.now }
    ensures { IfOk result (λ list. list.items ≡ either uids.now others.now) }
{
    if is_much_shorter(uids, others) {
        spliced(alloc, others, uids)
    } else if is_much_shorter(others, uids) {
        spliced(alloc, uids, others)
    } else {
        merged(alloc, uids, others)
    }
}

// The many in runs, with the few between them, whose places are each searched for from the last one on.
fn spliced(alloc: Global, many: &[u64], few: &[u64]) -> Mem<Vec<u64>>
    requires many { Ascends nat_cmp many.now }
    requires few { Ascends nat_cmp few.now }
    ensures { IfOk result (λ list. list.items ≡ either many.now few.now) }
{
    let mut list = Vec::new(alloc);
    let mut rest = many;
    for uid in few {
        let (below, _, above) = around(rest, *uid);
        list.extend_from_slice(below)?;
        list.push(*uid)?;
        rest = above;
    }
    list.extend_from_slice(rest)?;
    Ok(list)
}

// The same by going through both.
fn merged(alloc: Global, uids: &[u64], others: &[u64]) -> Mem<Vec<u64>>
    requires uids { Ascends nat_cmp uids.now }
    requires others { Ascends nat_cmp others.now }
    ensures { IfOk result (λ list. list.items ≡ either uids.now others.now) }
{
    let mut list = Vec::new(alloc);
    let mut at = 0;
    let mut beside = 0;
    while beside < others.len() && at < uids.len() {
        let uid = uids[at];
        let other = others[beside];
        match other.cmp(&uid) {
            Ordering::Less => {
                list.push(other)?;
                beside += 1;
            }
            Ordering::Equal => beside += 1,
            Ordering::Greater => {
                list.push(uid)?;
                at += 1;
            }
        }
    }
    list.extend_from_slice(&others[beside..])?;
    list.extend_from_slice(&uids[at..])?;
    Ok(list)
}
