// The uids that two lists have in common.
ghost use Rattle.std.specs.Prelude.{◌≡◌, IfOk};
ghost use Rattle.std.specs.Ordering.{nat_cmp};
ghost use Rattle.dg_values.specs.Ascending.{Ascends};
ghost use Rattle.dg_uids.specs.Sets.{common};

use crate::sides::around;
use dg_values::{Mem, OutOfMemory};
use std::alloc::Global;

// The uids of both.
pub(crate) fn intersection(alloc: Global, uids: &[u64], others: &[u64]) -> Mem<Vec<u64>>
    requires uids { Ascends nat_cmp uids.now }
    requires others { Ascends nat_cmp others.now }
    ensures { IfOk result (λ list. list.items ≡ common uids.now others.now) }
{
    if uids.len() <= others.len() {
        found(alloc, uids, others)
    } else {
        found(alloc, others, uids)
    }
}

// The few that are among the many, in which each is searched for from where the last one was.
fn found(alloc: Global, few: &[u64], many: &[u64]) -> Mem<Vec<u64>>
    requires few { Ascends nat_cmp few.now }
    requires many { Ascends nat_cmp many.now }
    ensures { IfOk result (λ list. list.items ≡ common few.now many.now) }
{
    let mut list = Vec::new(alloc);
    let mut rest = many;
    for uid in few {
        let (_, is_there, above) = around(rest, *uid);
        rest = above;
        if is_there {
            list.push(*uid)?;
        }
    }
    Ok(list)
}
