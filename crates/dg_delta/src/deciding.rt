// What operations say of one posting.
ghost use Rattle.std.specs.Prelude.{◌≡◌, ◌≤◌, length, true, false};
ghost use Rattle.std.specs.Ordering.{is_lt};
ghost use Rattle.std.specs.List.Sorted.{IsPartitionPoint};
ghost use Rattle.dg_values.specs.Ascending.{Ascends};
ghost use Rattle.dg_values.specs.Order.{posting_cmp};
ghost use Rattle.dg_delta.specs.Ops.{posting_of, op_cmp};
ghost use Rattle.dg_delta.specs.Effects.{Says};

use crate::Op;
use dg_values::{Posting, cmp_posting};

/// Whether the posting is in a list after these operations; None where they leave that as it was. It looks by halves, and
/// takes no memory.
pub fn decide(ops: &[Op], posting: &Posting) -> Option<bool>
    requires { Ascends op_cmp ops.now }
    ensures { Says ops.now posting.now result }
{
    let place = below(ops, posting);
    if place < ops.len() {
        let op = &ops[place];
        if cmp_posting(op.posting(), posting).is_eq() {
            return Some(op.is_set());
        }
    }
    None
}

// How many operations are on postings below this one.
fn below(ops: &[Op], posting: &Posting) -> usize
    requires { Ascends op_cmp ops.now }
    ensures within { result ≤ length ops.now }
    ensures point { IsPartitionPoint (λ op. is_lt (posting_cmp (posting_of op) posting.now) ≡ true) (λ op. is_lt (posting_cmp (posting_of op) posting.now) ≡ false) ops.now result }
{
    ops.partition_point(|op| cmp_posting(op.posting(), posting).is_lt())
}
