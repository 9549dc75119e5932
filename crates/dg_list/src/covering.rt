// Whether operations stand on all that a list has.
ghost use Rattle.std.specs.Prelude.{◌≡◌, ◌&&◌, length, filter, nat_le};
ghost use Rattle.dg_values.specs.Ascending.{Ascends, has};
ghost use Rattle.dg_values.specs.Order.{posting_cmp};
ghost use Rattle.dg_delta.specs.Ops.{posting_of, op_cmp};
ghost use Rattle.dg_list.specs.Gathered.{stand_on, stand_on_puts, stand_on_all};

use dg_base::Base;
use dg_delta::{Op, decide};
use dg_values::Posting;

// Whether one of the operations is on this posting. It looks by halves.
fn stands_on(ops: &[Op], posting: &Posting) -> bool
    requires { Ascends op_cmp ops.now }
    ensures { result ≡ stand_on ops.now posting.now }
{
    decide(ops, posting).is_some()
}

// Whether the operations stand on each posting that others put in.
pub(crate) fn stand_on_puts(ops: &[Op], others: &[Op]) -> bool
    requires { Ascends op_cmp ops.now }
    ensures { result ≡ stand_on_puts ops.now others.now }
{
    others
        .iter()
        .all(|other| !other.is_set() || stands_on(ops, other.posting()))
}

// How many of the operations are on postings of a base.
fn count_on(ops: &[Op], base: &Base) -> usize
    ensures { result ≡ length (filter (λ op. has posting_cmp base.now (posting_of op)) ops.now) }
{
    ops.iter().filter(|op| base.find(op.posting())).count()
}

// Whether the operations stand on each posting of a base. Neither has a posting twice, so they do where as many of them are
// on its postings as it has.
pub(crate) fn stand_on_base(ops: &[Op], base: &Base) -> bool
    requires { Ascends op_cmp ops.now }
    ensures { result ≡ (nat_le (length base.now) (length ops.now) && stand_on_all ops.now base.now) }
{
    base.len() <= ops.len() && count_on(ops, base) == base.len()
}
