// Pages of ascending lists.
ghost use Rattle.std.specs.Prelude.{◌≡◌, ◌-◌, filter, length, drop, nat_lt};
ghost use Rattle.std.specs.Ordering.{nat_cmp};
ghost use Rattle.dg_values.specs.Ascending.{Ascends};
ghost use Rattle.dg_uids.specs.Sets.{first_or_last};

// The uids above this one.
pub(crate) fn above(uids: &[u64], after: u64) -> &[u64]
    requires { Ascends nat_cmp uids.now }
    ensures { result.now ≡ filter (λ uid. nat_lt after uid) uids.now }
{
    &uids[uids.partition_point(|uid| *uid <= after)..]
}

// The uids without the first ones.
pub(crate) fn behind(uids: &[u64], offset: u64) -> &[u64]
    ensures { result.now ≡ drop offset uids.now }
{
    &uids[uids.len().min(offset as usize)..]
}

// The first ones, or the last ones where the number is negative.
pub(crate) fn chosen(uids: &[u64], first: Option<i64>) -> &[u64]
    ensures { result.now ≡ first_or_last first uids.now }
{
    match first {
        None => uids,
        Some(most) if most < 0 => last(uids, most.unsigned_abs() as usize),
        Some(most) => &uids[..uids.len().min(most as usize)],
    }
}

// The last ones, or all where there are fewer.
fn last(uids: &[u64], most: usize) -> &[u64]
    ensures { result.now ≡ drop (length uids.now - most) uids.now }
{
    &uids[uids.len() - uids.len().min(most)..]
}
