// What the set operations have in common: a list cut at a uid, which is searched for from the front.
ghost use Rattle.std.specs.Prelude.{◌≡◌, ◌≤◌, ◌++◌, ◌∷◌, ◌*◌, IfOk, IfErr, true, false, length};
ghost use Rattle.std.specs.List.{AllWithin};
ghost use Rattle.std.specs.List.Sorted.{IsPartitionPoint};
ghost use Rattle.std.specs.Ordering.{nat_cmp, is_lt};
ghost use Rattle.dg_values.specs.Ascending.{Ascends, has, with_one, without_one};
ghost use Rattle.dg_sets.specs.Placing.{StandsAt, BelongsAt};

// A list that is this many times shorter is gone through alone, and the other one searched from place to place.
const MUCH: usize = 8;

// Whether searches in the second list, each from where the last one ended, are cheaper than going through it.
pub(crate) fn is_much_shorter(few: &[u64], many: &[u64]) -> bool {
    few.len() < many.len() / MUCH
}

// How many uids are passed by steps of 1, 2, 4, .. from the front: all of them are below this one, and the last uid of
// the next step isn't.
fn passed(uids: &[u64], uid: u64) -> usize
    requires { Ascends nat_cmp uids.now }
    ensures within { result ≤ length uids.now }
    ensures below { AllWithin (λ y. is_lt (nat_cmp y uid) ≡ true) uids.now 0 result }
    ensures ahead { AllWithin (λ y. is_lt (nat_cmp y uid) ≡ false) uids.now (2 * result) (length uids.now) }
{
    let mut from = 0;
    while 2 * from < uids.len() && uids[2 * from] < uid {
        from = 2 * from + 1;
    }
    from
}

// How many uids are below this one, found by steps from the front, and then by halves within the last step.
fn below(uids: &[u64], uid: u64) -> usize
    requires { Ascends nat_cmp uids.now }
    ensures within { result ≤ length uids.now }
    ensures point { IsPartitionPoint (λ y. is_lt (nat_cmp y uid) ≡ true) (λ y. is_lt (nat_cmp y uid) ≡ false) uids.now result }
{
    let from = passed(uids, uid);
    let step = &uids[from..uids.len().min(2 * from)];
    from + step.partition_point(|y| *y < uid)
}

// Where a uid stands, or else where it belongs.
fn place_of(uids: &[u64], uid: u64) -> Result<usize, usize>
    requires { Ascends nat_cmp uids.now }
    ensures there { IfOk result (StandsAt nat_cmp uids.now uid) }
    ensures missing { IfErr result (BelongsAt nat_cmp uids.now uid) }
{
    let place = below(uids, uid);
    if place < uids.len() && uids[place] == uid {
        Ok(place)
    } else {
        Err(place)
    }
}

// The uids below this one, whether it is there, and those above it. What is searched is near the front if the place is.
pub(crate) fn around(uids: &[u64], uid: u64) -> (&[u64], bool, &[u64])
    requires { Ascends nat_cmp uids.now }
    ensures put { with_one nat_cmp uids.now uid ≡ result.0.now ++ uid ∷ result.2.now }
    ensures there { result.1 ≡ has nat_cmp uids.now uid }
    ensures taken { without_one nat_cmp uids.now uid ≡ result.0.now ++ result.2.now }
{
    match place_of(uids, uid) {
        Ok(place) => (&uids[..place], true, &uids[place + 1..]),
        Err(place) => (&uids[..place], false, &uids[place..]),
    }
}
