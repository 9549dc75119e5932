// Whether there is room for the flat objects of the nodes of a level, told before any is made.
ghost use Rattle.std.specs.Prelude.{◌≡◌, ℕ, ◌+◌, ◌*◌, ◌<◌, true, List as Items, length, map, flat_map, IfOk, IsErrOf};
ghost use Rattle.std.specs.Ordering.{nat_cmp};
ghost use Rattle.dg_values.specs.Ascending.{ascending, has};
ghost use Rattle.dg_shape.specs.Normalize.{times};
ghost use Rattle.dg_level.specs.Flats.{weight_in, AreAllApart};
ghost use Rattle.dg_level.specs.Rows.{AreOfLevel};
ghost use Rattle.dg_level.specs.FlatLevels.{FlatsOf, weight_of};

use crate::blocks::MOST;
use crate::flat_rows::{Flats, flats_of};
use crate::lists::list_at;
use dg_tree::TreeFault;
use dg_uids::Uids;
use dg_values::List;

// What the objects of a node of this level weigh.
fn weight_at(level: &Uids, below: &[Flats], node: u64) -> usize
    ensures { (f : FlatsOf) → below.now ≡ map f level.now → has nat_cmp level.now node ≡ true → result ≡ weight_in (f node) }
{
    match flats_of(level, below, node) {
        Some(flats) => flats.weight(),
        None => 0,
    }
}

// How much room is left behind so many times a weight.
fn room_behind(times: usize, weight: usize, room: usize) -> Result<usize, TreeFault>
    ensures left { IfOk result (λ left. left + times * weight ≡ room) }
    ensures too_large { IsErrOf result TreeFault.TooLarge → room < times * weight }
{
    match times.checked_mul(weight) {
        Some(all) if all <= room => Ok(room - all),
        _ => Err(TreeFault::TooLarge),
    }
}

// How much room is left where so many objects are each followed by each of those of a list's nodes.
fn room_behind_list(
    times: usize,
    list: &[u64],
    level: &Uids,
    below: &[Flats],
    room: usize,
) -> Result<usize, TreeFault>
    ensures left { (f : FlatsOf) → below.now ≡ map f level.now → AreOfLevel level.now list.now → IfOk result (λ left. left + times * weight_in (flat_map f list.now) ≡ room) }
    ensures too_large { (f : FlatsOf) → below.now ≡ map f level.now → AreOfLevel level.now list.now → IsErrOf result TreeFault.TooLarge → room < times * weight_in (flat_map f list.now) }
{
    let mut left = room;
    for node in list {
        left = room_behind(times, weight_at(level, below, *node), left)?;
    }
    Ok(left)
}

/// Tells where there is no room for the objects of each node of a level, each followed by each of those of the nodes of its
/// list: what these others weigh stands there as often as the node has objects.
///
/// # Errors
///
/// `TooLarge` only where they weigh more together than the limit.
pub fn check_room(
    made: &[Flats],
    lists: &[List<u64>],
    level: &Uids,
    below: &[Flats],
) -> Result<(), TreeFault>
    ensures { (g f : FlatsOf) (list : ℕ → Items ℕ) (nodes : Items ℕ) → made.now ≡ map g nodes → lists.now ≡ map list nodes → level.now ≡ ascending nat_cmp (flat_map list nodes) → below.now ≡ map f level.now → ((n : ℕ) → AreAllApart (f n))
        → IsErrOf result TreeFault.TooLarge → 16777216 < weight_of (λ n. times (g n) (flat_map f (list n))) nodes }
{
    let mut left = MOST;
    for place in 0..made.len() {
        let list = list_at(lists, place);
        left = room_behind_list(made[place].len(), list, level, below, left)?;
    }
    Ok(())
}
