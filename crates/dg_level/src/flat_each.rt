// The flat objects of each node of a level, with what follows them.
ghost use Rattle.std.specs.Prelude.{◌≡◌, ℕ, ◌<◌, ◌≤◌, ◌∷◌, [], List as Items, option_to_list, map, filter, flat_map, sum_by, IfOk, OnOk, IsErrOf};
ghost use Rattle.std.specs.Ordering.{nat_cmp};
ghost use Rattle.dg_values.specs.Ascending.{ascending};
ghost use Rattle.dg_tree.specs.declared.tree.Field.{Field as Pair};
ghost use Rattle.dg_shape.specs.Normalize.{joined, times, has_pair};
ghost use Rattle.dg_level.specs.Flats.{weight_in, AreAllApart};
ghost use Rattle.dg_level.specs.Rows.{AreOfLevel};
ghost use Rattle.dg_level.specs.FlatLevels.{FlatsOf, weight_of};
ghost use Rattle.dg_level.specs.Shown.{under};

use crate::blocks::MOST;
use crate::flat_room::check_room;
use crate::flat_rows::Flats;
use crate::lists::list_at;
use dg_tree::{Field, Tree, TreeFault};
use dg_uids::Uids;
use dg_values::{List, Mem, OutOfMemory, Str};
use std::alloc::Global;
use std::mem;

/// One object without a field for each of so many nodes. The error is want of memory.
pub fn one_each(alloc: Global, nodes: &[u64]) -> Mem<Vec<Flats>>
    ensures { IfOk result (λ v. v.items ≡ map (λ n. [] ∷ []) nodes.now) }
{
    let mut made = Vec::new(alloc);
    for _node in nodes {
        made.push(Flats::one(alloc)?)?;
    }
    Ok(made)
}

// Those objects of a node that have a field.
fn fill(alloc: Global, flats: &mut Flats)
    ensures { flats.new ≡ filter has_pair flats.old }
{
    let objects = mem::replace(flats, Flats::none(alloc));
    *flats = objects.filled();
}

/// Those objects of each node that have a field.
pub fn filled_each(alloc: Global, made: &mut [Flats])
    ensures { made.new ≡ map (filter has_pair) made.old }
{
    for i in 0..made.len() {
        fill(alloc, &mut made[i]);
    }
}

// The objects of a node as they are, where there is room for them.
fn keep(flats: &mut Flats, room: usize) -> Result<(), TreeFault>
    ensures ok { OnOk result (flats.new ≡ flats.old) }
    ensures within { OnOk result (weight_in flats.new ≤ room) }
    ensures too_large { IsErrOf result TreeFault.TooLarge → room < weight_in flats.old }
{
    if flats.weight() > room {
        return Err(TreeFault::TooLarge);
    }
    Ok(())
}

// The objects of a node, each with a field more.
fn add(alloc: Global, flats: &mut Flats, pair: Field, room: usize) -> Result<(), TreeFault>
    ensures ok { OnOk result (flats.new ≡ map (λ object. joined object (pair ∷ [])) flats.old) }
    ensures within { OnOk result (weight_in flats.new ≤ room) }
    ensures too_large { IsErrOf result TreeFault.TooLarge → room < weight_in (map (λ object. joined object (pair ∷ [])) flats.old) }
{
    let objects = mem::replace(flats, Flats::none(alloc));
    *flats = objects.with_shown(alloc, pair, room)?;
    Ok(())
}

// A field under a key. The error is want of memory.
fn field(alloc: Global, key: &str, tree: Tree) -> Mem<Field>
    ensures { IfOk result (λ pair. pair ≡ under key.now tree) }
{
    let key = Str::from_str(alloc, key)?;
    Ok(Field { key, tree })
}

/// The objects of a node, each with what is shown under a key: a tree or none.
///
/// # Errors
///
/// `TooLarge` only where they weigh more than there is room for, and else `OutOfMemory` for want of memory.
pub fn show(
    alloc: Global,
    flats: &mut Flats,
    key: &str,
    tree: Option<Tree>,
    room: usize,
) -> Result<(), TreeFault>
    ensures ok { OnOk result (flats.new ≡ map (λ object. joined object (map (under key.now) (option_to_list tree))) flats.old) }
    ensures within { OnOk result (weight_in flats.new ≤ room) }
    ensures too_large { IsErrOf result TreeFault.TooLarge → room < weight_in (map (λ object. joined object (map (under key.now) (option_to_list tree))) flats.old) }
{
    match tree {
        None => keep(flats, room),
        Some(tree) => {
            let pair = field(alloc, key, tree)?;
            add(alloc, flats, pair, room)
        }
    }
}

// Each object of a node, followed by each of those of the nodes of its list.
fn multiply(
    alloc: Global,
    flats: &mut Flats,
    list: &[u64],
    level: &Uids,
    below: &[Flats],
    room: usize,
) -> Result<(), TreeFault>
    ensures ok { (f : FlatsOf) → below.now ≡ map f level.now → AreOfLevel level.now list.now → OnOk result (flats.new ≡ times flats.old (flat_map f list.now)) }
    ensures within { OnOk result (weight_in flats.new ≤ room) }
    ensures too_large { (f : FlatsOf) → below.now ≡ map f level.now → AreOfLevel level.now list.now → IsErrOf result TreeFault.TooLarge → room < weight_in (times flats.old (flat_map f list.now)) }
{
    let objects = mem::replace(flats, Flats::none(alloc));
    *flats = objects.times(alloc, list, level, below, room)?;
    Ok(())
}

/// The objects of each node of a level, each followed by each of those of the nodes of its list. These are found in the
/// level below by the nodes' places. Before any is made, it is told whether there is room for them.
///
/// # Errors
///
/// `TooLarge` only where they weigh more together than the limit, and else `OutOfMemory` for want of memory.
pub fn times_each(
    alloc: Global,
    made: &mut [Flats],
    lists: &[List<u64>],
    level: &Uids,
    below: &[Flats],
) -> Result<(), TreeFault>
    ensures ok { (g f : FlatsOf) (list : ℕ → Items ℕ) (nodes : Items ℕ) → made.old ≡ map g nodes → lists.now ≡ map list nodes → level.now ≡ ascending nat_cmp (flat_map list nodes) → below.now ≡ map f level.now
        → OnOk result (made.new ≡ map (λ n. times (g n) (flat_map f (list n))) nodes) }
    ensures within { OnOk result (sum_by weight_in made.new ≤ 16777216) }
    ensures too_large { (g f : FlatsOf) (list : ℕ → Items ℕ) (nodes : Items ℕ) → made.old ≡ map g nodes → lists.now ≡ map list nodes → level.now ≡ ascending nat_cmp (flat_map list nodes) → below.now ≡ map f level.now → ((n : ℕ) → AreAllApart (f n))
        → IsErrOf result TreeFault.TooLarge → 16777216 < weight_of (λ n. times (g n) (flat_map f (list n))) nodes }
{
    check_room(made, lists, level, below)?;
    let mut used = 0;
    for place in 0..made.len() {
        let list = list_at(lists, place);
        multiply(alloc, &mut made[place], list, level, below, MOST - used)?;
        used += made[place].weight();
    }
    Ok(())
}
