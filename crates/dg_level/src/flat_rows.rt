// The flat objects of a node, made of those of the nodes of the level below.
ghost use Rattle.std.specs.Prelude.{◌≡◌, ℕ, ◌+◌, ◌<◌, ◌≤◌, ◌++◌, ◌∷◌, [], true, List as Items, length, map, flat_map, filter, Some, option_copied, IfOk, IfSome, OnOk, IsErrOf};
ghost use Rattle.std.specs.Arc.{arc_value};
ghost use Rattle.std.specs.Ordering.{nat_cmp};
ghost use Rattle.dg_values.specs.Ascending.{has};
ghost use Rattle.dg_tree.specs.declared.tree.Field.{Field as Pair};
ghost use Rattle.dg_shape.specs.Normalize.{with_pair, joined, times, has_pair};
ghost use Rattle.dg_level.specs.Flats.{weight, weight_in, has_object};
ghost use Rattle.dg_level.specs.Rows.{AreOfLevel};

use crate::flats::Flat;
use dg_sets::place_of;
use dg_tree::{Field, TreeFault};
use dg_uids::Uids;
use dg_values::{Mem, OutOfMemory};
use std::alloc::Global;
use std::marker::Model;
use std::sync::Arc;

/// The flat objects of a node, in order, which contracts see as lists of fields. It knows what they weigh: how many bytes they
/// take in an array at least.
#[derive(Drop)]
pub struct Flats {
    objects: Vec<Flat>,
    weight: usize,
}

impl Model for Flats {
    ghost use Rattle.std.specs.Prelude.{List, ◌≡◌};
    ghost use Rattle.std.specs.Coded.{codes};
    ghost use Rattle.dg_tree.specs.contracts.tree.Field as field;
    ghost use Rattle.dg_tree.specs.declared.tree.Field.{Field};
    ghost use Rattle.dg_level.specs.Flats.{weight_in};

    ghost Value = { List (List Field) };

    ghost coded = { Prim.hlevel (codes, field.the_row.coded) };

    ghost view = { λ flats. flats.objects.items };

    ghost invariant = { λ flats. flats.weight ≡ weight_in flats.objects.items };
}

impl Flats {
    /// No object. It takes no memory.
    pub fn none(alloc: Global) -> Flats
        ensures { result ≡ [] }
    {
        Flats {
            objects: Vec::new(alloc),
            weight: 0,
        }
    }

    /// One object without a field. The error is want of memory.
    pub fn one(alloc: Global) -> Mem<Flats>
        ensures { IfOk result (λ flats. flats ≡ [] ∷ []) }
    {
        let mut objects = Vec::new(alloc);
        objects.push(Flat::new(alloc))?;
        Ok(Flats { objects, weight: 0 })
    }

    /// The objects.
    pub fn as_slice(&self) -> &[Flat]
        ensures { result.now ≡ self.now }
    {
        self.objects.as_slice()
    }

    /// How many objects they are.
    pub fn len(&self) -> usize
        ensures { result ≡ length self.now }
    {
        self.objects.len()
    }

    /// What they weigh.
    pub fn weight(&self) -> usize
        ensures { result ≡ weight_in self.now }
    {
        self.weight
    }

    /// The objects that have a field.
    pub fn filled(self) -> Flats
        ensures { result ≡ filter has_pair self }
    {
        let Flats { objects, weight } = self;
        let objects = with_pairs(objects);
        Flats { objects, weight }
    }

    /// Each object with a field more, unless one of its key is there. They share it.
    ///
    /// # Errors
    ///
    /// `TooLarge` comes exactly where they would weigh more than there is room for, and else `OutOfMemory` for want of memory.
    pub fn with_shown(self, alloc: Global, pair: Field, room: usize) -> Result<Flats, TreeFault>
        ensures ok { IfOk result (λ flats. flats ≡ map (λ object. joined object (pair ∷ [])) self) }
        ensures within { IfOk result (λ flats. weight_in flats ≤ room) }
        ensures too_large { IsErrOf result TreeFault.TooLarge → room < weight_in (map (λ object. joined object (pair ∷ [])) self) }
    {
        let Flats { mut objects, .. } = self;
        let pair = share(alloc, pair)?;
        let left = add_to_each(objects.as_mut_slice(), &pair, room)?;
        let weight = room - left;
        Ok(Flats { objects, weight })
    }

    /// Each object followed by each of those of a list's nodes, in its order, or alone where these have none. The nodes'
    /// objects are found by their places in their level.
    ///
    /// # Errors
    ///
    /// `TooLarge` comes exactly where they would weigh more than there is room for, as soon as those made do, and else
    /// `OutOfMemory` for want of memory.
    pub fn times(
        self,
        alloc: Global,
        list: &[u64],
        level: &Uids,
        below: &[Flats],
        room: usize,
    ) -> Result<Flats, TreeFault>
        ensures ok { (flats : ℕ → Items (Items Pair)) → below.now ≡ map flats level.now → AreOfLevel level.now list.now
            → IfOk result (λ made. made ≡ times self (flat_map flats list.now)) }
        ensures within { IfOk result (λ made. weight_in made ≤ room) }
        ensures too_large { (flats : ℕ → Items (Items Pair)) → below.now ≡ map flats level.now → AreOfLevel level.now list.now
            → IsErrOf result TreeFault.TooLarge → room < weight_in (times self (flat_map flats list.now)) }
    {
        let parts = parts_of(alloc, list, level, below)?;
        if let Some(other) = only_one(parts.as_slice()) {
            return followed(self, other, room);
        }
        if has_object(parts.as_slice()) {
            return crossed(alloc, self.as_slice(), parts.as_slice(), room);
        }
        if self.weight() > room {
            return Err(TreeFault::TooLarge);
        }
        Ok(self)
    }
}

// The objects that have a field.
fn with_pairs(mut objects: Vec<Flat>) -> Vec<Flat>
    ensures { result.items ≡ filter has_pair objects.items }
{
    objects.retain(|object| object.has_pair());
    objects
}

// A field that several may own. The error is want of memory.
fn share(alloc: Global, pair: Field) -> Mem<Arc<Field>>
    ensures { IfOk result (λ shared. arc_value shared ≡ pair) }
{
    Ok(Arc::new(alloc, pair)?)
}

// Adds a field to an object, unless one of its key is there, where there is room for it then. It answers how much room is left.
fn add_within(object: &mut Flat, pair: &Arc<Field>, room: usize) -> Result<usize, TreeFault>
    ensures ok { OnOk result (object.new ≡ with_pair object.old (arc_value pair.now)) }
    ensures left { IfOk result (λ left. left + weight (with_pair object.old (arc_value pair.now)) ≡ room) }
    ensures too_large { IsErrOf result TreeFault.TooLarge → room < weight (with_pair object.old (arc_value pair.now)) }
{
    object.add(pair)?;
    room_behind(object, room)
}

// How much room is left behind an object.
fn room_behind(object: &Flat, room: usize) -> Result<usize, TreeFault>
    ensures left { IfOk result (λ left. left + weight object.now ≡ room) }
    ensures too_large { IsErrOf result TreeFault.TooLarge → room < weight object.now }
{
    let weight = object.weight();
    if weight > room {
        return Err(TreeFault::TooLarge);
    }
    Ok(room - weight)
}

// Adds a field to each object, unless one of its key is there. It answers how much room is left.
fn add_to_each(objects: &mut [Flat], pair: &Arc<Field>, room: usize) -> Result<usize, TreeFault>
    ensures ok { OnOk result (objects.new ≡ map (λ object. with_pair object (arc_value pair.now)) objects.old) }
    ensures left { IfOk result (λ left. left + weight_in (map (λ object. with_pair object (arc_value pair.now)) objects.old) ≡ room) }
    ensures too_large { IsErrOf result TreeFault.TooLarge → room < weight_in (map (λ object. with_pair object (arc_value pair.now)) objects.old) }
{
    let mut left = room;
    for i in 0..objects.len() {
        left = add_within(&mut objects[i], pair, left)?;
    }
    Ok(left)
}

/// What a node of this level has.
pub fn flats_of<'a>(level: &Uids, below: &'a [Flats], node: u64) -> Option<&'a Flats>
    ensures { (f : ℕ → Items (Items Pair)) → below.now ≡ map f level.now → has nat_cmp level.now node ≡ true → option_copied result ≡ Some (f node) }
{
    match place_of(level.as_slice(), &node) {
        Ok(place) if place < below.len() => Some(&below[place]),
        _ => None,
    }
}

/// The objects of a node of this level.
pub fn objects_of<'a>(level: &Uids, below: &'a [Flats], node: u64) -> &'a [Flat]
    ensures { (f : ℕ → Items (Items Pair)) → below.now ≡ map f level.now → has nat_cmp level.now node ≡ true → result.now ≡ f node }
{
    match flats_of(level, below, node) {
        Some(flats) => flats.as_slice(),
        None => &[],
    }
}

// The objects of each node of a list that has any. The error is want of memory.
fn parts_of<'a>(
    alloc: Global,
    list: &[u64],
    level: &Uids,
    below: &'a [Flats],
) -> Mem<Vec<&'a [Flat]>>
    ensures { (f : ℕ → Items (Items Pair)) → below.now ≡ map f level.now → AreOfLevel level.now list.now
        → IfOk result (λ v. flat_map (λ part. part.now) v.items ≡ flat_map f list.now) }
{
    let mut parts = Vec::new(alloc);
    for node in list {
        let part = objects_of(level, below, *node);
        if are_any(part) {
            parts.push(part)?;
        }
    }
    Ok(parts)
}

// Whether there is an object.
fn are_any(objects: &[Flat]) -> bool
    ensures { result ≡ has_object objects.now }
{
    !objects.is_empty()
}

// Whether a part has an object.
fn has_object(parts: &[&[Flat]]) -> bool
    ensures { result ≡ has_object (flat_map (λ part. part.now) parts.now) }
{
    parts.iter().any(|part| are_any(part))
}

// The only object of these parts, where there is one alone.
fn only_one<'a>(parts: &[&'a [Flat]]) -> Option<&'a Flat>
    ensures { IfSome result (λ object. flat_map (λ part. part.now) parts.now ≡ object.now ∷ []) }
{
    match parts {
        [part] => only(part),
        _ => None,
    }
}

// The object, where there is one alone.
fn only(objects: &[Flat]) -> Option<&Flat>
    ensures { IfSome result (λ object. objects.now ≡ object.now ∷ []) }
{
    match objects {
        [object] => Some(object),
        _ => None,
    }
}

// Adds the fields of another object whose keys an object lacks, where there is room for it then. It answers how much room is
// left.
fn join_within(object: &mut Flat, more: &Flat, room: usize) -> Result<usize, TreeFault>
    ensures ok { OnOk result (object.new ≡ joined object.old more.now) }
    ensures left { IfOk result (λ left. left + weight (joined object.old more.now) ≡ room) }
    ensures too_large { IsErrOf result TreeFault.TooLarge → room < weight (joined object.old more.now) }
{
    object.join(more)?;
    room_behind(object, room)
}

// Adds the fields of another object to each, as far as it lacks their keys. It answers how much room is left.
fn join_each(objects: &mut [Flat], more: &Flat, room: usize) -> Result<usize, TreeFault>
    ensures ok { OnOk result (objects.new ≡ map (λ object. joined object more.now) objects.old) }
    ensures left { IfOk result (λ left. left + weight_in (map (λ object. joined object more.now) objects.old) ≡ room) }
    ensures too_large { IsErrOf result TreeFault.TooLarge → room < weight_in (map (λ object. joined object more.now) objects.old) }
{
    let mut left = room;
    for i in 0..objects.len() {
        left = join_within(&mut objects[i], more, left)?;
    }
    Ok(left)
}

// Each object followed by one other. None is copied.
fn followed(flats: Flats, other: &Flat, room: usize) -> Result<Flats, TreeFault>
    ensures ok { IfOk result (λ made. made ≡ times flats (other.now ∷ [])) }
    ensures within { IfOk result (λ made. weight_in made ≤ room) }
    ensures too_large { IsErrOf result TreeFault.TooLarge → room < weight_in (times flats (other.now ∷ [])) }
{
    let Flats { mut objects, .. } = flats;
    let left = join_each(objects.as_mut_slice(), other, room)?;
    let weight = room - left;
    Ok(Flats { objects, weight })
}

// Adds an object at the end. The error is want of memory.
fn push(out: &mut Vec<Flat>, object: Flat) -> Mem<()>
    ensures { OnOk result (out.new.items ≡ out.old.items ++ object ∷ []) }
{
    Ok(out.push(object)?)
}

// Adds an object followed by another, where there is room for it. It answers how much room is left.
fn push_one(
    alloc: Global,
    out: &mut Vec<Flat>,
    object: &Flat,
    other: &Flat,
    room: usize,
) -> Result<usize, TreeFault>
    ensures ok { OnOk result (out.new.items ≡ out.old.items ++ joined object.now other.now ∷ []) }
    ensures left { IfOk result (λ left. left + weight (joined object.now other.now) ≡ room) }
    ensures too_large { IsErrOf result TreeFault.TooLarge → room < weight (joined object.now other.now) }
{
    let both = object.joined(alloc, other)?;
    let left = room_behind(&both, room)?;
    push(out, both)?;
    Ok(left)
}

// Adds an object followed by each of the others.
fn push_part(
    alloc: Global,
    out: &mut Vec<Flat>,
    object: &Flat,
    others: &[Flat],
    room: usize,
) -> Result<usize, TreeFault>
    ensures ok { OnOk result (out.new.items ≡ out.old.items ++ map (joined object.now) others.now) }
    ensures left { IfOk result (λ left. left + weight_in (map (joined object.now) others.now) ≡ room) }
    ensures too_large { IsErrOf result TreeFault.TooLarge → room < weight_in (map (joined object.now) others.now) }
{
    let mut left = room;
    for other in others {
        left = push_one(alloc, out, object, other, left)?;
    }
    Ok(left)
}

// Adds an object followed by each of the others, which stand in parts.
fn push_parts(
    alloc: Global,
    out: &mut Vec<Flat>,
    object: &Flat,
    parts: &[&[Flat]],
    room: usize,
) -> Result<usize, TreeFault>
    ensures ok { OnOk result (out.new.items ≡ out.old.items ++ map (joined object.now) (flat_map (λ part. part.now) parts.now)) }
    ensures left { IfOk result (λ left. left + weight_in (map (joined object.now) (flat_map (λ part. part.now) parts.now)) ≡ room) }
    ensures too_large { IsErrOf result TreeFault.TooLarge → room < weight_in (map (joined object.now) (flat_map (λ part. part.now) parts.now)) }
{
    let mut left = room;
    for part in parts {
        left = push_part(alloc, out, object, part, left)?;
    }
    Ok(left)
}

// Each object followed by each of the others, which stand in parts.
fn crossed(
    alloc: Global,
    firsts: &[Flat],
    parts: &[&[Flat]],
    room: usize,
) -> Result<Flats, TreeFault>
    ensures ok { IfOk result (λ made. made ≡ flat_map (λ object. map (joined object) (flat_map (λ part. part.now) parts.now)) firsts.now) }
    ensures within { IfOk result (λ made. weight_in made ≤ room) }
    ensures too_large { IsErrOf result TreeFault.TooLarge → room < weight_in (flat_map (λ object. map (joined object) (flat_map (λ part. part.now) parts.now)) firsts.now) }
{
    let mut objects = Vec::new(alloc);
    let mut left = room;
    for object in firsts {
        left = push_parts(alloc, &mut objects, object, parts, left)?;
    }
    let weight = room - left;
    Ok(Flats { objects, weight })
}
