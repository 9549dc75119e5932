// Where the fields of a list stand by their keys: groups of slots, of which the hash of a key picks one.
ghost use Rattle.std.specs.Prelude.{◌≡◌, ◌+◌, ◌<◌, ◌||◌, ◌++◌, ◌∷◌, [], List, ℕ, false, true, length, replicate, slice_get, slice_set, Some, IfOk, IfErr, IfSome, IsTrue};
ghost use Rattle.std.specs.Option.{option_map};
ghost use Rattle.std.specs.BTreeSet.{contains_by};
ghost use Rattle.std.specs.Str.{bytes_eq};
ghost use Rattle.dg_text.specs.declared.reading.ReadError.TheVariants as errors;
ghost use Rattle.dg_values.specs.Order.{text_cmp};
ghost use Rattle.dg_parse.specs.declared.query.QField.{QField};
ghost use Rattle.dg_parse.specs.declared.query.QItem.{out-QItem};
ghost use Rattle.dg_parse.specs.declared.slots.Slot.{Slot};
ghost use Rattle.dg_parse.specs.Keys.{key_of as key_now};
ghost use Rattle.dg_parse.specs.Slots as spec;

use crate::keys::key_of;
use crate::{QField, QItem};
use dg_text::ReadError;
use dg_values::Str;
use std::alloc::Global;
use std::collections::BTreeSet;
use std::hash::{FoldHasher, Hasher};

/// A part of the hash of a key, and the number of its field, counted from 1. A free slot has the number 0.
#[derive(Clone, Copy, Debug)]
pub struct Slot {
    /// The lower half of the hash.
    pub tag: u32,
    /// The number of the field.
    pub number: u32,
}

// A slot of no field.
const FREE: Slot = Slot { tag: 0, number: 0 };

/// The keys of fields: those that are a text of their field in slots, where the group of the hash has a free one, and all
/// others in ascending order. So keys whose hashes meet cost no more than a tree.
#[derive(Drop)]
pub struct Index {
    /// The groups of slots.
    pub groups: Vec<[Slot; 8]>,
    /// How many slots were filled.
    pub filled: usize,
    /// The other keys.
    pub others: BTreeSet<Str>,
}

// The key of an item that is the name of a predicate.
fn plain_shown(item: &QItem) -> Option<&str>
    ensures { option_map (λ s. s.now) result ≡ spec.plain_shown (out-QItem item.now) }
{
    match item {
        QItem::Uid | QItem::CountUid | QItem::Count(_) | QItem::Val(_) | QItem::Agg { .. } => None,
        QItem::Edge { edge, .. } => {
            if edge.back {
                None
            } else {
                Some(edge.pred.as_str())
            }
        }
    }
}

// The key of a field that is a text of the field.
fn plain_key(field: &QField) -> Option<&str>
    ensures { option_map (λ s. s.now) result ≡ spec.plain_key field.now }
{
    match &field.alias {
        Some(key) => Some(key.as_str()),
        None => plain_shown(&field.item),
    }
}

// Whether a field has this key as its text.
fn is_key_of(field: &QField, key: &str) -> bool
    ensures { result ≡ spec.is_same key.now (spec.plain_key field.now) }
{
    match plain_key(field) {
        None => false,
        Some(own) => key == own,
    }
}

#[tactic(auto, unfolding(crate::specs::Slots::hash))]
fn hash_of(key: &str) -> u64
    ensures { result ≡ spec.hash key.now }
{
    let mut hasher = FoldHasher::default();
    hasher.write(key.as_bytes());
    hasher.finish()
}

fn tag_of(hash: u64) -> u32
    ensures { result ≡ spec.tag_of hash }
{
    (hash % 4_294_967_296) as u32
}

fn group_of(count: usize, hash: u64) -> usize
    ensures { result ≡ spec.group_of count hash }
{
    ((hash >> 32).wrapping_mul(count as u64) >> 32) as usize
}

// Whether the field of this number has this key.
fn is_numbered(fields: &[QField], number: u32, key: &str) -> bool
    ensures { result ≡ spec.is_numbered fields.now number key.now }
{
    match number.checked_sub(1) {
        None => false,
        Some(at) => match fields.get(at as usize) {
            None => false,
            Some(field) => is_key_of(field, key),
        },
    }
}

// Whether a slot is that of a key of this tag.
fn holds(fields: &[QField], slot: Slot, tag: u32, key: &str) -> bool
    requires { tag ≡ spec.tag_of (spec.hash key.now) }
    ensures { result ≡ spec.holds fields.now key.now slot }
{
    slot.tag == tag && is_numbered(fields, slot.number, key)
}

// Whether a slot of a group is that of this key.
fn is_in_group(fields: &[QField], group: &[Slot], tag: u32, key: &str) -> bool
    requires { tag ≡ spec.tag_of (spec.hash key.now) }
    ensures { result ≡ spec.is_in_group fields.now key.now (Some group.now) }
{
    group.iter().any(|slot| holds(fields, *slot, tag, key))
}

// Whether a slot of the group that the hash of this key picks is that of this key.
fn is_in(fields: &[QField], groups: &[[Slot; 8]], key: &str) -> bool
    ensures { result ≡ spec.is_in fields.now groups.now key.now }
{
    let hash = hash_of(key);
    match groups.get(group_of(groups.len(), hash)) {
        None => false,
        Some(group) => is_in_group(fields, group, tag_of(hash), key),
    }
}

// The number of the field behind so many.
fn number_after(count: usize) -> Option<u32>
    ensures { IfSome result (λ n. n ≡ count + 1) }
{
    if count < 4_000_000_000 {
        Some(count as u32 + 1)
    } else {
        None
    }
}

// The group of this place.
fn group_at(groups: &[[Slot; 8]], at: usize) -> Option<&[Slot; 8]>
    ensures { IfSome result (λ group. slice_get groups.now at ≡ Some group.now) }
{
    groups.get(at)
}

// The place of a free slot of a group.
fn free_place(group: &[Slot]) -> Option<usize>
    ensures { IfSome result (λ place. (s : Slot) × (slice_get group.now place ≡ Some s) × (s.number ≡ 0)) }
{
    group.iter().position(|slot| slot.number == 0)
}

// A group with this slot at a place.
fn filled(mut group: [Slot; 8], place: usize, slot: Slot) -> [Slot; 8]
    requires { place < 8 }
    ensures { result ≡ slice_set group place slot }
{
    group[place] = slot;
    group
}

// Puts the field behind so many into a slot; false where its key is none of its texts, or no slot is free for it.
fn put(groups: &mut Vec<[Slot; 8]>, count: usize, field: &QField) -> bool
    ensures put { IsTrue result → (before : List QField) → length before ≡ count → spec.AreWithin count groups.old.items → spec.AreWithin (count + 1) groups.new.items × ((key : List ℕ) → spec.is_in (before ++ field.now ∷ []) groups.new.items key ≡ (spec.is_in before groups.old.items key || bytes_eq key (key_now field.now))) }
    ensures kept { result ≡ false → groups.new.items ≡ groups.old.items }
{
    let Some(key) = plain_key(field) else {
        return false;
    };
    let Some(number) = number_after(count) else {
        return false;
    };
    let hash = hash_of(key);
    let at = group_of(groups.len(), hash);
    let Some(group) = group_at(groups.as_slice(), at) else {
        return false;
    };
    let Some(place) = free_place(group) else {
        return false;
    };
    let tag = tag_of(hash);
    let group = filled(*group, place, Slot { tag, number });
    groups[at] = group;
    true
}

impl Index {
    /// No key. It takes no memory.
    #[tactic(auto, using(crate::proofs::Slotted::indexed_none))]
    pub fn none(alloc: Global) -> Index
        ensures { spec.AreIndexed [] result.groups.items result.others }
    {
        Index {
            groups: Vec::new(alloc),
            filled: 0,
            others: BTreeSet::new(alloc),
        }
    }

    /// Whether one of the fields has this key.
    pub fn has(&self, fields: &[QField], key: &Str) -> bool
        ensures { result ≡ (spec.is_in fields.now self.now.groups.items key.now || contains_by (text_cmp key.now) self.now.others) }
    {
        is_in(fields, self.groups.as_slice(), key.as_str()) || self.others.contains(key)
    }
}

// The keys of fields and of the one behind so many.
#[tactic(auto, using(crate::proofs::Slotted::indexed_slot))]
fn with_next(alloc: Global, index: Index, count: usize, field: &QField) -> Result<Index, ReadError>
    ensures made { (before : List QField) → length before ≡ count → spec.AreIndexed before index.groups.items index.others → IfOk result (λ all. spec.AreIndexed (before ++ field.now ∷ []) all.groups.items all.others) }
    ensures memory { IfErr result (λ e. e ≡ errors.OutOfMemory) }
{
    let Index {
        mut groups,
        filled,
        others,
    } = index;
    if put(&mut groups, count, field) {
        let filled = filled.saturating_add(1);
        return Ok(Index {
            groups,
            filled,
            others,
        });
    }
    let others = with_other(alloc, others, field)?;
    Ok(Index {
        groups,
        filled,
        others,
    })
}

// With the key of a field that is in no slot.
fn with_other(
    alloc: Global,
    mut others: BTreeSet<Str>,
    field: &QField,
) -> Result<BTreeSet<Str>, ReadError>
    ensures made { (before : List QField) (groups : List (List Slot)) → spec.AreIndexed before groups others → IfOk result (λ all. spec.AreIndexed (before ++ field.now ∷ []) groups all) }
    ensures memory { IfErr result (λ e. e ≡ errors.OutOfMemory) }
{
    let key = key_of(alloc, field)?;
    others.insert(key)?;
    Ok(others)
}

// So many groups of free slots.
fn free_groups(alloc: Global, count: usize) -> Result<Vec<[Slot; 8]>, ReadError>
    ensures made { IfOk result (λ groups. groups.items ≡ replicate count (replicate 8 (record { tag = 0; number = 0 }))) }
    ensures memory { IfErr result (λ e. e ≡ errors.OutOfMemory) }
{
    Ok(vec![in alloc; [FREE; 8]; count]?)
}

// The keys of fields, in so many groups.
fn grouped(alloc: Global, count: usize, fields: &[QField]) -> Result<Index, ReadError>
    ensures made { IfOk result (λ all. spec.AreIndexed fields.now all.groups.items all.others) }
    ensures memory { IfErr result (λ e. e ≡ errors.OutOfMemory) }
{
    let mut index = Index {
        groups: free_groups(alloc, count)?,
        filled: 0,
        others: BTreeSet::new(alloc),
    };
    for (i, field) in fields.iter().enumerate() {
        index = with_next(alloc, index, i, field)?;
    }
    Ok(index)
}

// The keys of fields. Where two slots or more of a group are filled, taken all in all, there are four times as many groups
// then.
fn with_room(alloc: Global, index: Index, fields: &[QField]) -> Result<Index, ReadError>
    ensures made { spec.AreIndexed fields.now index.groups.items index.others → IfOk result (λ all. spec.AreIndexed fields.now all.groups.items all.others) }
    ensures memory { IfErr result (λ e. e ≡ errors.OutOfMemory) }
{
    let count = index.groups.len();
    if count > index.filled / 2 {
        return Ok(index);
    }
    grouped(alloc, count.saturating_mul(4).max(4), fields)
}

// Whether the key of a field is that of one of these, by its slot.
fn is_again(groups: &[[Slot; 8]], fields: &[QField], field: &QField) -> bool
    ensures { IsTrue result → spec.is_in fields.now groups.now (key_now field.now) ≡ true }
{
    match plain_key(field) {
        None => false,
        Some(key) => is_in(fields, groups, key),
    }
}

/// The keys of fields and of the one behind them.
#[tactic(auto, using(crate::proofs::Slotted::indexed_slot, crate::proofs::Slotted::indexed_again))]
pub fn with_key(
    alloc: Global,
    index: Index,
    fields: &[QField],
    field: &QField,
) -> Result<Index, ReadError>
    ensures made { spec.AreIndexed fields.now index.groups.items index.others → IfOk result (λ all. spec.AreIndexed (fields.now ++ field.now ∷ []) all.groups.items all.others) }
    ensures memory { IfErr result (λ e. e ≡ errors.OutOfMemory) }
{
    let Index {
        mut groups,
        filled,
        others,
    } = with_room(alloc, index, fields)?;
    if put(&mut groups, fields.len(), field) {
        let filled = filled.saturating_add(1);
        return Ok(Index {
            groups,
            filled,
            others,
        });
    }
    if is_again(groups.as_slice(), fields, field) {
        return Ok(Index {
            groups,
            filled,
            others,
        });
    }
    let others = with_other(alloc, others, field)?;
    Ok(Index {
        groups,
        filled,
        others,
    })
}
