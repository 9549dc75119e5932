// Flat objects that share their fields.
ghost use Rattle.std.specs.Prelude.{◌≡◌, ◌++◌, ◌∷◌, [], List as Items, IfOk, IfSome, OnOk, map, bytes_eq};
ghost use Rattle.std.specs.Arc.{arc_value};
ghost use Rattle.std.specs.List.{list_any};
ghost use Rattle.dg_tree.specs.declared.tree.Field.{Field as Pair};
ghost use Rattle.dg_shape.specs.Normalize.{with_pair, joined, has_pair};
ghost use Rattle.dg_level.specs.Flats.{HasKeys, weight};

use crate::flat_keys::FlatKey;
use dg_tree::Field;
use dg_values::{Mem, OutOfMemory};
use std::alloc::Global;
use std::collections::BTreeSet;
use std::marker::Model;
use std::sync::Arc;

// An object of more fields than these has an index, once it was gone over for as many.
const MOST_PLAIN: u32 = 64;

/// A flat object: fields, which it shares with others. Contracts see the fields.
///
/// A field is added unless one of its key is there, so no two are of one key. No text is copied.
#[derive(Drop)]
pub struct Flat {
    pairs: Vec<Arc<Field>>,
    // The keys of the fields.
    keys: Option<Box<BTreeSet<FlatKey>>>,
    // For how many fields it was gone over without an index.
    asked: u32,
}

impl Model for Flat {
    ghost use Rattle.std.specs.Prelude.{List, map, IfSome};
    ghost use Rattle.std.specs.Coded.{codes};
    ghost use Rattle.std.specs.Arc.{arc_value};
    ghost use Rattle.dg_tree.specs.contracts.tree.Field as field;
    ghost use Rattle.dg_tree.specs.declared.tree.Field.{Field};
    ghost use Rattle.dg_level.specs.Flats.{HasKeys};

    ghost Value = { List Field };

    ghost coded = { Prim.hlevel (codes, field.the_row.coded) };

    ghost view = { λ flat. map arc_value flat.pairs.items };

    ghost invariant = { λ flat. IfSome flat.keys (λ keys. HasKeys keys.value (map arc_value flat.pairs.items)) };
}

// Whether a field of this key is among these.
fn is_there(pairs: &[Arc<Field>], key: &str) -> bool
    ensures { result ≡ list_any (λ p. bytes_eq (arc_value {X = Pair} p).key key.now) pairs.now }
{
    pairs.iter().any(|pair| pair.key.as_str() == key)
}

// The fields once more, shared, with room for so many. The error is want of memory.
fn shared(alloc: Global, pairs: &[Arc<Field>], room: usize) -> Mem<Vec<Arc<Field>>>
    ensures { IfOk result (λ v. map arc_value v.items ≡ map arc_value pairs.now) }
{
    let mut out = Vec::with_capacity(alloc, room)?;
    for pair in pairs {
        out.push(Arc::try_clone(pair)?)?;
    }
    Ok(out)
}

// Puts the key of a field into an index. The error is want of memory.
fn insert_key(keys: &mut BTreeSet<FlatKey>, pair: &Arc<Field>) -> Mem<()>
    ensures { OnOk result ((fields : Items Pair) → HasKeys keys.old fields → HasKeys keys.new (fields ++ arc_value pair.now ∷ [])) }
{
    keys.insert(FlatKey::of(pair)?)?;
    Ok(())
}

// The keys of fields, in order. The error is want of memory.
fn keys_of(alloc: Global, pairs: &[Arc<Field>]) -> Mem<BTreeSet<FlatKey>>
    ensures { IfOk result (λ keys. HasKeys keys (map arc_value pairs.now)) }
{
    let mut keys = BTreeSet::new(alloc);
    for pair in pairs {
        insert_key(&mut keys, pair)?;
    }
    Ok(keys)
}

// An index with the key of a field more, where there is one. The error is want of memory.
fn with_key(
    keys: Option<Box<BTreeSet<FlatKey>>>,
    pair: &Arc<Field>,
) -> Mem<Option<Box<BTreeSet<FlatKey>>>>
    ensures { IfOk result (λ more. (fields : Items Pair) → IfSome keys (λ set. HasKeys set.value fields) → IfSome more (λ set. HasKeys set.value (fields ++ arc_value pair.now ∷ []))) }
{
    match keys {
        None => Ok(None),
        Some(mut keys) => {
            insert_key(&mut *keys, pair)?;
            Ok(Some(keys))
        }
    }
}

// Puts the key of a field that is added into the index, where there is one. The error is want of memory, and there is no
// index then.
fn put_key(keys: &mut Option<Box<BTreeSet<FlatKey>>>, pair: &Arc<Field>) -> Mem<()>
    ensures { (fields : Items Pair) → IfSome keys.old (λ set. HasKeys set.value fields) → IfSome keys.new (λ set. HasKeys set.value (fields ++ arc_value pair.now ∷ [])) }
{
    *keys = with_key(keys.take(), pair)?;
    Ok(())
}

// What an object of these fields weighs: five bytes a field with what stands behind it, and a brace and a comma.
fn weight_of(pairs: &[Arc<Field>]) -> usize
    ensures { result ≡ weight (map arc_value pairs.now) }
{
    if pairs.is_empty() {
        return 0;
    }
    2 + 5 * pairs.len()
}

impl Flat {
    /// No field. It takes no memory.
    pub fn new(alloc: Global) -> Flat
        ensures { result ≡ [] }
    {
        Flat::of(Vec::new(alloc))
    }

    // An object of these fields, without an index.
    fn of(pairs: Vec<Arc<Field>>) -> Flat
        ensures { result ≡ map arc_value pairs.items }
    {
        Flat {
            pairs,
            keys: None,
            asked: 0,
        }
    }

    /// The fields.
    pub fn pairs(&self) -> &[Arc<Field>]
        ensures { map arc_value result.now ≡ self.now }
    {
        self.pairs.as_slice()
    }

    /// What it weighs: how many bytes it takes in an array at least, with the comma behind it.
    pub fn weight(&self) -> usize
        ensures { result ≡ weight self.now }
    {
        weight_of(self.pairs.as_slice())
    }

    /// Whether it has a field.
    pub fn has_pair(&self) -> bool
        ensures { result ≡ has_pair self.now }
    {
        self.pairs.len() > 0
    }

    // Whether a field of the key of this one is there. The error is want of memory.
    fn has(&self, pair: &Arc<Field>) -> Mem<bool>
        ensures { IfOk result (λ there. there ≡ list_any (λ p. bytes_eq p.key (arc_value pair.now).key) self.now) }
    {
        match &self.keys {
            None => Ok(is_there(self.pairs.as_slice(), pair.key.as_str())),
            Some(keys) => {
                let key = FlatKey::of(pair)?;
                Ok(keys.contains(&key))
            }
        }
    }

    // Makes the index where it pays. The error is want of memory.
    fn prepare(&mut self) -> Mem<()>
        ensures { self.new ≡ self.old }
    {
        if self.asked < MOST_PLAIN {
            self.asked += 1;
            return Ok(());
        }
        if self.pairs.len() > MOST_PLAIN as usize && self.keys.is_none() {
            let alloc = *self.pairs.allocator();
            let keys = keys_of(alloc, self.pairs.as_slice())?;
            self.keys = Some(Box::new(alloc, keys)?);
        }
        Ok(())
    }

    // Adds a field at the end. The error is want of memory.
    fn push(&mut self, pair: &Arc<Field>) -> Mem<()>
        ensures { OnOk result (self.new ≡ self.old ++ arc_value pair.now ∷ []) }
    {
        self.pairs.push(Arc::try_clone(pair)?)?;
        put_key(&mut self.keys, pair)
    }

    /// Adds a field, unless one of its key is there. The error is want of memory.
    pub fn add(&mut self, pair: &Arc<Field>) -> Mem<()>
        ensures { OnOk result (self.new ≡ with_pair self.old (arc_value pair.now)) }
    {
        self.prepare()?;
        if self.has(pair)? {
            return Ok(());
        }
        self.push(pair)
    }

    /// Adds the fields of another object whose keys it lacks. The error is want of memory.
    pub fn join(&mut self, more: &Flat) -> Mem<()>
        ensures { OnOk result (self.new ≡ joined self.old more.now) }
    {
        for pair in more.pairs() {
            self.add(pair)?;
        }
        Ok(())
    }

    /// The object with the fields of another whose keys it lacks. The error is want of memory.
    pub fn joined(&self, alloc: Global, more: &Flat) -> Mem<Flat>
        ensures { IfOk result (λ flat. flat ≡ joined self.now more.now) }
    {
        let room = self.pairs.len() + more.pairs.len();
        let mut both = Flat::of(shared(alloc, self.pairs.as_slice(), room)?);
        both.join(more)?;
        Ok(both)
    }
}
