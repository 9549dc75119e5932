// Flat objects, and what follows each of them.
ghost use Rattle.std.specs.Prelude.{◌≡◌, ◌++◌, ◌∷◌, [], IfOk, OnOk, map, flat_map, filter, bytes_eq};
ghost use Rattle.std.specs.List.{list_any};
ghost use Rattle.dg_shape.specs.Normalize.{with_pair, joined, times, has_pair, with_value};

use dg_tree::Field;
use dg_values::{Mem, OutOfMemory};
use std::alloc::Global;
use std::marker::Model;

/// A flat object: fields, no two of one key. Contracts see the fields.
#[derive(Drop)]
pub struct Flat<'a> {
    pairs: Vec<&'a Field>,
}

impl<'a> Model for Flat<'a> {
    ghost use Rattle.std.specs.Prelude.{List, map};
    ghost use Rattle.std.specs.Coded.{codes};
    ghost use Rattle.dg_tree.specs.contracts.tree.Field as field;
    ghost use Rattle.dg_tree.specs.declared.tree.Field.{Field};

    ghost Value = { List Field };

    ghost coded = { Prim.hlevel (codes, field.the_row.coded) };

    ghost view = { λ flat. map (λ pair. pair.now) flat.pairs.items };
}

impl<'a> Flat<'a> {
    /// No field.
    pub fn new(alloc: Global) -> Flat<'a>
        ensures { result ≡ [] }
    {
        Flat {
            pairs: Vec::new(alloc),
        }
    }

    /// The fields.
    pub fn pairs(&self) -> &[&'a Field]
        ensures { map (λ pair. pair.now) result.now ≡ self.now }
    {
        self.pairs.as_slice()
    }

    /// Whether it has a field.
    pub fn has_pair(&self) -> bool
        ensures { result ≡ has_pair self.now }
    {
        self.pairs.len() > 0
    }

    /// Adds a field, unless one of its key is there.
    pub fn add(&mut self, pair: &'a Field) -> Mem<()>
        ensures { OnOk result (self.new ≡ with_pair self.old pair.now) }
    {
        add_to(&mut self.pairs, pair)
    }

    /// The object with the fields of another.
    pub fn joined(&self, alloc: Global, more: &Flat<'a>) -> Mem<Flat<'a>>
        ensures { IfOk result (λ flat. flat ≡ joined self.now more.now) }
    {
        let pairs = joined_pairs(alloc, self.pairs.as_slice(), more.pairs.as_slice())?;
        Ok(Flat { pairs })
    }
}

// Whether a field of this key is among these.
fn is_there(pairs: &[&Field], key: &str) -> bool
    ensures { result ≡ list_any (λ p. bytes_eq p.now.key key.now) pairs.now }
{
    pairs.iter().any(|pair| pair.key.as_str() == key)
}

// Adds a field, unless one of its key is there.
fn add_to<'a>(pairs: &mut Vec<&'a Field>, pair: &'a Field) -> Mem<()>
    ensures { OnOk result (map (λ p. p.now) pairs.new.items ≡ with_pair (map (λ p. p.now) pairs.old.items) pair.now) }
{
    if is_there(pairs.as_slice(), pair.key.as_str()) {
        return Ok(());
    }
    Ok(pairs.push(pair)?)
}

// Fields with those of others whose keys they lack.
fn joined_pairs<'a>(alloc: Global, pairs: &[&'a Field], more: &[&'a Field]) -> Mem<Vec<&'a Field>>
    ensures { IfOk result (λ v. map (λ p. p.now) v.items ≡ joined (map (λ p. p.now) pairs.now) (map (λ p. p.now) more.now)) }
{
    let mut out = Vec::from_slice(alloc, pairs)?;
    for i in 0..more.len() {
        add_to(&mut out, more[i])?;
    }
    Ok(out)
}

/// One object without a field.
pub fn one_object<'a>(alloc: Global) -> Mem<Vec<Flat<'a>>>
    ensures { IfOk result (λ v. v.items ≡ [] ∷ []) }
{
    let mut objects = Vec::new(alloc);
    objects.push(Flat::new(alloc))?;
    Ok(objects)
}

/// The objects that have a field.
pub fn with_pairs<'a>(mut objects: Vec<Flat<'a>>) -> Vec<Flat<'a>>
    ensures { result.items ≡ filter has_pair objects.entry.items }
{
    objects.retain(|object| object.has_pair());
    objects
}

// Adds an object with those of each of the others.
fn push_joined<'a>(
    alloc: Global,
    out: &mut Vec<Flat<'a>>,
    object: &Flat<'a>,
    others: &[Flat<'a>],
) -> Mem<()>
    ensures { OnOk result (out.new.items ≡ out.old.items ++ map (joined object.now) others.now) }
{
    for other in others {
        out.push(object.joined(alloc, other)?)?;
    }
    Ok(())
}

// Each object followed by each of the others.
fn crossed<'a>(alloc: Global, objects: &[Flat<'a>], others: &[Flat<'a>]) -> Mem<Vec<Flat<'a>>>
    ensures { IfOk result (λ v. v.items ≡ flat_map (λ object. map (joined object) others.now) objects.now) }
{
    let mut out = Vec::new(alloc);
    for object in objects {
        push_joined(alloc, &mut out, object, others)?;
    }
    Ok(out)
}

/// Each object followed by each of the others, or alone where there are none.
pub fn times<'a>(alloc: Global, objects: Vec<Flat<'a>>, others: &[Flat<'a>]) -> Mem<Vec<Flat<'a>>>
    ensures { IfOk result (λ v. v.items ≡ times objects.entry.items others.now) }
{
    match others {
        [] => Ok(objects),
        [_, ..] => crossed(alloc, objects.as_slice(), others),
    }
}

// Adds a field to each object, unless one of its key is there.
fn add_to_each<'a>(objects: &mut [Flat<'a>], pair: &'a Field) -> Mem<()>
    ensures { OnOk result (objects.new ≡ map (λ object. with_pair object pair.now) objects.old) }
{
    for i in 0..objects.len() {
        objects[i].add(pair)?;
    }
    Ok(())
}

/// Objects with what is shown under an alias; under none it isn't shown.
pub fn with_value<'a>(
    alias: bool,
    pair: &'a Field,
    mut objects: Vec<Flat<'a>>,
) -> Mem<Vec<Flat<'a>>>
    ensures { IfOk result (λ v. v.items ≡ with_value alias pair.now objects.entry.items) }
{
    if alias {
        add_to_each(objects.as_mut_slice(), pair)?;
    }
    Ok(objects)
}
