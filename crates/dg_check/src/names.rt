// Names in order, and where each first stands.
ghost use Rattle.std.specs.Prelude.{◌≡◌, [], ◌∷◌, ◌++◌, map, OnOk};
ghost use Rattle.std.specs.List.{list_any, position_or_len};
ghost use Rattle.dg_values.specs.Order.{same_text};
ghost use Rattle.dg_check.specs.Names.{is_name_in};

use dg_values::{Mem, OutOfMemory, Str};
use std::alloc::Global;
use std::collections::BTreeMap;
use std::marker::Model;

/// Names in the order in which they were added. Contracts see their bytes.
#[derive(Drop)]
pub struct Names<'a> {
    order: Vec<&'a str>,
    // The first place of each in the order.
    places: BTreeMap<&'a str, usize>,
}

impl<'a> Model for Names<'a> {
    ghost use Rattle.std.specs.Prelude.{◌≡◌, List, ℕ, map};
    ghost use Rattle.std.specs.List.{position};
    ghost use Rattle.std.specs.BTreeMap.{get_by};
    ghost use Rattle.dg_values.specs.Order.{text_cmp, same_text};

    ghost Value = { List (List ℕ) };

    ghost view = { λ n. map (λ name. name.now) n.order.items };

    ghost invariant = { λ n. (name : List ℕ) → get_by (λ other. text_cmp name other.now) n.places ≡ position (same_text name) (map (λ other. other.now) n.order.items) };
}

impl<'a> Names<'a> {
    /// No name.
    pub fn none(alloc: Global) -> Names<'a>
        ensures { result ≡ [] }
    {
        Names {
            order: Vec::new(alloc),
            places: BTreeMap::new(alloc),
        }
    }

    /// Adds a name at the end, also one that is there.
    pub fn push(&mut self, name: &'a str) -> Mem<()>
        ensures { OnOk result (self.new ≡ self.old ++ name.now ∷ []) }
    {
        if self.places.contains_key(name) {
            return Ok(self.order.push(name)?);
        }
        let place = self.order.len();
        self.order.push(name)?;
        match self.places.insert(name, place) {
            Ok(_) => Ok(()),
            Err(_) => {
                self.order.pop();
                Err(OutOfMemory)
            }
        }
    }

    /// The first place of a name, or how many names there are. It looks by halves.
    pub fn place(&self, name: &str) -> usize
        ensures { result ≡ position_or_len (same_text name.now) self.now }
    {
        match self.places.get(name) {
            Some(place) => *place,
            None => self.order.len(),
        }
    }

    /// Whether a name is there. It looks by halves.
    pub fn has(&self, name: &str) -> bool
        ensures { result ≡ is_name_in self.now name.now }
    {
        self.places.contains_key(name)
    }

    /// Whether one of these names is among others.
    pub fn any_in(&self, others: &Names<'_>) -> bool
        ensures { result ≡ list_any (is_name_in others.now) self.now }
    {
        any_in(self.order.as_slice(), others)
    }

    /// The names, in their order.
    pub fn as_slice(&self) -> &[&'a str]
        ensures { map (λ name. name.now) result.now ≡ self.now }
    {
        self.order.as_slice()
    }

    /// Adds copies of the names at the end of a list.
    pub fn add_copies(&self, alloc: Global, out: &mut Vec<Str>) -> Mem<()>
        ensures { OnOk result (out.new.items ≡ out.old.items ++ self.now) }
    {
        add_copies(alloc, self.order.as_slice(), out)
    }
}

// Whether one of these names is among others.
fn any_in(names: &[&str], others: &Names<'_>) -> bool
    ensures { result ≡ list_any (is_name_in others.now) (map (λ name. name.now) names.now) }
{
    for name in names {
        if others.has(name) {
            return true;
        }
    }
    false
}

// Adds copies of names.
fn add_copies(alloc: Global, names: &[&str], out: &mut Vec<Str>) -> Mem<()>
    ensures { OnOk result (out.new.items ≡ out.old.items ++ map (λ name. name.now) names.now) }
{
    for name in names {
        out.push(Str::from_str(alloc, name)?)?;
    }
    Ok(())
}
