// Names, and where each first stands.
ghost use Rattle.std.specs.Prelude.{◌≡◌, [], ◌∷◌, ◌++◌, IfOk, OnOk};
ghost use Rattle.std.specs.List.{position_or_len};
ghost use Rattle.dg_values.specs.Order.{same_text};

use dg_values::{Mem, OutOfMemory, Str};
use std::alloc::Global;
use std::collections::BTreeMap;
use std::marker::Model;

/// Names in the order in which they were added. Contracts see their bytes.
#[derive(Drop)]
pub struct Names<'a> {
    order: Vec<&'a str>,
    // The first place of each in the order.
    places: BTreeMap<&'a str, usize>,
}

impl<'a> Model for Names<'a> {
    ghost use Rattle.std.specs.Prelude.{◌≡◌, List, ℕ, map};
    ghost use Rattle.std.specs.List.{position};
    ghost use Rattle.std.specs.BTreeMap.{get_by};
    ghost use Rattle.dg_values.specs.Order.{text_cmp, same_text};

    ghost Value = { List (List ℕ) };

    ghost view = { λ n. map (λ name. name.now) n.order.items };

    ghost invariant = { λ n. (name : List ℕ) → get_by (λ other. text_cmp name other.now) n.places ≡ position (same_text name) (map (λ other. other.now) n.order.items) };
}

impl<'a> Names<'a> {
    // No name.
    fn none(alloc: Global) -> Names<'a>
        ensures { result ≡ [] }
    {
        Names {
            order: Vec::new(alloc),
            places: BTreeMap::new(alloc),
        }
    }

    // Adds a name at the end, also one that is there.
    fn push(&mut self, name: &'a str) -> Mem<()>
        ensures { OnOk result (self.new ≡ self.old ++ name.now ∷ []) }
    {
        if self.places.contains_key(name) {
            return Ok(self.order.push(name)?);
        }
        let place = self.order.len();
        self.order.push(name)?;
        match self.places.insert(name, place) {
            Ok(_) => Ok(()),
            Err(_) => {
                self.order.pop();
                Err(OutOfMemory)
            }
        }
    }

    /// The first place of a name, or how many names there are. It looks by halves.
    pub fn place(&self, name: &str) -> usize
        ensures { result ≡ position_or_len (same_text name.now) self.now }
    {
        match self.places.get(name) {
            Some(place) => *place,
            None => self.order.len(),
        }
    }
}

/// These names, in their order.
pub fn names_of<'a>(alloc: Global, names: &'a [Str]) -> Mem<Names<'a>>
    ensures { IfOk result (λ ns. ns ≡ names.now) }
{
    let mut found = Names::none(alloc);
    for name in names {
        found.push(name.as_str())?;
    }
    Ok(found)
}
