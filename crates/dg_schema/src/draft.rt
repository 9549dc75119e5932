// Definitions while they are read.
ghost use Rattle.std.specs.Prelude.{◌≡◌, false, [], ◌∷◌, ◌++◌, IfOk, OnOk};
ghost use Rattle.std.specs.BTreeMap.{values};
ghost use Rattle.dg_schema.specs.Definitions.{is_declared};
ghost use Rattle.dg_schema.specs.Readable.{AreReadable};

use crate::{PredDef, Schema};
use dg_values::{Mem, OutOfMemory, Str};
use std::alloc::Global;
use std::collections::BTreeMap;
use std::marker::Model;

/// Definitions with distinct names while they are read, with the place of each by its name in a tree: one more is found
/// and added by halves, in whatever order the names come. Contracts see them in the order in which they were declared.
#[derive(Debug, Drop)]
pub struct Draft {
    alloc: Global,
    definitions: Vec<PredDef>,
    places: BTreeMap<Str, usize>,
}

impl Model for Draft {
    ghost use Rattle.std.specs.Prelude.{List};
    ghost use Rattle.dg_schema.specs.declared.definition.PredDef.{PredDef};
    ghost use Rattle.dg_schema.specs.Places.{AreKept};

    ghost Value = { List PredDef };

    ghost view = { λ d. d.definitions.items };

    ghost invariant = { λ d. AreKept d.definitions.items d.places.entries };
}

impl Draft {
    /// No definition. It takes no memory.
    pub fn new(alloc: Global) -> Draft
        ensures { result ≡ [] }
    {
        Draft {
            alloc,
            definitions: Vec::new(alloc),
            places: BTreeMap::new(alloc),
        }
    }

    /// Whether the name is declared.
    pub fn declares(&self, name: &Str) -> bool
        ensures { result ≡ is_declared self.now name.now }
    {
        self.places.contains_key(name)
    }

    /// Adds a definition whose name isn't declared.
    pub fn add(&mut self, definition: PredDef) -> Mem<()>
        requires missing { is_declared self.old definition.name ≡ false }
        ensures ok { OnOk result (self.new ≡ self.old ++ definition ∷ []) }
    {
        let name = definition.name.copy(self.alloc)?;
        self.definitions.reserve(1)?;
        let place = self.definitions.len();
        self.places.insert(name, place)?;
        self.definitions.push_reserved(definition);
        Ok(())
    }

    /// The definitions as a schema, where each can be written.
    pub fn into_schema(self) -> Mem<Schema>
        requires readable { AreReadable self }
        ensures { IfOk result (λ schema. schema ≡ self) }
    {
        let Draft {
            alloc,
            definitions,
            places,
        } = self;
        let by_name = in_order(alloc, &places)?;
        Ok(Schema::of_parts(alloc, definitions, by_name))
    }
}

// The places in the order of the names.
fn in_order(alloc: Global, places: &BTreeMap<Str, usize>) -> Mem<Vec<usize>>
    ensures { IfOk result (λ all. all.items ≡ values places.now) }
{
    let mut all = Vec::new(alloc);
    for place in places.values() {
        all.push(*place)?;
    }
    Ok(all)
}
