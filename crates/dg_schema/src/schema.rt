// Definitions with distinct names, each of which can be written.
ghost use Rattle.std.specs.Prelude.{◌≡◌, [], IfOk, OnOk, OnErr, Ok, option_copied, string_bytes};
ghost use Rattle.dg_schema.specs.Definitions.{definition_of, with_definitions, AreDistinct};
ghost use Rattle.dg_schema.specs.Readable.{AreReadable, IsSchema};
ghost use Rattle.dg_schema.specs.Texts.{by_name, schema_text};
ghost use Rattle.dg_schema.specs.Whole.{schema};

use crate::{PredDef, places, placing, printing};
use dg_values::{Mem, OutOfMemory};
use std::alloc::{AllocError, Global};
use std::marker::Model;

/// Definitions with distinct names, each of which can be written in the schema language. Contracts see them in the order in
/// which they were declared.
#[derive(Debug, Drop)]
pub struct Schema {
    alloc: Global,
    definitions: Vec<PredDef>,
    // The places of the definitions, in ascending order of their names.
    by_name: Vec<usize>,
}

impl Model for Schema {
    ghost use Rattle.std.specs.Prelude.{List};
    ghost use Rattle.dg_schema.specs.declared.definition.PredDef.{PredDef};
    ghost use Rattle.dg_schema.specs.Readable.{IsSchema};

    ghost Value = { List PredDef };

    ghost view = { λ s. s.definitions.items };

    ghost invariant = { λ s. IsSchema s.definitions.items s.by_name.items };
}

/// An equal schema.
impl Clone for Schema {
    ghost is_clone = { λ schema copy. copy ≡ schema };

    fn clone(&self) -> Result<Schema, AllocError> {
        match self.copy() {
            Ok(copy) => Ok(copy),
            Err(_) => Err(AllocError),
        }
    }
}

// Copies of definitions.
fn copies(alloc: Global, definitions: &[PredDef]) -> Mem<Vec<PredDef>>
    ensures { IfOk result (λ copies. copies.items ≡ definitions.now) }
{
    let mut copies = Vec::with_capacity(alloc, definitions.len())?;
    for definition in definitions {
        copies.push(definition.copy(alloc)?)?;
    }
    Ok(copies)
}

impl Schema {
    /// No definition. It takes no memory.
    pub fn new(alloc: Global) -> Schema
        ensures { result ≡ [] }
    {
        Schema {
            alloc,
            definitions: Vec::new(alloc),
            by_name: Vec::new(alloc),
        }
    }

    // Definitions that can be written, with their places in order.
    pub(crate) fn of_parts(alloc: Global, definitions: Vec<PredDef>, by_name: Vec<usize>) -> Schema
        requires { IsSchema definitions.items by_name.items }
        ensures { result ≡ definitions.items }
    {
        Schema {
            alloc,
            definitions,
            by_name,
        }
    }

    /// The definitions, in the order in which they were declared.
    pub fn definitions(&self) -> &[PredDef]
        ensures items { result.now ≡ self.now }
        ensures distinct { AreDistinct self.now }
        ensures readable { AreReadable self.now }
    {
        self.definitions.as_slice()
    }

    /// The definition of a name; none exactly where it isn't declared. It looks by halves, and takes no memory.
    pub fn lookup<'a>(&'a self, name: &str) -> Option<&'a PredDef>
        ensures { option_copied result ≡ definition_of self.now name.now }
    {
        places::named(self.definitions.as_slice(), self.by_name.as_slice(), name)
    }

    /// An equal schema.
    pub fn copy(&self) -> Mem<Schema>
        ensures { IfOk result (λ schema. schema ≡ self.now) }
    {
        let definitions = copies(self.alloc, self.definitions.as_slice())?;
        let by_name = Vec::from_slice(self.alloc, self.by_name.as_slice())?;
        Ok(Schema {
            alloc: self.alloc,
            definitions,
            by_name,
        })
    }

    /// The older definitions, with each newer one added or put in its namesake's place. The old schema stays.
    pub fn with(&self, newer: &Schema) -> Mem<Schema>
        ensures { IfOk result (λ schema. schema ≡ with_definitions self.now newer.now) }
    {
        let mut schema = self.copy()?;
        schema.join(newer)?;
        Ok(schema)
    }

    /// Adds each newer definition, or puts it in its namesake's place. It copies the newer ones alone. After an error
    /// nothing has changed.
    pub fn join(&mut self, newer: &Schema) -> Mem<()>
        ensures ok { OnOk result (self.new ≡ with_definitions self.old newer.now) }
        ensures err { OnErr result (self.new ≡ self.old) }
    {
        let more = copies(self.alloc, newer.definitions())?;
        self.definitions.reserve(more.len())?;
        self.by_name.reserve(more.len())?;
        placing::put_all(&mut self.definitions, &mut self.by_name, more);
        Ok(())
    }

    /// One line for each definition, in ascending order of the names, as the schema language has it. It reads back as
    /// these definitions in that order.
    pub fn text_of(&self) -> Mem<String>
        ensures text { IfOk result (λ text. string_bytes text ≡ schema_text self.now) }
        ensures back { IfOk result (λ text. schema (string_bytes text) ≡ Ok (by_name self.now)) }
    {
        let text = printing::lines_at(
            self.alloc,
            self.definitions.as_slice(),
            self.by_name.as_slice(),
        )?;
        Ok(text.into_string())
    }
}
