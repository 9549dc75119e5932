// The fields of a list with their keys, and the blocks of a text so far with their names in ascending order.
ghost use Rattle.std.specs.Prelude.{◌≡◌, ◌++◌, ◌∷◌, [], IfOk, IfErr};
ghost use Rattle.dg_text.specs.declared.reading.ReadError.TheVariants as errors;
ghost use Rattle.dg_parse.specs.Keys.{is_key, is_alias};
ghost use Rattle.dg_parse.specs.Grammar.{is_block};

use crate::slots::{Index, with_key};
use crate::{QBlock, QField};
use dg_text::ReadError;
use dg_text::texts::owned;
use dg_values::{List, Str};
use std::alloc::{AllocFailed, Global};
use std::collections::BTreeSet;
use std::marker::Model;

/// Fields of one list, which contracts see in their order. A key is looked up in one group of slots, and among those that
/// have no slot in about as many steps as their number has bits.
#[derive(Drop)]
pub struct Fields {
    fields: List<QField>,
    index: Index,
}

impl Model for Fields {
    ghost use Rattle.std.specs.Prelude.{List};
    ghost use Rattle.std.specs.Coded.{codes};
    ghost use Rattle.dg_parse.specs.contracts.query.QItem as item;
    ghost use Rattle.dg_parse.specs.contracts.query.QPart as part;
    ghost use Rattle.dg_parse.specs.declared.query.QField.{QField};
    ghost use Rattle.dg_parse.specs.Slots.{AreIndexed};

    ghost Value = { List QField };

    ghost coded = { Prim.hlevel (codes, item.the_row.coded, part.the_row.coded) };

    ghost view = { λ f. f.fields };

    ghost invariant = { λ f. AreIndexed f.fields f.index.groups.items f.index.others };
}

impl Fields {
    /// No field. It takes no memory.
    pub fn none(alloc: Global) -> Fields
        ensures { result ≡ [] }
    {
        Fields {
            fields: List::new(alloc),
            index: Index::none(alloc),
        }
    }

    /// Whether a field has this key.
    pub fn has_key(&self, key: &Str) -> bool
        ensures { result ≡ is_key self.now key.now }
    {
        self.index.has(self.fields.as_slice(), key)
    }

    /// Whether a field has this key, where there is one.
    pub fn has_alias(&self, alias: &Option<Str>) -> bool
        ensures { result ≡ is_alias self.now alias.now }
    {
        match alias {
            None => false,
            Some(key) => self.has_key(key),
        }
    }

    /// These fields and one more.
    pub fn with(self, alloc: Global, field: QField) -> Result<Fields, ReadError>
        ensures made { IfOk result (λ all. all ≡ self ++ field ∷ []) }
        ensures memory { IfErr result (λ e. e ≡ errors.OutOfMemory) }
    {
        let Fields { mut fields, index } = self;
        let index = with_key(alloc, index, fields.as_slice(), &field)?;
        fields.push(field)?;
        Ok(Fields { fields, index })
    }

    /// The fields. It takes no memory.
    pub fn into_list(self) -> List<QField>
        ensures { result ≡ self }
    {
        let Fields { fields, .. } = self;
        fields
    }
}

/// Blocks of one text, which contracts see in their order. A name is looked up in about as many steps as the number of
/// blocks has bits.
#[derive(Drop)]
pub struct Blocks {
    blocks: List<QBlock>,
    names: BTreeSet<Str>,
}

impl Model for Blocks {
    ghost use Rattle.std.specs.Prelude.{◌≡◌, List, ℕ};
    ghost use Rattle.std.specs.BTreeSet.{contains_by};
    ghost use Rattle.std.specs.Coded.{codes};
    ghost use Rattle.dg_values.specs.Order.{text_cmp};
    ghost use Rattle.dg_parse.specs.contracts.query.QItem as item;
    ghost use Rattle.dg_parse.specs.contracts.query.QPart as part;
    ghost use Rattle.dg_parse.specs.declared.query.QBlock.{QBlock};
    ghost use Rattle.dg_parse.specs.Grammar.{is_block};

    ghost Value = { List QBlock };

    ghost coded = { Prim.hlevel (codes, item.the_row.coded, part.the_row.coded) };

    ghost view = { λ b. b.blocks };

    ghost invariant = { λ b. (name : List ℕ) → contains_by (text_cmp name) b.names ≡ is_block b.blocks name };
}

impl Blocks {
    /// No block. It takes no memory.
    pub fn none(alloc: Global) -> Blocks
        ensures { result ≡ [] }
    {
        Blocks {
            blocks: List::new(alloc),
            names: BTreeSet::new(alloc),
        }
    }

    /// Whether a block has this name.
    pub fn has_name(&self, name: &Str) -> bool
        ensures { result ≡ is_block self.now name.now }
    {
        self.names.contains(name)
    }

    /// These blocks and one more.
    pub fn with(self, alloc: Global, block: QBlock) -> Result<Blocks, ReadError>
        ensures made { IfOk result (λ all. all ≡ self ++ block ∷ []) }
        ensures memory { IfErr result (λ e. e ≡ errors.OutOfMemory) }
    {
        let Blocks {
            mut blocks,
            mut names,
        } = self;
        let name = owned(alloc, block.name.as_str())?;
        blocks.push(block)?;
        names.insert(name)?;
        Ok(Blocks { blocks, names })
    }

    /// The blocks. It takes no memory.
    pub fn into_list(self) -> List<QBlock>
        ensures { result ≡ self }
    {
        let Blocks { blocks, .. } = self;
        blocks
    }
}
