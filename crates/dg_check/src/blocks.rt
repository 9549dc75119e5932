// The names that each block defines and uses.
ghost use Rattle.std.specs.Prelude.{◌≡◌, ◌++◌, ◌∷◌, [], IfOk, OnOk, flat_map, map};
ghost use Rattle.dg_check.specs.Places.{places_met, places_of_block};
ghost use Rattle.dg_check.specs.Variables.{uses_met};
ghost use Rattle.dg_check.specs.Blocks.{names_of_block, names_of_blocks};

use crate::names::Names;
use crate::places::{Place, add_block, places_of_block};
use crate::uses::{Use, uses_of_places};
use crate::variables::{all_names, definitions_of};
use dg_parse::QBlock;
use dg_schema::Schema;
use dg_values::{Mem, OutOfMemory, Str};
use std::alloc::Global;

/// The names that a block defines, and those that it uses.
#[derive(Drop)]
pub struct BlockNames<'a> {
    /// The names that it defines.
    pub defined: Names<'a>,
    /// The names that it uses.
    pub used: Names<'a>,
}

// The names of variables that are used.
fn used_names<'a>(alloc: Global, uses: &[Use<'a>]) -> Mem<Names<'a>>
    ensures { IfOk result (λ names. names ≡ map (λ u. u.name) (uses_met uses.now)) }
{
    let mut names = Names::none(alloc);
    for used in uses {
        names.push(used.name)?;
    }
    Ok(names)
}

// The names that the places of a block define and use. What these variables have isn't asked, so no schema is needed.
fn names_of_block<'a>(alloc: Global, places: &[Place<'a>]) -> Mem<BlockNames<'a>>
    ensures { IfOk result (λ names. names ≡ names_of_block (places_met places.now)) }
{
    let schema = Schema::new(alloc);
    let definitions = definitions_of(alloc, &schema, places)?;
    let defined = all_names(alloc, definitions.as_slice())?;
    let uses = uses_of_places(alloc, places)?;
    let used = used_names(alloc, uses.as_slice())?;
    Ok(BlockNames { defined, used })
}

// The names that a block defines and uses.
fn names_of_one<'a>(alloc: Global, block: &'a QBlock) -> Mem<BlockNames<'a>>
    ensures { IfOk result (λ names. names ≡ names_of_block (places_of_block block.now)) }
{
    let places = places_of_block(alloc, block)?;
    names_of_block(alloc, places.as_slice())
}

/// The names that each block defines and uses.
pub fn names_of_blocks<'a>(alloc: Global, blocks: &'a [QBlock]) -> Mem<Vec<BlockNames<'a>>>
    ensures { IfOk result (λ names. names.items ≡ names_of_blocks blocks.now) }
{
    let mut names = Vec::new(alloc);
    for block in blocks {
        names.push(names_of_one(alloc, block)?)?;
    }
    Ok(names)
}

// Adds the places of a block, and the names that it defines and uses.
fn add_seen<'a>(
    alloc: Global,
    places: &mut Vec<Place<'a>>,
    names: &mut Vec<BlockNames<'a>>,
    block: &'a QBlock,
) -> Mem<()>
    ensures places { OnOk result (places_met places.new.items ≡ places_met places.old.items ++ places_of_block block.now) }
    ensures names { OnOk result (names.new.items ≡ names.old.items ++ names_of_block (places_of_block block.now) ∷ []) }
{
    let before = places.len();
    add_block(places, block)?;
    let own = names_of_block(alloc, &places.as_slice()[before..])?;
    Ok(names.push(own)?)
}

/// The places of blocks, in the order of the text, and the names that each block defines and uses. The text is gone over once.
pub fn places_and_names<'a>(
    alloc: Global,
    blocks: &'a [QBlock],
) -> Mem<(Vec<Place<'a>>, Vec<BlockNames<'a>>)>
    ensures places { IfOk result (λ made. places_met made.0.items ≡ flat_map places_of_block blocks.now) }
    ensures names { IfOk result (λ made. made.1.items ≡ names_of_blocks blocks.now) }
{
    let mut places = Vec::new(alloc);
    let mut names = Vec::new(alloc);
    for block in blocks {
        add_seen(alloc, &mut places, &mut names, block)?;
    }
    Ok((places, names))
}

/// Copies of the names that blocks define, in their order. The error is want of memory.
pub fn defined_names(alloc: Global, blocks: &[BlockNames<'_>]) -> Mem<Vec<Str>>
    ensures { IfOk result (λ names. names.items ≡ flat_map (λ block. block.defined) blocks.now) }
{
    let mut names = Vec::new(alloc);
    for block in blocks {
        block.defined.add_copies(alloc, &mut names)?;
    }
    Ok(names)
}
