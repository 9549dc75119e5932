// Which variables may be circular, by numbers of the blocks: one that is circular is used in a block of its definer's number.
ghost use Rattle.std.specs.Prelude.{◌≡◌, ◌++◌, [], ◌∷◌, map, IfOk, OnOk};
ghost use Rattle.dg_check.specs.Cycles.{definers};
ghost use Rattle.dg_check.specs.RunOrder.{dependencies, blocks_under};
ghost use Rattle.dg_check.specs.Numbers.{number_at, are_below, are_falling, has_number, used_within, suspects_from, AreSuspects};

use crate::blocks::BlockNames;
use crate::names::Names;
use crate::needs::{all_definers, blocks_under};
use crate::numbers::numbers_of;
use dg_values::{List, Mem, OutOfMemory};
use std::alloc::Global;
use std::collections::BTreeMap;

// The number of the block at a place; one that has none has 0.
fn number_at(numbers: &[Option<usize>], at: usize) -> usize
    ensures { result ≡ number_at numbers.now at }
{
    match numbers.get(at) {
        None => 0,
        Some(number) => number.unwrap_or(0),
    }
}

// Whether none of these blocks has a greater number.
fn are_below(numbers: &[Option<usize>], number: usize, places: &[usize]) -> bool
    ensures { result ≡ are_below numbers.now number places.now }
{
    places
        .iter()
        .all(|place| number_at(numbers, *place) <= number)
}

// Whether no block needs one of a greater number.
fn are_falling(numbers: &[Option<usize>], deps: &[List<usize>]) -> bool
    ensures { result ≡ are_falling numbers.now 0 deps.now }
{
    for (at, needs) in deps.iter().enumerate() {
        if !are_below(numbers, number_at(numbers, at), needs.as_slice()) {
            return false;
        }
    }
    true
}

// Whether one of these blocks has this number.
fn has_number(numbers: &[Option<usize>], number: usize, places: &[usize]) -> bool
    ensures { result ≡ has_number numbers.now number places.now }
{
    places
        .iter()
        .any(|place| number_at(numbers, *place) == number)
}

// Adds a name, if a block that defines it has this number.
fn add_if_within<'a>(
    names: &mut Names<'a>,
    numbers: &[Option<usize>],
    under: &BTreeMap<&str, List<usize>>,
    number: usize,
    name: &'a str,
) -> Mem<()>
    ensures { OnOk result (names.new ≡ names.old ++ used_within numbers.now (blocks_under under.now) number (name.now ∷ [])) }
{
    if !has_number(numbers, number, blocks_under(under, name)) {
        return Ok(());
    }
    names.push(name)
}

// Adds the names that a block of this number uses of blocks that have it too.
fn add_within<'a>(
    names: &mut Names<'a>,
    numbers: &[Option<usize>],
    under: &BTreeMap<&str, List<usize>>,
    number: usize,
    used: &[&'a str],
) -> Mem<()>
    ensures { OnOk result (names.new ≡ names.old ++ used_within numbers.now (blocks_under under.now) number (map (λ name. name.now) used.now)) }
{
    for name in used {
        add_if_within(names, numbers, under, number, name)?;
    }
    Ok(())
}

// The names that some block uses of blocks of its own number.
fn used_alike<'a>(
    alloc: Global,
    blocks: &[BlockNames<'a>],
    numbers: &[Option<usize>],
) -> Mem<Names<'a>>
    ensures { IfOk result (λ names. names ≡ suspects_from numbers.now (definers blocks.now) 0 blocks.now) }
{
    let under = all_definers(alloc, blocks)?;
    let mut names = Names::none(alloc);
    for (at, block) in blocks.iter().enumerate() {
        let number = number_at(numbers, at);
        add_within(&mut names, numbers, &under, number, block.used.as_slice())?;
    }
    Ok(names)
}

/// Names among which each circular variable is, by numbers of the blocks. None where the numbers don't fall, and any may be.
#[tactic(auto, using(crate::proofs::SuspectLaws::all_suspects))]
pub fn suspects_of<'a>(
    alloc: Global,
    blocks: &[BlockNames<'a>],
    deps: &[List<usize>],
) -> Mem<Option<Names<'a>>>
    requires { deps.now ≡ dependencies blocks.now }
    ensures { IfOk result (AreSuspects blocks.now) }
{
    let numbers = numbers_of(alloc, deps)?;
    if !are_falling(numbers.as_slice(), deps) {
        return Ok(None);
    }
    Ok(Some(used_alike(alloc, blocks, numbers.as_slice())?))
}
