// For each block the blocks that define the variables which it uses, by a map from names to blocks.
ghost use Rattle.std.specs.Prelude.{◌≡◌, ℕ, List as Items, ◌++◌, ◌&&◌, not, map, flat_map, IfOk, OnOk};
ghost use Rattle.std.specs.BTreeMap.{UpdatesBy};
ghost use Rattle.dg_values.specs.Order.{text_cmp, same_text};
ghost use Rattle.dg_check.specs.Names.{is_name_in};
ghost use Rattle.dg_check.specs.Cycles.{definers};
ghost use Rattle.dg_check.specs.RunOrder.{blocks_under, alone_where, dependencies};

use crate::blocks::BlockNames;
use crate::names::Names;
use dg_values::{List, Mem, OutOfMemory};
use std::alloc::Global;
use std::collections::BTreeMap;

// Takes out the blocks under a name.
fn take_under(alloc: Global, under: &mut BTreeMap<&str, List<usize>>, name: &str) -> List<usize>
    ensures blocks { result ≡ blocks_under under.old name.now }
    ensures others { UpdatesBy (λ x y. text_cmp x.now y.now) (λ other. text_cmp name.now other.now) under.old under.new None }
{
    match under.remove(name) {
        Some(blocks) => blocks,
        None => List::new(alloc),
    }
}

// Adds a block at the end of those under a name.
fn add_under<'a>(
    alloc: Global,
    under: &mut BTreeMap<&'a str, List<usize>>,
    name: &'a str,
    at: usize,
) -> Mem<()>
    ensures { OnOk result ((x : Items ℕ) → blocks_under under.new x ≡ blocks_under under.old x ++ alone_where (same_text x name.now) at) }
{
    let mut blocks = take_under(alloc, under, name);
    blocks.push(at)?;
    under.insert(name, blocks)?;
    Ok(())
}

// The same for a name that isn't among those that the block has had.
fn add_once<'a>(
    alloc: Global,
    under: &mut BTreeMap<&'a str, List<usize>>,
    had: &Names<'a>,
    name: &'a str,
    at: usize,
) -> Mem<()>
    ensures { OnOk result ((x : Items ℕ) → blocks_under under.new x ≡ blocks_under under.old x ++ alone_where (not (is_name_in had.now name.now) && same_text x name.now) at) }
{
    if had.has(name) {
        return Ok(());
    }
    add_under(alloc, under, name, at)
}

// Adds a block under each of its names, once.
fn add_block<'a>(
    alloc: Global,
    under: &mut BTreeMap<&'a str, List<usize>>,
    names: &[&'a str],
    at: usize,
) -> Mem<()>
    ensures { OnOk result ((x : Items ℕ) → blocks_under under.new x ≡ blocks_under under.old x ++ alone_where (is_name_in (map (λ name. name.now) names.now) x) at) }
{
    let mut had = Names::none(alloc);
    for name in names {
        add_once(alloc, under, &had, name, at)?;
        had.push(name)?;
    }
    Ok(())
}

/// The blocks that define each name.
pub fn all_definers<'a>(
    alloc: Global,
    blocks: &[BlockNames<'a>],
) -> Mem<BTreeMap<&'a str, List<usize>>>
    ensures { IfOk result (λ under. (x : Items ℕ) → blocks_under under x ≡ definers blocks.now x) }
{
    let mut under = BTreeMap::new(alloc);
    for (at, block) in blocks.iter().enumerate() {
        add_block(alloc, &mut under, block.defined.as_slice(), at)?;
    }
    Ok(under)
}

/// The blocks under a name.
pub fn blocks_under<'m>(under: &'m BTreeMap<&str, List<usize>>, name: &str) -> &'m [usize]
    ensures { result.now ≡ blocks_under under.now name.now }
{
    match under.get(name) {
        Some(blocks) => blocks.as_slice(),
        None => &[],
    }
}

// Adds the blocks under a name.
fn add_under_name(
    under: &BTreeMap<&str, List<usize>>,
    needs: &mut Vec<usize>,
    name: &str,
) -> Mem<()>
    ensures { OnOk result (needs.new.items ≡ needs.old.items ++ blocks_under under.now name.now) }
{
    needs.extend_from_slice(blocks_under(under, name))?;
    Ok(())
}

// The blocks under the names that a block uses.
fn needs_of(alloc: Global, under: &BTreeMap<&str, List<usize>>, used: &[&str]) -> Mem<List<usize>>
    ensures { IfOk result (λ needs. needs ≡ flat_map (blocks_under under.now) (map (λ name. name.now) used.now)) }
{
    let mut needs = Vec::new(alloc);
    for name in used {
        add_under_name(under, &mut needs, name)?;
    }
    Ok(List::from_vec(needs))
}

/// For each block the places of those whose variables it uses. A use is one look-up by halves.
pub fn dependencies(alloc: Global, blocks: &[BlockNames<'_>]) -> Mem<Vec<List<usize>>>
    ensures { IfOk result (λ deps. deps.items ≡ dependencies blocks.now) }
{
    let under = all_definers(alloc, blocks)?;
    let mut deps = Vec::new(alloc);
    for block in blocks {
        deps.push(needs_of(alloc, &under, block.used.as_slice())?)?;
    }
    Ok(deps)
}
