// Which variables are used in a block on which their own block depends: none where all blocks can run, and else by going
// from the blocks that define one to all that these lead to. Only of suspects that is asked.
ghost use Rattle.std.specs.Prelude.{◌≡◌, ℕ, IfOk, find, flat_map};
ghost use Rattle.std.specs.List.{list_any};
ghost use Rattle.dg_values.specs.Ascending.{ascending};
ghost use Rattle.dg_values.specs.Order.{text_cmp};
ghost use Rattle.dg_check.specs.Cycles.{is_place_in, uses_of, uses_at, uses_name_at, is_reached, with_used, definers, depended_on, is_circular, least_circular};
ghost use Rattle.dg_check.specs.RunOrder.{dependencies, run_order};
ghost use Rattle.dg_check.specs.Numbers.{is_suspect, AreSuspects};
ghost use Rattle.dg_check.specs.Faults.{cycle};

use crate::CheckFault;
use crate::blocks::{BlockNames, defined_names};
use crate::names::Names;
use crate::needs::dependencies;
use crate::order::{have_all_run, run_among};
use crate::ran::Ran;
use crate::search::{add_led, add_new};
use crate::suspects::suspects_of;
use dg_sets::in_order;
use dg_values::{List, Mem, OutOfMemory, Str};
use std::alloc::Global;

// Whether a block is one of these.
fn is_place_in(places: &[usize], at: usize) -> bool
    ensures { result ≡ is_place_in places.now at }
{
    places.iter().any(|place| *place == at)
}

// Whether one block uses a variable of the other.
fn uses_of(user: &BlockNames<'_>, definer: &BlockNames<'_>) -> bool
    ensures { result ≡ uses_of user.now definer.now }
{
    user.used.any_in(&definer.defined)
}

// Whether the block at a place uses a variable of the other.
fn uses_at(blocks: &[BlockNames<'_>], user: usize, definer: &BlockNames<'_>) -> bool
    ensures { result ≡ uses_at blocks.now user definer.now }
{
    match blocks.get(user) {
        None => false,
        Some(block) => uses_of(block, definer),
    }
}

// Whether the block at a place uses this variable.
fn uses_name_at(blocks: &[BlockNames<'_>], name: &str, user: usize) -> bool
    ensures { result ≡ uses_name_at blocks.now name.now user }
{
    match blocks.get(user) {
        None => false,
        Some(block) => block.used.has(name),
    }
}

// Whether one of these blocks uses a variable of the other.
fn any_uses(blocks: &[BlockNames<'_>], users: &[usize], block: &BlockNames<'_>) -> bool
    ensures { result ≡ list_any (λ user. uses_at blocks.now user block.now) users.now }
{
    users.iter().any(|user| uses_at(blocks, *user, block))
}

// Whether one of these blocks uses this variable.
fn any_uses_name(blocks: &[BlockNames<'_>], users: &[usize], name: &str) -> bool
    ensures { result ≡ list_any (uses_name_at blocks.now name.now) users.now }
{
    users.iter().any(|user| uses_name_at(blocks, name, *user))
}

// Whether a block is one of these, or one of these uses its variables.
fn is_reached(blocks: &[BlockNames<'_>], some: &[usize], at: usize, block: &BlockNames<'_>) -> bool
    ensures { result ≡ is_reached blocks.now some.now at block.now }
{
    is_place_in(some, at) || any_uses(blocks, some, block)
}

// These blocks and those whose variables they use.
fn with_used(alloc: Global, blocks: &[BlockNames<'_>], some: &[usize]) -> Mem<Vec<usize>>
    ensures { IfOk result (λ places. places.items ≡ with_used blocks.now some.now) }
{
    let mut out = Vec::new(alloc);
    for (at, block) in blocks.iter().enumerate() {
        if is_reached(blocks, some, at, block) {
            out.push(at)?;
        }
    }
    Ok(out)
}

// The blocks that define a variable.
fn definers(alloc: Global, blocks: &[BlockNames<'_>], name: &str) -> Mem<Vec<usize>>
    ensures { IfOk result (λ places. places.items ≡ definers blocks.now name.now) }
{
    let mut out = Vec::new(alloc);
    for (at, block) in blocks.iter().enumerate() {
        if block.defined.has(name) {
            out.push(at)?;
        }
    }
    Ok(out)
}

// The blocks on which that of a variable depends.
fn depended_on(alloc: Global, blocks: &[BlockNames<'_>], name: &str) -> Mem<Vec<usize>>
    ensures { IfOk result (λ places. places.items ≡ depended_on blocks.now name.now) }
{
    let mut some = definers(alloc, blocks, name)?;
    for _turn in blocks {
        some = with_used(alloc, blocks, some.as_slice())?;
    }
    Ok(some)
}

// Whether a variable is used in a block on which its own depends, by the definition.
fn is_circular_by_turns(alloc: Global, blocks: &[BlockNames<'_>], name: &str) -> Mem<bool>
    ensures { IfOk result (λ b. b ≡ is_circular blocks.now name.now) }
{
    let places = depended_on(alloc, blocks, name)?;
    Ok(any_uses_name(blocks, places.as_slice(), name))
}

// The same by looking once at each block on which it depends.
fn is_circular(
    alloc: Global,
    blocks: &[BlockNames<'_>],
    deps: &[List<usize>],
    name: &str,
) -> Mem<bool>
    requires { deps.now ≡ dependencies blocks.now }
    ensures { IfOk result (λ b. b ≡ is_circular blocks.now name.now) }
{
    let mut found = Ran::none(alloc);
    add_new(&mut found, definers(alloc, blocks, name)?.as_slice())?;
    let ended = add_led(deps, &mut found)?;
    if ended {
        return Ok(any_uses_name(blocks, found.as_slice(), name));
    }
    is_circular_by_turns(alloc, blocks, name)
}

// Whether a name is one of the suspects; where there are none it may be any.
fn is_suspect(suspects: &Option<Names<'_>>, name: &str) -> bool
    ensures { result ≡ is_suspect suspects.now name.now }
{
    match suspects {
        None => true,
        Some(names) => names.has(name),
    }
}

// Whether a variable is circular; one that isn't a suspect is not.
#[tactic(auto, using(crate::proofs::SuspectLaws::not_suspect))]
fn is_suspect_circular(
    alloc: Global,
    blocks: &[BlockNames<'_>],
    deps: &[List<usize>],
    suspects: &Option<Names<'_>>,
    name: &str,
) -> Mem<bool>
    requires same { deps.now ≡ dependencies blocks.now }
    requires all { AreSuspects blocks.now suspects.now }
    ensures { IfOk result (λ b. b ≡ is_circular blocks.now name.now) }
{
    if !is_suspect(suspects, name) {
        return Ok(false);
    }
    is_circular(alloc, blocks, deps, name)
}

// The first of these names that is circular.
fn first_circular(
    alloc: Global,
    blocks: &[BlockNames<'_>],
    deps: &[List<usize>],
    suspects: &Option<Names<'_>>,
    names: &[Str],
) -> Mem<Option<Str>>
    requires same { deps.now ≡ dependencies blocks.now }
    requires all { AreSuspects blocks.now suspects.now }
    ensures { IfOk result (λ found. found ≡ find (is_circular blocks.now) names.now) }
{
    for name in names {
        if is_suspect_circular(alloc, blocks, deps, suspects, name.as_str())? {
            return Ok(Some(name.copy(alloc)?));
        }
    }
    Ok(None)
}

// The names that blocks define, in ascending order.
fn names_in_order(alloc: Global, blocks: &[BlockNames<'_>]) -> Mem<Vec<Str>>
    ensures { IfOk result (λ names. names.items ≡ ascending text_cmp (flat_map (λ block. block.defined) blocks.now)) }
{
    Ok(in_order(defined_names(alloc, blocks)?))
}

// The least variable that is used in a block on which its own depends.
fn least_circular(alloc: Global, blocks: &[BlockNames<'_>]) -> Mem<Option<Str>>
    ensures { IfOk result (λ found. found ≡ least_circular blocks.now) }
{
    let deps = dependencies(alloc, blocks)?;
    let suspects = suspects_of(alloc, blocks, deps.as_slice())?;
    let names = names_in_order(alloc, blocks)?;
    first_circular(alloc, blocks, deps.as_slice(), &suspects, names.as_slice())
}

/// The fault of the least circular variable, where there is one, given the blocks that can run. Where all can there is none.
pub fn cycle_unless_run(
    alloc: Global,
    blocks: &[BlockNames<'_>],
    ran: &Ran,
) -> Mem<Option<CheckFault>>
    requires { (at : ℕ) → is_place_in ran.now at ≡ is_place_in (run_order (dependencies blocks.now)) at }
    ensures { IfOk result (λ found. found ≡ cycle blocks.now) }
{
    if have_all_run(ran, blocks.len()) {
        return Ok(None);
    }
    match least_circular(alloc, blocks)? {
        None => Ok(None),
        Some(name) => Ok(Some(CheckFault::VariableCycle { name })),
    }
}

/// The fault of the least circular variable, where there is one.
pub fn cycle(alloc: Global, blocks: &[BlockNames<'_>]) -> Mem<Option<CheckFault>>
    ensures { IfOk result (λ found. found ≡ cycle blocks.now) }
{
    let ran = run_among(alloc, blocks)?;
    cycle_unless_run(alloc, blocks, &ran)
}
