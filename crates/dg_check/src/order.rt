// The order in which the blocks run: by counts of what each still needs, and then by the definition, which finds none left.
ghost use Rattle.std.specs.Prelude.{◌≡◌, ◌<◌, ◌↔◌, ℕ, [], true, map, length, slice_get, IfOk, OnOk, IsTrue};
ghost use Rattle.std.specs.List.{list_all};
ghost use Rattle.dg_check.specs.Blocks.{names_of_blocks};
ghost use Rattle.dg_check.specs.Cycles.{is_place_in};
ghost use Rattle.dg_check.specs.RunOrder.{dependencies, first_ready, run_more, run_order, order_of, is_ordered, is_ready, are_ready};

use crate::blocks::{BlockNames, names_of_blocks};
use crate::needs::dependencies;
use crate::ran::Ran;
use crate::users::{users_at, users_of};
use dg_parse::Query;
use dg_values::{List, Mem, OutOfMemory};
use std::alloc::Global;
use std::collections::BTreeSet;

// Whether all blocks that are needed have run.
fn have_run(ran: &Ran, needs: &[usize]) -> bool
    ensures { result ≡ list_all (is_place_in ran.now) needs.now }
{
    needs.iter().all(|at| ran.has(*at))
}

// Whether there is a block at a place that hasn't run, and all that it needs have.
fn is_ready(deps: &[List<usize>], ran: &Ran, at: usize) -> bool
    ensures { result ≡ is_ready ran.now at (slice_get deps.now at) }
{
    match deps.get(at) {
        None => false,
        Some(needs) => !ran.has(at) && have_run(ran, needs.as_slice()),
    }
}

// Lets a block run, if it is ready.
fn run_if_ready(deps: &[List<usize>], ran: &mut Ran, at: usize) -> Mem<()>
    requires { are_ready deps.now [] ran.old ≡ true }
    ensures { OnOk result (are_ready deps.now [] ran.new ≡ true) }
{
    if !is_ready(deps, ran, at) {
        return Ok(());
    }
    ran.push(at)
}

// Lets blocks run in the order of the text, up to the first that isn't ready. So all have run where each stands behind those that it
// needs.
fn run_in_turn(deps: &[List<usize>], ran: &mut Ran) -> Mem<()>
    requires { are_ready deps.now [] ran.old ≡ true }
    ensures { OnOk result (are_ready deps.now [] ran.new ≡ true) }
{
    for at in 0..deps.len() {
        run_if_ready(deps, ran, at)?;
        if !ran.has(at) {
            return Ok(());
        }
    }
    Ok(())
}

// The functions from here to `run_free` decide only which blocks are tried, and when: whether one runs, `run_if_ready` tests.

// For each block how many needs it has.
fn counts_of(alloc: Global, deps: &[List<usize>]) -> Mem<Vec<usize>>
    ensures { IfOk result (λ counts. counts.items ≡ map length deps.now) }
{
    let mut counts = Vec::new(alloc);
    for needs in deps {
        counts.push(needs.len())?;
    }
    Ok(counts)
}

// The blocks that need none.
fn free_blocks(alloc: Global, deps: &[List<usize>]) -> Mem<BTreeSet<usize>> {
    let mut free = BTreeSet::new(alloc);
    for (at, needs) in deps.iter().enumerate() {
        if needs.is_empty() {
            free.insert(at)?;
        }
    }
    Ok(free)
}

// Counts one need less, and tells whether it was the last.
fn is_last(counts: &mut [usize], at: usize) -> bool {
    match counts.get_mut(at) {
        None => false,
        Some(count) => {
            *count = count.saturating_sub(1);
            *count == 0
        }
    }
}

// One need less for each of these blocks; those without one are free.
fn release(users: &[usize], counts: &mut [usize], free: &mut BTreeSet<usize>) -> Mem<()> {
    for user in users {
        if is_last(counts, *user) {
            free.insert(*user)?;
        }
    }
    Ok(())
}

// Lets the first free block run, again and again, and counts for its users one need less. So a need is met once, and no
// block is looked at in vain.
fn run_free(alloc: Global, deps: &[List<usize>], ran: &mut Ran) -> Mem<()>
    requires { are_ready deps.now [] ran.old ≡ true }
    ensures { OnOk result (are_ready deps.now [] ran.new ≡ true) }
{
    let users = users_of(alloc, deps)?;
    let mut counts = counts_of(alloc, deps)?;
    let mut free = free_blocks(alloc, deps)?;
    for _turn in deps {
        match free.pop_first() {
            None => return Ok(()),
            Some(at) => {
                run_if_ready(deps, ran, at)?;
                release(
                    users_at(users.as_slice(), at),
                    counts.as_mut_slice(),
                    &mut free,
                )?;
            }
        }
    }
    Ok(())
}

// Lets blocks run in turn, and the others by counts of what each still needs.
fn run_early(alloc: Global, deps: &[List<usize>], ran: &mut Ran) -> Mem<()>
    requires { are_ready deps.now [] ran.old ≡ true }
    ensures { OnOk result (are_ready deps.now [] ran.new ≡ true) }
{
    run_in_turn(deps, ran)?;
    if ran.as_slice().len() < deps.len() {
        run_free(alloc, deps, ran)?;
    }
    Ok(())
}

// The first block that hasn't run and needs none that hasn't.
fn first_ready(deps: &[List<usize>], ran: &Ran) -> Option<usize>
    ensures { result ≡ first_ready ran.now 0 deps.now }
{
    for (at, needs) in deps.iter().enumerate() {
        if !ran.has(at) && have_run(ran, needs.as_slice()) {
            return Some(at);
        }
    }
    None
}

// Lets blocks run as long as one is ready.
fn run_rest(deps: &[List<usize>], ran: &mut Ran) -> Mem<()>
    ensures { OnOk result (ran.new ≡ run_more deps.now deps.now ran.old) }
{
    for _turn in deps {
        match first_ready(deps, ran) {
            None => return Ok(()),
            Some(at) => ran.push(at)?,
        }
    }
    Ok(())
}

// The blocks that can run, each behind those that it needs.
fn run_blocks(alloc: Global, deps: &[List<usize>]) -> Mem<Ran>
    ensures ready { IfOk result (λ ran. are_ready deps.now [] ran ≡ true) }
    ensures same { IfOk result (λ ran. (at : ℕ) → is_place_in ran at ≡ is_place_in (run_order deps.now) at) }
{
    let mut ran = Ran::none(alloc);
    run_early(alloc, deps, &mut ran)?;
    run_rest(deps, &mut ran)?;
    Ok(ran)
}

/// Whether all of so many blocks have run.
pub fn have_all_run(ran: &Ran, count: usize) -> bool
    ensures { IsTrue result ↔ ((at : ℕ) → at < count → is_place_in ran.now at ≡ true) }
{
    for at in 0..count {
        if !ran.has(at) {
            return false;
        }
    }
    true
}

/// The places of blocks in an order in which they can run: each is a block that hasn't run, and comes after those whose variables
/// it uses. A block that waits for itself isn't there, nor is one that waits for such a block. The error is want of memory.
pub fn run_among(alloc: Global, blocks: &[BlockNames<'_>]) -> Mem<Ran>
    ensures ready { IfOk result (λ ran. are_ready (dependencies blocks.now) [] ran ≡ true) }
    ensures same { IfOk result (λ ran. (at : ℕ) → is_place_in ran at ≡ is_place_in (run_order (dependencies blocks.now)) at) }
{
    let deps = dependencies(alloc, blocks)?;
    run_blocks(alloc, deps.as_slice())
}

/// The same of a query's blocks.
#[tactic(auto, using(crate::proofs::OrderLaws::ready_is_ordered))]
pub fn order_of(alloc: Global, query: &Query) -> Mem<Vec<usize>>
    ensures ready { IfOk result (λ order. are_ready (dependencies (names_of_blocks query.now.blocks)) [] order.items ≡ true) }
    ensures ordered { IfOk result (λ order. is_ordered (dependencies (names_of_blocks query.now.blocks)) [] order.items ≡ true) }
    ensures same { IfOk result (λ order. (at : ℕ) → is_place_in order.items at ≡ is_place_in (order_of query.now) at) }
{
    let blocks = names_of_blocks(alloc, query.blocks.as_slice())?;
    Ok(run_among(alloc, blocks.as_slice())?.into_order())
}
