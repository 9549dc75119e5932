// A number for each block: equal for those that lead to one another by what they need, and never greater for what a block
// needs. It is found by two walks, each with a stack of its own: one along users, which tells in which order blocks are left,
// and one along needs, which begins with the block that was left last. Whoever uses the numbers tests that they fall.
ghost use Rattle.std.specs.Prelude.{◌≡◌, length, IfOk};

use crate::search::needs_at;
use crate::users::{users_at, users_of};
use dg_values::{List, Mem, OutOfMemory};
use std::alloc::Global;

// What a walk does next with the block at a place.
#[derive(Clone, Copy)]
enum Step {
    // Goes on from it, unless it was met.
    Enter(usize),
    // Leaves it, since all to which it leads is left.
    Leave(usize),
}

// Marks a block, and tells whether it had no mark.
fn is_first(met: &mut [bool], at: usize) -> bool {
    match met.get_mut(at) {
        None => false,
        Some(mark) => {
            let first = !*mark;
            *mark = true;
            first
        }
    }
}

// Goes on from a block to its users, unless it was met.
fn enter(users: &[Vec<usize>], met: &mut [bool], steps: &mut Vec<Step>, at: usize) -> Mem<()> {
    if !is_first(met, at) {
        return Ok(());
    }
    steps.push(Step::Leave(at))?;
    for user in users_at(users, at) {
        steps.push(Step::Enter(*user))?;
    }
    Ok(())
}

// A step into each of so many blocks.
fn all_steps(alloc: Global, count: usize) -> Mem<Vec<Step>> {
    let mut steps = Vec::new(alloc);
    for at in 0..count {
        steps.push(Step::Enter(at))?;
    }
    Ok(steps)
}

// The blocks in the order in which a walk along users leaves them.
fn left_in_order(alloc: Global, users: &[Vec<usize>]) -> Mem<Vec<usize>> {
    let mut met = vec![in alloc; false; users.len()]?;
    let mut steps = all_steps(alloc, users.len())?;
    let mut left = Vec::new(alloc);
    for _turn in 0..usize::MAX {
        match steps.pop() {
            None => return Ok(left),
            Some(Step::Enter(at)) => enter(users, met.as_mut_slice(), &mut steps, at)?,
            Some(Step::Leave(at)) => left.push(at)?,
        }
    }
    Ok(left)
}

// Gives a block a number, and tells whether it had none.
fn is_numbered(numbers: &mut [Option<usize>], at: usize, number: usize) -> bool {
    match numbers.get_mut(at) {
        None | Some(Some(_)) => false,
        Some(slot) => {
            *slot = Some(number);
            true
        }
    }
}

// Gives a block a number, and goes on to what it needs, unless it had one.
fn number_one(
    deps: &[List<usize>],
    numbers: &mut [Option<usize>],
    ahead: &mut Vec<usize>,
    at: usize,
    number: usize,
) -> Mem<()> {
    if is_numbered(numbers, at, number) {
        ahead.extend_from_slice(needs_at(deps, at))?;
    }
    Ok(())
}

// Gives a number to a block and to all to which it leads that have none.
fn number_from(
    alloc: Global,
    deps: &[List<usize>],
    numbers: &mut [Option<usize>],
    at: usize,
    number: usize,
) -> Mem<()> {
    let mut ahead = Vec::new(alloc);
    ahead.push(at)?;
    for _turn in 0..usize::MAX {
        match ahead.pop() {
            None => return Ok(()),
            Some(next) => number_one(deps, numbers, &mut ahead, next, number)?,
        }
    }
    Ok(())
}

// No number for each of so many blocks.
fn unnumbered(alloc: Global, count: usize) -> Mem<Vec<Option<usize>>>
    ensures { IfOk result (λ numbers. length numbers.items ≡ count) }
{
    let mut numbers = Vec::new(alloc);
    for _place in 0..count {
        numbers.push(None)?;
    }
    Ok(numbers)
}

/// A number for each block. No clause says which: that they fall is tested where they are used.
pub fn numbers_of(alloc: Global, deps: &[List<usize>]) -> Mem<Vec<Option<usize>>>
    ensures { IfOk result (λ numbers. length numbers.items ≡ length deps.now) }
{
    let users = users_of(alloc, deps)?;
    let left = left_in_order(alloc, users.as_slice())?;
    let mut numbers = unnumbered(alloc, deps.len())?;
    for (number, at) in left.iter().rev().enumerate() {
        number_from(alloc, deps, numbers.as_mut_slice(), *at, number)?;
    }
    Ok(numbers)
}
