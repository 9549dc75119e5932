// The blocks to which others lead by what they need. Each is looked at once.
ghost use Rattle.std.specs.Prelude.{◌≡◌, ℕ, List as Items, [], ◌∷◌, IfOk, OnOk, IsTrue, slice_get};
ghost use Rattle.dg_check.specs.Search.{with_new, needs_in, Among, IsClosed};

use crate::ran::Ran;
use dg_values::{List, Mem, OutOfMemory};

// Adds a block, unless it is there.
fn add_one(found: &mut Ran, place: usize) -> Mem<()>
    ensures { OnOk result (found.new ≡ with_new found.old (place ∷ [])) }
{
    if found.has(place) {
        return Ok(());
    }
    found.push(place)
}

/// Adds the blocks that aren't there yet, in their order.
pub fn add_new(found: &mut Ran, places: &[usize]) -> Mem<()>
    ensures { OnOk result (found.new ≡ with_new found.old places.now) }
{
    for place in places {
        add_one(found, *place)?;
    }
    Ok(())
}

/// What the block at a place needs.
pub fn needs_at(deps: &[List<usize>], at: usize) -> &[usize]
    ensures { result.now ≡ needs_in (slice_get deps.now at) }
{
    match deps.get(at) {
        None => &[],
        Some(needs) => needs.as_slice(),
    }
}

/// Adds all blocks to which those that are found lead, and those to which these do, and so on. It tells whether there was an end.
#[tactic(auto, using(crate::proofs::SearchLaws::found_first, crate::proofs::SearchLaws::found_end))]
pub fn add_led(deps: &[List<usize>], found: &mut Ran) -> Mem<bool>
    ensures kept { OnOk result (Among found.old found.new) }
    ensures only { OnOk result ((all : Items ℕ) → IsClosed deps.now all → Among found.old all → Among found.new all) }
    ensures closed { IfOk result (λ end. IsTrue end → IsClosed deps.now found.new) }
{
    for i in 0..deps.len().saturating_add(1) {
        match found.get(i) {
            None => return Ok(true),
            Some(at) => add_new(found, needs_at(deps, at))?,
        }
    }
    Ok(false)
}
