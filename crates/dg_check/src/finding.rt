// A check: what it finds at each place, and the first of what it finds.
ghost use Rattle.std.specs.Prelude.{◌≡◌, Option, IfOk};
ghost use Rattle.dg_check.specs.Places.{Place, place_met, places_met};
ghost use Rattle.dg_check.specs.Faults.{first_of};
ghost use Rattle.dg_check.specs.declared.fault.CheckFault.{CheckFault};

use crate::CheckFault;
use crate::places::Place as Met;
use dg_values::{Mem, OutOfMemory};
use std::alloc::Global;

/// A check that looks at each place by itself.
pub trait Check {
    /// The fault at a place.
    ghost finds: { Self → Place → Option CheckFault };

    /// The fault at a place.
    fn at(&self, alloc: Global, place: Met<'_>) -> Mem<Option<CheckFault>>
        ensures { IfOk result (λ found. found ≡ finds self.now (place_met place.entry)) };
}

/// The fault at the first place that has one.
pub fn first_found<C: Check>(
    alloc: Global,
    check: &C,
    places: &[Met<'_>],
) -> Mem<Option<CheckFault>>
    ensures { IfOk result (λ found. found ≡ first_of (C.finds check.now) (places_met places.now)) }
{
    for place in places {
        match check.at(alloc, *place)? {
            None => {}
            Some(fault) => return Ok(Some(fault)),
        }
    }
    Ok(None)
}
