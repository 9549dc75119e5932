// Whether the variables that are used are defined.
ghost use Rattle.std.specs.Prelude.{◌≡◌, IfOk, true, false};
ghost use Rattle.dg_check.specs.Variables.{definitions_met, uses_met, use_met, names_for};
ghost use Rattle.dg_check.specs.Names.{is_name_in};
ghost use Rattle.dg_check.specs.Faults.{first_of, unknown, unknown_among, among_two};

use crate::CheckFault;
use crate::names::Names;
use crate::uses::Use;
use crate::variables::{Definition, all_names, valued_names};
use dg_values::{Mem, OutOfMemory, Str};
use std::alloc::Global;

// Whether a variable that is used is defined, with values where these are used.
fn is_known(all: &Names<'_>, valued: &Names<'_>, used: Use<'_>) -> bool
    ensures { result ≡ is_name_in (among_two valued.now all.now used.entry.values) used.entry.name.now }
{
    if used.values {
        valued.has(used.name)
    } else {
        all.has(used.name)
    }
}

// The fault of a use whose variable isn't defined so.
fn unknown_one(
    alloc: Global,
    all: &Names<'_>,
    valued: &Names<'_>,
    used: Use<'_>,
) -> Mem<Option<CheckFault>>
    ensures { IfOk result (λ found. found ≡ unknown_among (among_two valued.now all.now) (use_met used.entry)) }
{
    if is_known(all, valued, used) {
        return Ok(None);
    }
    let name = Str::from_str(alloc, used.name)?;
    Ok(Some(CheckFault::UnknownVariable { name }))
}

// The fault of the first such use.
fn first_unknown(
    alloc: Global,
    all: &Names<'_>,
    valued: &Names<'_>,
    uses: &[Use<'_>],
) -> Mem<Option<CheckFault>>
    ensures { IfOk result (λ found. found ≡ first_of (unknown_among (among_two valued.now all.now)) (uses_met uses.now)) }
{
    for used in uses {
        match unknown_one(alloc, all, valued, *used)? {
            None => {}
            Some(fault) => return Ok(Some(fault)),
        }
    }
    Ok(None)
}

/// The fault of the first use of a variable of which none of the sort needed is defined.
pub fn unknown_variable(
    alloc: Global,
    definitions: &[Definition<'_>],
    uses: &[Use<'_>],
) -> Mem<Option<CheckFault>>
    ensures { IfOk result (λ found. found ≡ first_of (unknown (definitions_met definitions.now)) (uses_met uses.now)) }
{
    let all = all_names(alloc, definitions)?;
    let valued = valued_names(alloc, definitions)?;
    first_unknown(alloc, &all, &valued, uses)
}
