// What becomes of queries of ten forms, and what it costs: five that are read, each of a quarter, a half and all of a MiB, and
// five that are checked, each of three sizes.
mod checking;
mod filling;
mod growth;
mod parsing;

use anyhow::Result;
use std::alloc::Global;
use std::time::Clock;

// Whether the first are read, and what is wrong with small ones of the others.
pub(crate) fn print_outcomes(rt: &(impl Print + Clock), alloc: Global) -> Result<()> {
    parsing::print_forms(rt, alloc, false)?;
    checking::print_forms(rt, alloc, false)
}

// The times of what a word names, or else of both: `parse` or `check`.
pub(crate) fn print_times(
    rt: &(impl Print + Clock),
    alloc: Global,
    word: Option<String>,
) -> Result<()> {
    match word.as_deref() {
        Some("parse") => parsing::print_forms(rt, alloc, true),
        Some("check") => checking::print_forms(rt, alloc, true),
        _ => {
            parsing::print_forms(rt, alloc, true)?;
            checking::print_forms(rt, alloc, true)
        }
    }
}
