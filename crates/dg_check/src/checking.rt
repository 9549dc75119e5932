// The checks, in their order.
ghost use Rattle.std.specs.Prelude.{◌≡◌, ◌++◌, IfOk};
ghost use Rattle.std.specs.Option.{option_or};
ghost use Rattle.dg_check.specs.Places.{places_met};
ghost use Rattle.dg_check.specs.Variables.{definitions_met, uses_met, uses_in, uses_of_mutations};
ghost use Rattle.dg_check.specs.Faults.{fault_of_variables, fault_of_pages, fault_of_literals, fault_behind, cycle, fault_among, fault_of, fault_of_upsert};

use crate::CheckFault;
use crate::blocks::{BlockNames, names_of_blocks};
use crate::cycles::cycle;
use crate::finding::first_found;
use crate::indexes::Indexed;
use crate::literals::{Literals, Variables};
use crate::pages::{Depths, Pages};
use crate::places::{Place, places_of};
use crate::unknown::unknown_variable;
use crate::uses::{Use, add_mutations, add_places, uses_of_places};
use crate::variables::{Definition, definitions_of, twice};
use dg_parse::{Query, UMut, Upsert};
use dg_schema::Schema;
use dg_values::{Mem, OutOfMemory};
use std::alloc::Global;

/// The first use of a variable that isn't defined, or else the first variable that is defined twice.
pub fn fault_of_variables(
    alloc: Global,
    definitions: &[Definition<'_>],
    uses: &[Use<'_>],
) -> Mem<Option<CheckFault>>
    ensures { IfOk result (λ found. found ≡ fault_of_variables (definitions_met definitions.now) (uses_met uses.now)) }
{
    if uses.is_empty() && definitions.is_empty() {
        return Ok(None);
    }
    match unknown_variable(alloc, definitions, uses)? {
        Some(fault) => Ok(Some(fault)),
        None => twice(alloc, definitions),
    }
}

/// The first argument that can't stand where it does, or else the first depth that isn't 1 to 32.
pub fn fault_of_pages(alloc: Global, places: &[Place<'_>]) -> Mem<Option<CheckFault>>
    ensures { IfOk result (λ found. found ≡ fault_of_pages (places_met places.now)) }
{
    match first_found(alloc, &Pages, places)? {
        Some(fault) => Ok(Some(fault)),
        None => first_found(alloc, &Depths, places),
    }
}

// The first literal that doesn't read, or else what is wrong with arguments and depths.
fn fault_of_literals(
    alloc: Global,
    literals: &Literals<'_>,
    places: &[Place<'_>],
) -> Mem<Option<CheckFault>>
    ensures { IfOk result (λ found. found ≡ fault_of_literals literals.now.schema.now literals.now.variables (places_met places.now)) }
{
    match first_found(alloc, literals, places)? {
        Some(fault) => Ok(Some(fault)),
        None => fault_of_pages(alloc, places),
    }
}

// What the checks behind that for cycles find: indexes, literals, arguments and depths.
fn fault_behind<'a>(
    alloc: Global,
    schema: &'a Schema,
    variables: Variables<'a>,
    places: &[Place<'_>],
) -> Mem<Option<CheckFault>>
    ensures { IfOk result (λ found. found ≡ fault_behind schema.now variables.entry (places_met places.now)) }
{
    match first_found(alloc, &Indexed { schema }, places)? {
        Some(fault) => Ok(Some(fault)),
        None => fault_of_literals(alloc, &Literals { schema, variables }, places),
    }
}

// The least circular variable, or else what the checks behind find.
fn fault_of_cycles<'a>(
    alloc: Global,
    schema: &'a Schema,
    blocks: &[BlockNames<'_>],
    variables: Variables<'a>,
    places: &[Place<'_>],
) -> Mem<Option<CheckFault>>
    ensures { IfOk result (λ found. found ≡ option_or (cycle blocks.now) (fault_behind schema.now variables.entry (places_met places.now))) }
{
    match cycle(alloc, blocks)? {
        Some(fault) => Ok(Some(fault)),
        None => fault_behind(alloc, schema, variables, places),
    }
}

// What all checks find, in their order, given the parts of a query or an upsert block.
fn fault_among<'a>(
    alloc: Global,
    schema: &'a Schema,
    blocks: &[BlockNames<'_>],
    places: &[Place<'a>],
    uses: &[Use<'_>],
) -> Mem<Option<CheckFault>>
    ensures { IfOk result (λ found. found ≡ fault_among schema.now blocks.now (places_met places.now) (uses_met uses.now)) }
{
    let definitions = definitions_of(alloc, schema, places)?;
    match fault_of_variables(alloc, definitions.as_slice(), uses)? {
        Some(fault) => Ok(Some(fault)),
        None => {
            let variables = Variables::of(alloc, definitions)?;
            fault_of_cycles(alloc, schema, blocks, variables, places)
        }
    }
}

/// The variables that an upsert block uses: its query's, and behind them those of its mutations.
pub fn uses_of_upsert<'a>(
    alloc: Global,
    places: &[Place<'a>],
    mutations: &'a [UMut],
) -> Mem<Vec<Use<'a>>>
    ensures { IfOk result (λ uses. uses_met uses.items ≡ uses_in (places_met places.now) ++ uses_of_mutations mutations.now) }
{
    let mut uses = Vec::new(alloc);
    add_places(&mut uses, places)?;
    add_mutations(&mut uses, mutations)?;
    Ok(uses)
}

/// What is wrong with a query under a schema, if anything is: of the checks for unknown variables, variables defined twice,
/// circular variables, indexes, literals, arguments and depths the first that finds something, at its first place in the
/// text. No pattern is built here, so none is refused. The error is want of memory.
pub fn fault_of<'a>(alloc: Global, query: &'a Query, schema: &'a Schema) -> Mem<Option<CheckFault>>
    ensures { IfOk result (λ found. found ≡ fault_of schema.now query.now) }
{
    let blocks = names_of_blocks(alloc, query.blocks.as_slice())?;
    let places = places_of(alloc, query)?;
    let uses = uses_of_places(alloc, places.as_slice())?;
    fault_among(
        alloc,
        schema,
        blocks.as_slice(),
        places.as_slice(),
        uses.as_slice(),
    )
}

/// What is wrong with an upsert block under a schema, if anything is: what is wrong with its query, whose variables its
/// conditions and statements use at their place in the text. The error is want of memory.
pub fn fault_of_upsert<'a>(
    alloc: Global,
    upsert: &'a Upsert,
    schema: &'a Schema,
) -> Mem<Option<CheckFault>>
    ensures { IfOk result (λ found. found ≡ fault_of_upsert schema.now upsert.now) }
{
    let blocks = names_of_blocks(alloc, upsert.query.blocks.as_slice())?;
    let places = places_of(alloc, &upsert.query)?;
    let uses = uses_of_upsert(alloc, places.as_slice(), upsert.muts.as_slice())?;
    fault_among(
        alloc,
        schema,
        blocks.as_slice(),
        places.as_slice(),
        uses.as_slice(),
    )
}
