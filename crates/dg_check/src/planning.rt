// The checks of a query, of which reading its literals and building its patterns is one, and the plan of what passes them.
ghost use Rattle.std.specs.Prelude.{◌≡◌, ℕ, List as Items, [], true, false, None, flat_map, IfOk, IfErr, IsOk};
ghost use Rattle.std.specs.Option.{option_or};
ghost use Rattle.dg_schema.specs.declared.definition.PredDef.{PredDef};
ghost use Rattle.dg_check.specs.Places.{places_met, places_of_query};
ghost use Rattle.dg_check.specs.Variables.{Definition, definitions_in, names_for, uses_met};
ghost use Rattle.dg_check.specs.Blocks.{names_of_blocks};
ghost use Rattle.dg_check.specs.Cycles.{is_place_in};
ghost use Rattle.dg_check.specs.RunOrder.{are_ready, dependencies, order_of, run_order};
ghost use Rattle.dg_check.specs.Faults.{first_of, not_indexed_at, cycle, fault_of_pages, fault_of_literals, fault_behind, fault_among, fault_of, fault_of_upsert};
ghost use Rattle.dg_check.specs.Patterns.{IsFrontOf};
ghost use Rattle.dg_check.specs.Parts.{Takes, asked_of_block, AreBlocksOf};
ghost use Rattle.dg_check.specs.Outcomes.{fault_before, unless, IsOutcome, IsQueryOutcome, IsUpsertOutcome, IsPlanOf, IsFaultOf, IsFaultOfUpsert};

use crate::blocks::{BlockNames, defined_names, places_and_names};
use crate::building::parts_of;
use crate::checking::{fault_of_pages, fault_of_variables, uses_of_upsert};
use crate::cycles::cycle_unless_run;
use crate::finding::first_found;
use crate::indexes::Indexed;
use crate::literals::{Literals, Variables};
use crate::order::run_among;
use crate::places::Place;
use crate::plan::Read;
use crate::ran::Ran;
use crate::reading::read_places;
use crate::uses::{Use, uses_of_places};
use crate::variables::definitions_of;
use crate::{Blocks, CheckFault, Patterns, Plan};
use dg_parse::{Query, Upsert};
use dg_schema::Schema;
use dg_values::{List, Mem, OutOfMemory, Str};
use std::alloc::Global;

// What was read, unless an argument can't stand where it does or a depth isn't 1 to 32.
fn read_pages(
    alloc: Global,
    places: &[Place<'_>],
    read: List<Read>,
) -> Mem<Result<List<Read>, CheckFault>>
    ensures { IfOk result (λ outcome. outcome ≡ unless (fault_of_pages (places_met places.now)) read) }
{
    match fault_of_pages(alloc, places)? {
        Some(fault) => Ok(Err(fault)),
        None => Ok(Ok(read)),
    }
}

// What is read at places, or what the checks of literals, arguments and depths find.
#[tactic(auto, using(crate::proofs::PlanLaws::before_pages, crate::proofs::PlanLaws::with_pages))]
fn read_literals<P: Patterns>(
    alloc: Global,
    literals: &Literals<'_>,
    patterns: &mut P,
    places: &[Place<'_>],
) -> Mem<Result<List<Read>, CheckFault>>
    ensures outcome { IfOk result (IsOutcome literals.now.schema.now literals.now.variables (P.refused patterns.new) (places_met places.now) None (fault_of_literals literals.now.schema.now literals.now.variables (places_met places.now))) }
    ensures grows { IsFrontOf (P.refused patterns.old) (P.refused patterns.new) }
{
    match read_places(alloc, literals, patterns, places)? {
        Err(fault) => Ok(Err(fault)),
        Ok(read) => read_pages(alloc, places, read),
    }
}

// The same behind the check of indexes.
#[tactic(auto, using(crate::proofs::PlanLaws::behind_last, crate::proofs::PlanLaws::found_first, crate::proofs::PlanLaws::front_itself))]
fn read_indexed<'a, P: Patterns>(
    alloc: Global,
    schema: &'a Schema,
    variables: Variables<'a>,
    patterns: &mut P,
    places: &[Place<'_>],
) -> Mem<Result<List<Read>, CheckFault>>
    ensures outcome { IfOk result (IsOutcome schema.now variables.entry (P.refused patterns.new) (places_met places.now) (first_of (not_indexed_at schema.now) (places_met places.now)) (fault_behind schema.now variables.entry (places_met places.now))) }
    ensures grows { IsFrontOf (P.refused patterns.old) (P.refused patterns.new) }
{
    match first_found(alloc, &Indexed { schema }, places)? {
        Some(fault) => Ok(Err(fault)),
        None => read_literals(alloc, &Literals { schema, variables }, patterns, places),
    }
}

// The same behind the check for cycles.
#[tactic(auto, using(crate::proofs::PlanLaws::behind, crate::proofs::PlanLaws::found_first, crate::proofs::PlanLaws::front_itself))]
fn read_acyclic<'a, P: Patterns>(
    alloc: Global,
    schema: &'a Schema,
    blocks: &[BlockNames<'_>],
    ran: &Ran,
    variables: Variables<'a>,
    patterns: &mut P,
    places: &[Place<'_>],
) -> Mem<Result<List<Read>, CheckFault>>
    requires { (at : ℕ) → is_place_in ran.now at ≡ is_place_in (run_order (dependencies blocks.now)) at }
    ensures outcome { IfOk result (IsOutcome schema.now variables.entry (P.refused patterns.new) (places_met places.now) (option_or (cycle blocks.now) (first_of (not_indexed_at schema.now) (places_met places.now))) (option_or (cycle blocks.now) (fault_behind schema.now variables.entry (places_met places.now)))) }
    ensures grows { IsFrontOf (P.refused patterns.old) (P.refused patterns.new) }
{
    match cycle_unless_run(alloc, blocks, ran)? {
        Some(fault) => Ok(Err(fault)),
        None => read_indexed(alloc, schema, variables, patterns, places),
    }
}

// What all checks find, or what is read, given the parts of a query or an upsert block.
fn read_checked<'a, P: Patterns>(
    alloc: Global,
    schema: &'a Schema,
    blocks: &[BlockNames<'_>],
    ran: &Ran,
    patterns: &mut P,
    places: &[Place<'a>],
    uses: &[Use<'_>],
) -> Mem<Result<List<Read>, CheckFault>>
    requires { (at : ℕ) → is_place_in ran.now at ≡ is_place_in (run_order (dependencies blocks.now)) at }
    ensures outcome { IfOk result (IsOutcome schema.now (definitions_in schema.now (places_met places.now)) (P.refused patterns.new) (places_met places.now) (fault_before schema.now blocks.now (places_met places.now) (uses_met uses.now)) (fault_among schema.now blocks.now (places_met places.now) (uses_met uses.now))) }
    ensures grows { IsFrontOf (P.refused patterns.old) (P.refused patterns.new) }
{
    let definitions = definitions_of(alloc, schema, places)?;
    match fault_of_variables(alloc, definitions.as_slice(), uses)? {
        Some(fault) => Ok(Err(fault)),
        None => {
            let variables = Variables::of(alloc, definitions)?;
            read_acyclic(alloc, schema, blocks, ran, variables, patterns, places)
        }
    }
}

// What the checks look at of a query: its places, the names that each block defines and uses, and the blocks that can run.
#[derive(Drop)]
struct Looked<'a> {
    places: Vec<Place<'a>>,
    blocks: Vec<BlockNames<'a>>,
    ran: Ran,
}

// What its checks come to: what is read of it or a fault; the order in which its blocks run, and the names of its variables in
// the order in which the text defines them.
#[derive(Drop)]
struct Checked {
    found: Result<List<Read>, CheckFault>,
    order: List<usize>,
    vars: List<Str>,
}

// What the checks look at.
fn look<'a>(alloc: Global, query: &'a Query) -> Mem<Looked<'a>>
    ensures places { IfOk result (λ looked. places_met looked.places.items ≡ places_of_query query.now) }
    ensures blocks { IfOk result (λ looked. looked.blocks.items ≡ names_of_blocks query.now.blocks) }
    ensures ready { IfOk result (λ looked. are_ready (dependencies (names_of_blocks query.now.blocks)) [] looked.ran ≡ true) }
    ensures there { IfOk result (λ looked. (at : ℕ) → is_place_in looked.ran at ≡ is_place_in (order_of query.now) at) }
{
    let (places, blocks) = places_and_names(alloc, query.blocks.as_slice())?;
    let ran = run_among(alloc, blocks.as_slice())?;
    Ok(Looked {
        places,
        blocks,
        ran,
    })
}

// The same with how the blocks run and which variables they define.
fn with_order(
    alloc: Global,
    looked: Looked<'_>,
    found: Result<List<Read>, CheckFault>,
) -> Mem<Checked>
    ensures found { IfOk result (λ checked. checked.found ≡ found) }
    ensures order { IfOk result (λ checked. checked.order ≡ looked.entry.ran) }
    ensures vars { IfOk result (λ checked. checked.vars ≡ flat_map (λ block. block.defined) looked.entry.blocks.items) }
{
    let Looked { blocks, ran, .. } = looked;
    let names = defined_names(alloc, blocks.as_slice())?;
    Ok(Checked {
        found,
        order: List::from_vec(ran.into_order()),
        vars: List::from_vec(names),
    })
}

// What the checks of a query come to.
fn check_query<P: Patterns>(
    alloc: Global,
    query: &Query,
    schema: &Schema,
    patterns: &mut P,
) -> Mem<Checked>
    ensures outcome { IfOk result (λ checked. IsQueryOutcome schema.now query.now (P.refused patterns.new) checked.found) }
    ensures ready { IfOk result (λ checked. are_ready (dependencies (names_of_blocks query.now.blocks)) [] checked.order ≡ true) }
    ensures there { IfOk result (λ checked. (at : ℕ) → is_place_in checked.order at ≡ is_place_in (order_of query.now) at) }
    ensures vars { IfOk result (λ checked. checked.vars ≡ names_for false (definitions_in [] (places_of_query query.now))) }
    ensures grows { IsFrontOf (P.refused patterns.old) (P.refused patterns.new) }
{
    let looked = look(alloc, query)?;
    let uses = uses_of_places(alloc, looked.places.as_slice())?;
    let found = read_checked(
        alloc,
        schema,
        looked.blocks.as_slice(),
        &looked.ran,
        patterns,
        looked.places.as_slice(),
        uses.as_slice(),
    )?;
    with_order(alloc, looked, found)
}

// What the checks of an upsert block's query come to.
fn check_upsert_query<P: Patterns>(
    alloc: Global,
    upsert: &Upsert,
    schema: &Schema,
    patterns: &mut P,
) -> Mem<Checked>
    ensures outcome { IfOk result (λ checked. IsUpsertOutcome schema.now upsert.now (P.refused patterns.new) checked.found) }
    ensures ready { IfOk result (λ checked. are_ready (dependencies (names_of_blocks upsert.now.query.blocks)) [] checked.order ≡ true) }
    ensures there { IfOk result (λ checked. (at : ℕ) → is_place_in checked.order at ≡ is_place_in (order_of upsert.now.query) at) }
    ensures vars { IfOk result (λ checked. checked.vars ≡ names_for false (definitions_in [] (places_of_query upsert.now.query))) }
    ensures grows { IsFrontOf (P.refused patterns.old) (P.refused patterns.new) }
{
    let looked = look(alloc, &upsert.query)?;
    let uses = uses_of_upsert(alloc, looked.places.as_slice(), upsert.muts.as_slice())?;
    let found = read_checked(
        alloc,
        schema,
        looked.blocks.as_slice(),
        &looked.ran,
        patterns,
        looked.places.as_slice(),
        uses.as_slice(),
    )?;
    with_order(alloc, looked, found)
}

// The plan of a query, of which this was read.
fn plan_of(
    alloc: Global,
    query: Query,
    order: List<usize>,
    vars: List<Str>,
    read: List<Read>,
) -> Mem<Plan>
    ensures same { IfOk result (λ plan. (plan.query ≡ query) × (plan.order ≡ order) × (plan.vars ≡ vars)) }
    ensures parts { (schema : Items PredDef) (ds : Items Definition) → Takes schema ds (flat_map asked_of_block query.blocks) read [] → IfOk result (λ plan. AreBlocksOf schema ds query.blocks plan.parts) }
{
    let parts = parts_of(alloc, query.blocks.as_slice(), read)?;
    Ok(Plan {
        query,
        order,
        vars,
        parts,
    })
}

/// The plan of a query under a schema.
///
/// # Errors
///
/// What the first of these checks finds that finds something, at its first place in the text: for unknown variables, variables
/// defined twice, circular variables, indexes, literals, arguments and depths. A pattern that the maker refuses is a bad literal;
/// the maker has it on its list then. Or want of memory.
pub fn check<P: Patterns>(
    alloc: Global,
    query: Query,
    schema: &Schema,
    patterns: &mut P,
) -> Result<Plan, CheckFault>
    ensures none { IsOk result → fault_of schema.now query ≡ None }
    ensures plan { IfOk result (IsPlanOf schema.now query) }
    ensures fault { IfErr result (IsFaultOf schema.now query (P.refused patterns.new)) }
    ensures grows { IsFrontOf (P.refused patterns.old) (P.refused patterns.new) }
{
    let Checked { found, order, vars } = check_query(alloc, &query, schema, patterns)?;
    match found {
        Err(fault) => Err(fault),
        Ok(read) => Ok(plan_of(alloc, query, order, vars, read)?),
    }
}

/// The plan of an upsert block's query under a schema, and its mutations, whose variables the query defines.
///
/// # Errors
///
/// As those of `check`, where the variables of conditions and statements are used at their place in the text.
pub fn check_upsert<P: Patterns>(
    alloc: Global,
    upsert: Upsert,
    schema: &Schema,
    patterns: &mut P,
) -> Result<(Plan, Blocks), CheckFault>
    ensures none { IsOk result → fault_of_upsert schema.now upsert ≡ None }
    ensures plan { IfOk result (λ made. IsPlanOf schema.now upsert.query made.0) }
    ensures blocks { IfOk result (λ made. made.1.mutations ≡ upsert.muts) }
    ensures fault { IfErr result (IsFaultOfUpsert schema.now upsert (P.refused patterns.new)) }
    ensures grows { IsFrontOf (P.refused patterns.old) (P.refused patterns.new) }
{
    let Checked { found, order, vars } = check_upsert_query(alloc, &upsert, schema, patterns)?;
    match found {
        Err(fault) => Err(fault),
        Ok(read) => {
            let Upsert { query, muts } = upsert;
            let plan = plan_of(alloc, query, order, vars, read)?;
            Ok((plan, Blocks { mutations: muts }))
        }
    }
}
