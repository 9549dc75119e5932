// What is read of a query, place by place: functions with literals as values and patterns as they are built, order keys, and
// variables.
ghost use Rattle.std.specs.Prelude.{◌≡◌, [], ◌∷◌, Some, None, map, IfOk, IfSome, is_some};
ghost use Rattle.std.specs.List.{list_all};
ghost use Rattle.dg_values.specs.Scanning.{value_of_text};
ghost use Rattle.dg_check.specs.Places.{place_met, places_met};
ghost use Rattle.dg_check.specs.Faults.{reads_as, unread_func, bad_sum, bad_literal_at, first_of};
ghost use Rattle.dg_check.specs.Patterns.{IsFrontOf};
ghost use Rattle.dg_check.specs.Plans.{of_func, asked_at, literals_read, all_read, node_of, place_of};
ghost use Rattle.dg_check.specs.Outcomes.{cmp_outcome, between_outcome, sum_outcome, IsPatternOutcome, IsPlaceOutcome, IsOutcome};

use crate::adding::add_any;
use crate::literals::{Literals, Variables, name_of_part};
use crate::parts::Func;
use crate::places::Place;
use crate::plan::Read;
use crate::resolving::{copy_edge, keys_of, nodes_of, of_part};
use crate::{CheckFault, PatternFault, Patterns};
use dg_parse::{AggOp, CmpOp, QEdge, QFunc, QOf, UidArg};
use dg_values::{Kind, List, Mem, OutOfMemory, Str, Value, ValueFault, read_value};
use std::alloc::Global;

// The value that a literal reads as.
fn value_of(alloc: Global, kind: Kind, literal: &str) -> Mem<Option<Value>>
    ensures { IfOk result (λ found. found ≡ value_of_text kind literal.now) }
{
    match read_value(alloc, kind, literal) {
        Ok(value) => Ok(Some(value)),
        Err(ValueFault::BadLiteral) => Ok(None),
        Err(ValueFault::OutOfMemory) => Err(OutOfMemory),
    }
}

// The values that literals read as, or none where one of them doesn't read.
fn values_of(alloc: Global, kind: Kind, literals: &[Str]) -> Mem<Option<Vec<Value>>>
    ensures all { IfOk result (λ found. is_some found ≡ list_all (reads_as (Some kind)) literals.now) }
    ensures values { IfOk result (λ found. IfSome found (λ values. values.items ≡ literals_read (Some kind) literals.now)) }
{
    let mut values = Vec::new(alloc);
    for literal in literals {
        match value_of(alloc, kind, literal.as_str())? {
            None => return Ok(None),
            Some(value) => values.push(value)?,
        }
    }
    Ok(Some(values))
}

// The same of literals that are compared with what has this kind, or none; without one there is no value.
#[tactic(auto, using(crate::proofs::PlanLaws::kindless, crate::proofs::PlanLaws::as_none, crate::proofs::PlanLaws::as_some))]
fn values_as(alloc: Global, kind: Option<Kind>, literals: &[Str]) -> Mem<Option<List<Value>>>
    ensures { IfOk result (λ found. found ≡ all_read kind literals.now) }
{
    match kind {
        None => Ok(Some(List::new(alloc))),
        Some(kind) => match values_of(alloc, kind, literals)? {
            None => Ok(None),
            Some(values) => Ok(Some(List::from_vec(values))),
        },
    }
}

// What a comparison comes to, or the fault of a literal that doesn't read.
fn read_cmp(
    alloc: Global,
    literals: &Literals<'_>,
    op: CmpOp,
    of: &QOf,
    lits: &[Str],
) -> Mem<Result<Option<Read>, CheckFault>>
    ensures { IfOk result (λ outcome. outcome ≡ cmp_outcome literals.now.schema.now literals.now.variables op of.now lits.now) }
{
    let kind = literals.kind_of_part(of);
    match values_as(alloc, kind, lits)? {
        Some(values) => {
            let of = of_part(alloc, &literals.variables, of)?;
            let func = Func::Cmp {
                op,
                of,
                kind,
                values,
            };
            Ok(Ok(Some(Read::Func(func))))
        }
        None => {
            let name = name_of_part(alloc, of)?;
            Ok(Err(CheckFault::BadLiteral { name }))
        }
    }
}

// Two literals.
fn pair(alloc: Global, low: &Str, high: &Str) -> Mem<Vec<Str>>
    ensures { IfOk result (λ pair. pair.items ≡ low.now ∷ high.now ∷ []) }
{
    let mut pair = Vec::new(alloc);
    pair.push(low.copy(alloc)?)?;
    pair.push(high.copy(alloc)?)?;
    Ok(pair)
}

// What `between` comes to, or the fault of an end that doesn't read.
fn read_between(
    alloc: Global,
    literals: &Literals<'_>,
    of: &QOf,
    low: &Str,
    high: &Str,
) -> Mem<Result<Option<Read>, CheckFault>>
    ensures { IfOk result (λ outcome. outcome ≡ between_outcome literals.now.schema.now literals.now.variables of.now low.now high.now) }
{
    let kind = literals.kind_of_part(of);
    let ends = pair(alloc, low, high)?;
    match values_as(alloc, kind, ends.as_slice())? {
        Some(values) => {
            let of = of_part(alloc, &literals.variables, of)?;
            let func = Func::Between { of, kind, values };
            Ok(Ok(Some(Read::Func(func))))
        }
        None => {
            let name = name_of_part(alloc, of)?;
            Ok(Err(CheckFault::BadLiteral { name }))
        }
    }
}

// The pattern that is built, or the fault of one that is refused.
#[tactic(auto, using(crate::proofs::PlanLaws::front_itself))]
fn read_pattern<P: Patterns>(
    alloc: Global,
    patterns: &mut P,
    pred: &Str,
    pattern: &Str,
    fold: bool,
) -> Mem<Result<Option<Read>, CheckFault>>
    ensures outcome { IfOk result (IsPatternOutcome (P.refused patterns.new) pred.now pattern.now fold) }
    ensures grows { IsFrontOf (P.refused patterns.old) (P.refused patterns.new) }
{
    let name = pred.copy(alloc)?;
    match patterns.build(alloc, pattern.as_str(), fold) {
        Ok(regex) => {
            let pattern = Box::new(alloc, regex)?;
            let func = Func::Regexp {
                pred: name,
                pattern,
            };
            Ok(Ok(Some(Read::Func(func))))
        }
        Err(PatternFault::Refused) => Ok(Err(CheckFault::BadLiteral { name })),
        Err(PatternFault::OutOfMemory) => Err(OutOfMemory),
    }
}

// `uid`, with its variables by their places.
fn read_uid(alloc: Global, variables: &Variables<'_>, uids: &[UidArg]) -> Mem<Func>
    ensures { IfOk result (λ func. func ≡ Func.Uid (map (node_of variables.now) uids.now)) }
{
    let uids = nodes_of(alloc, variables, uids)?;
    Ok(Func::Uid(uids))
}

// `uid_in`, with its variables by their places.
fn read_uid_in(alloc: Global, variables: &Variables<'_>, edge: &QEdge, uids: &[UidArg]) -> Mem<Func>
    ensures { IfOk result (λ func. func ≡ Func.UidIn edge.now (map (node_of variables.now) uids.now)) }
{
    let edge = copy_edge(alloc, edge)?;
    let uids = nodes_of(alloc, variables, uids)?;
    Ok(Func::UidIn { edge, uids })
}

// A function of terms.
fn read_terms(alloc: Global, all: bool, pred: &Str, text: &Str) -> Mem<Func>
    ensures { IfOk result (λ func. func ≡ Func.Terms all pred.now text.now) }
{
    let pred = pred.copy(alloc)?;
    let text = text.copy(alloc)?;
    Ok(Func::Terms { all, pred, text })
}

// What is read of a function, or its fault.
#[tactic(auto, using(crate::proofs::PlanLaws::cmp_place, crate::proofs::PlanLaws::between_place, crate::proofs::PlanLaws::pattern_place, crate::proofs::PlanLaws::front_itself))]
fn read_func<P: Patterns>(
    alloc: Global,
    literals: &Literals<'_>,
    patterns: &mut P,
    func: &QFunc,
) -> Mem<Result<Option<Read>, CheckFault>>
    ensures outcome { IfOk result (IsPlaceOutcome literals.now.schema.now literals.now.variables (P.refused patterns.new) (unread_func literals.now.schema.now literals.now.variables func.now) (of_func func.now ∷ [])) }
    ensures grows { IsFrontOf (P.refused patterns.old) (P.refused patterns.new) }
{
    match func {
        QFunc::Cmp { op, of, lits } => read_cmp(alloc, literals, *op, of, lits.as_slice()),
        QFunc::Between { of, low, high } => read_between(alloc, literals, of, low, high),
        QFunc::Regexp {
            pred,
            pattern,
            fold,
        } => read_pattern(alloc, patterns, pred, pattern, *fold),
        QFunc::Uid(uids) => {
            let made = read_uid(alloc, &literals.variables, uids.as_slice())?;
            Ok(Ok(Some(Read::Func(made))))
        }
        QFunc::Has(edge) => {
            let edge = copy_edge(alloc, edge)?;
            Ok(Ok(Some(Read::Func(Func::Has(edge)))))
        }
        QFunc::Terms { all, pred, text } => {
            let made = read_terms(alloc, *all, pred, text)?;
            Ok(Ok(Some(Read::Func(made))))
        }
        QFunc::UidIn { edge, uids } => {
            let made = read_uid_in(alloc, &literals.variables, edge, uids.as_slice())?;
            Ok(Ok(Some(Read::Func(made))))
        }
    }
}

// A variable by its place.
fn read_name(variables: &Variables<'_>, name: &Str) -> Read
    ensures { result ≡ Read.Val (place_of variables.now name.now) }
{
    Read::Val(variables.place(name.as_str()))
}

// The variable of an aggregate, or the fault of a sum that isn't of whole numbers.
fn read_sum(
    alloc: Global,
    literals: &Literals<'_>,
    op: AggOp,
    name: &Str,
) -> Mem<Result<Option<Read>, CheckFault>>
    ensures { IfOk result (λ outcome. outcome ≡ sum_outcome literals.now.variables name.now (bad_sum literals.now.variables op name.now)) }
{
    match literals.bad_sum(alloc, op, name)? {
        None => Ok(Ok(Some(read_name(&literals.variables, name)))),
        Some(fault) => Ok(Err(fault)),
    }
}

// What is read at a place, or its fault.
#[tactic(auto, using(crate::proofs::PlanLaws::sum_place, crate::proofs::PlanLaws::front_itself))]
fn read_at<P: Patterns>(
    alloc: Global,
    literals: &Literals<'_>,
    patterns: &mut P,
    place: Place<'_>,
) -> Mem<Result<Option<Read>, CheckFault>>
    ensures outcome { IfOk result (IsPlaceOutcome literals.now.schema.now literals.now.variables (P.refused patterns.new) (bad_literal_at literals.now.schema.now literals.now.variables (place_met place.entry)) (asked_at (place_met place.entry))) }
    ensures grows { IsFrontOf (P.refused patterns.old) (P.refused patterns.new) }
{
    match place {
        Place::Root(func) => read_func(alloc, literals, patterns, func),
        Place::Tested(func) => read_func(alloc, literals, patterns, func),
        Place::Aggregated(op, name) => read_sum(alloc, literals, op, name),
        Place::Arguments(args) => {
            let orders = keys_of(alloc, &literals.variables, args)?;
            Ok(Ok(Some(Read::Orders(orders))))
        }
        Place::Shown(name) => Ok(Ok(Some(read_name(&literals.variables, name)))),
        Place::Defined(name, _) => Ok(Ok(Some(read_name(&literals.variables, name)))),
        Place::Recursion(_) | Place::Edge(_) => Ok(Ok(None)),
    }
}

/// What is read at places, in their order; or the fault at the first place where a literal doesn't read, a sum
/// isn't of whole numbers or a pattern is refused.
pub fn read_places<P: Patterns>(
    alloc: Global,
    literals: &Literals<'_>,
    patterns: &mut P,
    places: &[Place<'_>],
) -> Mem<Result<List<Read>, CheckFault>>
    ensures outcome { IfOk result (IsOutcome literals.now.schema.now literals.now.variables (P.refused patterns.new) (places_met places.now) None (first_of (bad_literal_at literals.now.schema.now literals.now.variables) (places_met places.now))) }
    ensures grows { IsFrontOf (P.refused patterns.old) (P.refused patterns.new) }
{
    let mut out = Vec::new(alloc);
    for place in places {
        match read_at(alloc, literals, patterns, *place)? {
            Err(fault) => return Ok(Err(fault)),
            Ok(found) => add_any(&mut out, found)?,
        }
    }
    Ok(Ok(List::from_vec(out)))
}
