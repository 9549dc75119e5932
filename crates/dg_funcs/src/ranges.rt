// Comparisons of a predicate's values by ranges of indexes.
ghost use Rattle.std.specs.Prelude.{◌≡◌, ◌∷◌, [], true, filter, Option, Some, IfOk, option_copied};
ghost use Rattle.std.specs.declared.cmp.Ordering.{Ordering};
ghost use Rattle.std.specs.Ordering.{is_le, is_ge};
ghost use Rattle.dg_values.specs.declared.kind.Kind.{Kind};
ghost use Rattle.dg_values.specs.declared.kind.Kind.TheVariants as kinds;
ghost use Rattle.dg_values.specs.declared.value.Value.TheVariants as values;
ghost use Rattle.dg_values.specs.Instant.{Instant};
ghost use Rattle.dg_graph.specs.Graphs.{IsLawful};
ghost use Rattle.dg_graph.specs.Lookups.{is_indexed_by, by_token_range};
ghost use Rattle.dg_check.specs.declared.parts.Func.TheVariants as funcs;
ghost use Rattle.dg_check.specs.declared.parts.Of.TheVariants as part;
ghost use Rattle.dg_funcs.specs.Kinds.{declared_kind};
ghost use Rattle.dg_funcs.specs.Truth.{stands, holds_at};
ghost use Rattle.dg_funcs.specs.Roots.{root_nodes};

use crate::held::held;
use crate::ordered::{date_index, filed_as, moment_index, ordered_index, own_index};
use crate::roots::root_by_search;
use dg_check::{Func, Vars};
use dg_graph::Snapshot;
use dg_parse::CmpOp;
use dg_uids::Uids;
use dg_values::{Mem, OutOfMemory, Steps, Tokenizer, Value};
use std::alloc::Global;
use std::sync::ledger::Ledger;

// The nodes that a range of an index lists and at which a function holds.
fn held_in_range<S: Snapshot, L: Ledger>(
    alloc: Global,
    snap: &S,
    func: &Func,
    p: &str,
    tokenizer: Tokenizer,
    low: Option<&Value>,
    high: Option<&Value>,
    vars: &Vars,
    reads: &mut Steps<L>,
) -> Mem<Uids>
    requires tokenizer { is_indexed_by (S.declared snap.now) p.now tokenizer ≡ true }
    ensures { IfOk result (λ uids. uids ≡ filter (λ n. holds_at (S.graph snap.now) vars.now.variables n func.now) (by_token_range (S.graph snap.now) p.now tokenizer (option_copied low.entry) (option_copied high.entry))) }
{
    let nodes = snap.by_token_range(alloc, p, tokenizer, low, high, reads)?;
    held(alloc, snap, func, &nodes, vars, reads)
}

// Those with a value between two, by an index.
fn between_by_index<S: Snapshot, L: Ledger>(
    alloc: Global,
    snap: &S,
    func: &Func,
    p: &str,
    tokenizer: Tokenizer,
    low: &Value,
    high: &Value,
    vars: &Vars,
    reads: &mut Steps<L>,
) -> Mem<Uids>
    requires tokenizer { is_indexed_by (S.declared snap.now) p.now tokenizer ≡ true }
    requires between { (kind : Option Kind) × (func.now ≡ funcs.Between (part.Pred p.now) kind (low.now ∷ high.now ∷ [])) }
    ensures { IfOk result (λ uids. uids ≡ root_nodes (S.graph snap.now) vars.now.variables func.now) }
{
    let from = filed_as(alloc, tokenizer, low)?;
    let to = filed_as(alloc, tokenizer, high)?;
    match &from {
        Some(from) => match &to {
            Some(to) => held_in_range(
                alloc,
                snap,
                func,
                p,
                tokenizer,
                Some(from),
                Some(to),
                vars,
                reads,
            ),
            None => root_by_search(alloc, snap, func, vars, reads),
        },
        None => root_by_search(alloc, snap, func, vars, reads),
    }
}

// Those with a value between two, where there is an index that keeps values in order.
fn between_two<S: Snapshot, L: Ledger>(
    alloc: Global,
    snap: &S,
    func: &Func,
    p: &str,
    low: &Value,
    high: &Value,
    vars: &Vars,
    reads: &mut Steps<L>,
) -> Mem<Uids>
    requires between { (kind : Option Kind) × (func.now ≡ funcs.Between (part.Pred p.now) kind (low.now ∷ high.now ∷ [])) }
    ensures { IfOk result (λ uids. uids ≡ root_nodes (S.graph snap.now) vars.now.variables func.now) }
{
    match ordered_index(snap, p, low) {
        Some(tokenizer) => {
            between_by_index(alloc, snap, func, p, tokenizer, low, high, vars, reads)
        }
        None => root_by_search(alloc, snap, func, vars, reads),
    }
}

/// The nodes that have a value between two. By an index that keeps the order of such values it reads the range between the
/// two as the index files them, and then one list for each node there.
pub(crate) fn root_of_between<S: Snapshot, L: Ledger>(
    alloc: Global,
    snap: &S,
    func: &Func,
    p: &str,
    values: &[Value],
    vars: &Vars,
    reads: &mut Steps<L>,
) -> Mem<Uids>
    requires between { (kind : Option Kind) × (func.now ≡ funcs.Between (part.Pred p.now) kind values.now) }
    ensures { IfOk result (λ uids. uids ≡ root_nodes (S.graph snap.now) vars.now.variables func.now) }
{
    match values {
        [low, high] => between_two(alloc, snap, func, p, low, high, vars, reads),
        _ => root_by_search(alloc, snap, func, vars, reads),
    }
}

// Those with a moment below another, which is included or not, by an index of dates.
fn below_by_index<S: Snapshot, L: Ledger>(
    alloc: Global,
    snap: &S,
    func: &Func,
    op: CmpOp,
    p: &str,
    tokenizer: Tokenizer,
    given: &Value,
    vars: &Vars,
    reads: &mut Steps<L>,
) -> Mem<Uids>
    requires tokenizer { is_indexed_by (S.declared snap.now) p.now tokenizer ≡ true }
    requires moments { declared_kind (S.declared snap.now) p.now ≡ Some kinds.Time }
    requires moment { (m : Instant) × (given.now ≡ values.Time m) }
    requires given { (kind : Option Kind) × (func.now ≡ funcs.Cmp op (part.Pred p.now) kind (given.now ∷ [])) }
    requires below { (o : Ordering) → stands op o ≡ true → is_le o ≡ true }
    ensures { IsLawful (S.declared snap.now) (S.graph snap.now) → IfOk result (λ uids. uids ≡ root_nodes (S.graph snap.now) vars.now.variables func.now) }
{
    let to = filed_as(alloc, tokenizer, given)?;
    match &to {
        Some(to) => held_in_range(alloc, snap, func, p, tokenizer, None, Some(to), vars, reads),
        None => root_by_search(alloc, snap, func, vars, reads),
    }
}

// The same by the finest index of dates that there is, where all values of the predicate are moments: other values come before
// each moment, and no index of dates has them.
fn root_until_moment<S: Snapshot, L: Ledger>(
    alloc: Global,
    snap: &S,
    func: &Func,
    op: CmpOp,
    p: &str,
    given: &Value,
    vars: &Vars,
    reads: &mut Steps<L>,
) -> Mem<Uids>
    requires given { (kind : Option Kind) × (func.now ≡ funcs.Cmp op (part.Pred p.now) kind (given.now ∷ [])) }
    requires below { (o : Ordering) → stands op o ≡ true → is_le o ≡ true }
    ensures { IsLawful (S.declared snap.now) (S.graph snap.now) → IfOk result (λ uids. uids ≡ root_nodes (S.graph snap.now) vars.now.variables func.now) }
{
    match given {
        Value::Time(_) => match moment_index(snap, p) {
            Some(tokenizer) => {
                below_by_index(alloc, snap, func, op, p, tokenizer, given, vars, reads)
            }
            None => root_by_search(alloc, snap, func, vars, reads),
        },
        Value::Int(_) => root_by_search(alloc, snap, func, vars, reads),
        Value::Text(_) => root_by_search(alloc, snap, func, vars, reads),
        Value::Bool(_) => root_by_search(alloc, snap, func, vars, reads),
    }
}

// Those with a value below another, which is included or not, by an index of the values themselves or of dates.
fn root_below<S: Snapshot, L: Ledger>(
    alloc: Global,
    snap: &S,
    func: &Func,
    op: CmpOp,
    p: &str,
    high: &Value,
    vars: &Vars,
    reads: &mut Steps<L>,
) -> Mem<Uids>
    requires given { (kind : Option Kind) × (func.now ≡ funcs.Cmp op (part.Pred p.now) kind (high.now ∷ [])) }
    requires below { (o : Ordering) → stands op o ≡ true → is_le o ≡ true }
    ensures { IsLawful (S.declared snap.now) (S.graph snap.now) → IfOk result (λ uids. uids ≡ root_nodes (S.graph snap.now) vars.now.variables func.now) }
{
    match own_index(snap, p) {
        Some(tokenizer) => held_in_range(
            alloc,
            snap,
            func,
            p,
            tokenizer,
            None,
            Some(high),
            vars,
            reads,
        ),
        None => root_until_moment(alloc, snap, func, op, p, high, vars, reads),
    }
}

// Those with a moment above another, which is included or not, by an index of dates.
fn above_by_index<S: Snapshot, L: Ledger>(
    alloc: Global,
    snap: &S,
    func: &Func,
    op: CmpOp,
    p: &str,
    tokenizer: Tokenizer,
    given: &Value,
    vars: &Vars,
    reads: &mut Steps<L>,
) -> Mem<Uids>
    requires tokenizer { is_indexed_by (S.declared snap.now) p.now tokenizer ≡ true }
    requires moment { (m : Instant) × (given.now ≡ values.Time m) }
    requires given { (kind : Option Kind) × (func.now ≡ funcs.Cmp op (part.Pred p.now) kind (given.now ∷ [])) }
    requires above { (o : Ordering) → stands op o ≡ true → is_ge o ≡ true }
    ensures { IfOk result (λ uids. uids ≡ root_nodes (S.graph snap.now) vars.now.variables func.now) }
{
    let from = filed_as(alloc, tokenizer, given)?;
    match &from {
        Some(from) => held_in_range(
            alloc,
            snap,
            func,
            p,
            tokenizer,
            Some(from),
            None,
            vars,
            reads,
        ),
        None => root_by_search(alloc, snap, func, vars, reads),
    }
}

// The same by the finest index of dates that there is. A moment comes after all that is no moment, so that an index of dates
// has each of them, of whatever kind the predicate is.
fn root_from_moment<S: Snapshot, L: Ledger>(
    alloc: Global,
    snap: &S,
    func: &Func,
    op: CmpOp,
    p: &str,
    given: &Value,
    vars: &Vars,
    reads: &mut Steps<L>,
) -> Mem<Uids>
    requires given { (kind : Option Kind) × (func.now ≡ funcs.Cmp op (part.Pred p.now) kind (given.now ∷ [])) }
    requires above { (o : Ordering) → stands op o ≡ true → is_ge o ≡ true }
    ensures { IfOk result (λ uids. uids ≡ root_nodes (S.graph snap.now) vars.now.variables func.now) }
{
    match given {
        Value::Time(_) => match date_index(snap, p) {
            Some(tokenizer) => {
                above_by_index(alloc, snap, func, op, p, tokenizer, given, vars, reads)
            }
            None => root_by_search(alloc, snap, func, vars, reads),
        },
        Value::Int(_) => root_by_search(alloc, snap, func, vars, reads),
        Value::Text(_) => root_by_search(alloc, snap, func, vars, reads),
        Value::Bool(_) => root_by_search(alloc, snap, func, vars, reads),
    }
}

// Those with a value above another, which is included or not, by an index of the values themselves or of dates.
fn root_above<S: Snapshot, L: Ledger>(
    alloc: Global,
    snap: &S,
    func: &Func,
    op: CmpOp,
    p: &str,
    low: &Value,
    vars: &Vars,
    reads: &mut Steps<L>,
) -> Mem<Uids>
    requires given { (kind : Option Kind) × (func.now ≡ funcs.Cmp op (part.Pred p.now) kind (low.now ∷ [])) }
    requires above { (o : Ordering) → stands op o ≡ true → is_ge o ≡ true }
    ensures { IsLawful (S.declared snap.now) (S.graph snap.now) → IfOk result (λ uids. uids ≡ root_nodes (S.graph snap.now) vars.now.variables func.now) }
{
    match own_index(snap, p) {
        Some(tokenizer) => held_in_range(
            alloc,
            snap,
            func,
            p,
            tokenizer,
            Some(low),
            None,
            vars,
            reads,
        ),
        None => root_from_moment(alloc, snap, func, op, p, low, vars, reads),
    }
}

// Those with a value that stands so to another.
fn root_of_order<S: Snapshot, L: Ledger>(
    alloc: Global,
    snap: &S,
    func: &Func,
    op: CmpOp,
    p: &str,
    given: &Value,
    vars: &Vars,
    reads: &mut Steps<L>,
) -> Mem<Uids>
    requires given { (kind : Option Kind) × (func.now ≡ funcs.Cmp op (part.Pred p.now) kind (given.now ∷ [])) }
    ensures { IsLawful (S.declared snap.now) (S.graph snap.now) → IfOk result (λ uids. uids ≡ root_nodes (S.graph snap.now) vars.now.variables func.now) }
{
    match op {
        CmpOp::Le => root_below(alloc, snap, func, op, p, given, vars, reads),
        CmpOp::Lt => root_below(alloc, snap, func, op, p, given, vars, reads),
        CmpOp::Ge => root_above(alloc, snap, func, op, p, given, vars, reads),
        CmpOp::Gt => root_above(alloc, snap, func, op, p, given, vars, reads),
        CmpOp::Eq => root_by_search(alloc, snap, func, vars, reads),
    }
}

/// The nodes that have a value below or above another, in a lawful graph. By an index that lists all values of the
/// predicate's kind in order it reads the range up to the value, or from it on, and then one list for each node there; by an
/// index of dates the same up to a moment, or from it on. Else each node with a value is asked.
pub(crate) fn root_of_compared<S: Snapshot, L: Ledger>(
    alloc: Global,
    snap: &S,
    func: &Func,
    op: CmpOp,
    p: &str,
    values: &[Value],
    vars: &Vars,
    reads: &mut Steps<L>,
) -> Mem<Uids>
    requires given { (kind : Option Kind) × (func.now ≡ funcs.Cmp op (part.Pred p.now) kind values.now) }
    ensures { IsLawful (S.declared snap.now) (S.graph snap.now) → IfOk result (λ uids. uids ≡ root_nodes (S.graph snap.now) vars.now.variables func.now) }
{
    match values {
        [given] => root_of_order(alloc, snap, func, op, p, given, vars, reads),
        _ => root_by_search(alloc, snap, func, vars, reads),
    }
}
