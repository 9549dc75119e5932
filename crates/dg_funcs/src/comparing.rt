// Comparisons of values.
ghost use Rattle.std.specs.Prelude.{◌≡◌, ◌∷◌, [], filter_map, map, IfOk};
ghost use Rattle.std.specs.List.{list_any};
ghost use Rattle.dg_values.specs.Ascending.{has};
ghost use Rattle.dg_values.specs.Order.{posting_cmp};
ghost use Rattle.dg_values.specs.declared.value.Posting.TheVariants as postings;
ghost use Rattle.dg_funcs.specs.Truth.{stands, stands_to_any, is_between, value_in, compared};
ghost use Rattle.dg_funcs.specs.Tests.{in_value, as_objects, asked_by};

use crate::following::count_along;
use crate::{Asked, value_at};
use dg_check::{Of, Vars};
use dg_graph::Snapshot;
use dg_parse::CmpOp;
use dg_values::{Mem, OutOfMemory, Posting, Steps, Value, cmp_value};
use std::alloc::Global;
use std::cmp::Ordering;
use std::sync::ledger::Ledger;

// Whether an order is one that a comparison asks for.
fn stands(op: CmpOp, order: Ordering) -> bool
    ensures { result ≡ stands op order }
{
    match op {
        CmpOp::Eq => order.is_eq(),
        CmpOp::Le => order.is_le(),
        CmpOp::Lt => order.is_lt(),
        CmpOp::Ge => order.is_ge(),
        CmpOp::Gt => order.is_gt(),
    }
}

// Whether a value stands so to one of these.
fn stands_to_any(op: CmpOp, values: &[Value], v: &Value) -> bool
    ensures { result ≡ stands_to_any op values.now v.now }
{
    values.iter().any(|given| stands(op, cmp_value(v, given)))
}

// Whether an object is a value that stands so to one of these.
fn object_stands(op: CmpOp, values: &[Value], object: &Posting) -> bool
    ensures { result ≡ in_value (stands_to_any op values.now) object.now }
{
    match object {
        Posting::Val(v) => stands_to_any(op, values, v),
        Posting::Uid(_) => false,
    }
}

// Whether some object is one.
fn any_stands(op: CmpOp, values: &[Value], objects: &[Posting]) -> bool
    ensures { result ≡ list_any (in_value (stands_to_any op values.now)) objects.now }
{
    objects
        .iter()
        .any(|object| object_stands(op, values, object))
}

// Whether a value lies between two.
fn is_between(values: &[Value], v: &Value) -> bool
    ensures { result ≡ is_between values.now v.now }
{
    match values {
        [low, high] => cmp_value(v, low).is_ge() && cmp_value(v, high).is_le(),
        _ => false,
    }
}

// Whether an object is a value that lies between two.
fn object_between(values: &[Value], object: &Posting) -> bool
    ensures { result ≡ in_value (is_between values.now) object.now }
{
    match object {
        Posting::Val(v) => is_between(values, v),
        Posting::Uid(_) => false,
    }
}

// Whether some object is one.
fn any_between(values: &[Value], objects: &[Posting]) -> bool
    ensures { result ≡ list_any (in_value (is_between values.now)) objects.now }
{
    objects.iter().any(|object| object_between(values, object))
}

// Whether some object is asked for.
fn any_asked(asked: &Asked, objects: &[Posting]) -> bool
    ensures { result ≡ list_any (has posting_cmp asked.now) objects.now }
{
    objects.iter().any(|object| asked.has(object))
}

/// These values as objects.
pub(crate) fn objects_of(alloc: Global, values: &[Value]) -> Mem<Vec<Posting>>
    ensures { IfOk result (λ v. v.items ≡ map (λ value. postings.Val value) values.now) }
{
    let mut objects = Vec::new(alloc);
    for value in values {
        objects.push(Posting::Val(value.copy(alloc)?))?;
    }
    Ok(objects)
}

/// These values, in order and each once.
pub(crate) fn asked_values(alloc: Global, values: &[Value]) -> Mem<Asked>
    ensures { IfOk result (λ asked. asked ≡ as_objects values.now) }
{
    Ok(Asked::of(objects_of(alloc, values)?))
}

/// The values that are asked for by `eq`, in order and each once; none by another comparison.
pub(crate) fn asked_by(alloc: Global, op: CmpOp, values: &[Value]) -> Mem<Asked>
    ensures { IfOk result (λ asked. asked ≡ asked_by op values.now) }
{
    match op {
        CmpOp::Eq => asked_values(alloc, values),
        _ => Ok(Asked::of(Vec::new(alloc))),
    }
}

// Whether a comparison holds of some object.
fn any_compares(op: CmpOp, asked: &Asked, values: &[Value], objects: &[Posting]) -> bool
    requires asked { asked.now ≡ asked_by op values.now }
    ensures { result ≡ list_any (in_value (stands_to_any op values.now)) objects.now }
{
    match op {
        CmpOp::Eq => any_asked(asked, objects),
        _ => any_stands(op, values, objects),
    }
}

// One value as an object.
fn one_value(alloc: Global, value: Value) -> Mem<Vec<Posting>>
    ensures { IfOk result (λ v. v.items ≡ postings.Val value ∷ []) }
{
    let mut objects = Vec::new(alloc);
    objects.push(Posting::Val(value))?;
    Ok(objects)
}

// The values that a comparison looks at, among objects.
fn compared<S: Snapshot, L: Ledger>(
    alloc: Global,
    snap: &S,
    of: &Of,
    node: u64,
    vars: &Vars,
    reads: &mut Steps<L>,
) -> Mem<Vec<Posting>>
    ensures { IfOk result (λ v. filter_map value_in v.items ≡ compared (S.graph snap.now) vars.now.variables of.now node) }
{
    match of {
        Of::Pred(p) => snap.objects(alloc, p.as_str(), node, reads),
        Of::Count(edge) => {
            let n = count_along(alloc, snap, edge, node, reads)?;
            one_value(alloc, Value::Int(n))
        }
        Of::Val(place) => match value_at(vars, *place, node) {
            Some(value) => one_value(alloc, value.copy(alloc)?),
            None => Ok(Vec::new(alloc)),
        },
    }
}

/// Whether what is compared at a node stands so to one of these values. It reads one list at most.
pub(crate) fn compares<S: Snapshot, L: Ledger>(
    alloc: Global,
    snap: &S,
    op: CmpOp,
    asked: &Asked,
    values: &[Value],
    of: &Of,
    node: u64,
    vars: &Vars,
    reads: &mut Steps<L>,
) -> Mem<bool>
    requires asked { asked.now ≡ asked_by op values.now }
    ensures { IfOk result (λ b. b ≡ list_any (stands_to_any op values.now) (compared (S.graph snap.now) vars.now.variables of.now node)) }
{
    let objects = compared(alloc, snap, of, node, vars, reads)?;
    Ok(any_compares(op, asked, values, objects.as_slice()))
}

/// Whether what is compared at a node lies between two values. It reads one list at most.
pub(crate) fn lies_between<S: Snapshot, L: Ledger>(
    alloc: Global,
    snap: &S,
    values: &[Value],
    of: &Of,
    node: u64,
    vars: &Vars,
    reads: &mut Steps<L>,
) -> Mem<bool>
    ensures { IfOk result (λ b. b ≡ list_any (is_between values.now) (compared (S.graph snap.now) vars.now.variables of.now node)) }
{
    let objects = compared(alloc, snap, of, node, vars, reads)?;
    Ok(any_between(values, objects.as_slice()))
}
