// Indexes that keep the order of values.
ghost use Rattle.std.specs.Prelude.{◌≡◌, true, Some, IsTrue, IfOk, IfSome};
ghost use Rattle.dg_values.specs.declared.kind.Kind.TheVariants as kinds;
ghost use Rattle.dg_values.specs.declared.value.Value.TheVariants as values;
ghost use Rattle.dg_values.specs.Calendar.{truncated};
ghost use Rattle.dg_values.specs.Instant.{IsInstant};
ghost use Rattle.dg_graph.specs.Lookups.{is_indexed_by};
ghost use Rattle.dg_funcs.specs.Filed.{filed_as, IsInYears};
ghost use Rattle.dg_funcs.specs.Kinds.{declared_kind, keeps};

use crate::indexes::is_indexed;
use dg_graph::Snapshot;
use dg_values::{DatePart, Kind, Mem, Moment, OutOfMemory, Tokenizer, Value, truncate};
use std::alloc::Global;

/// The tokenizer of the finest of a predicate's indexes of dates.
pub(crate) fn date_index<S: Snapshot>(snap: &S, p: &str) -> Option<Tokenizer>
    ensures { IfSome result (λ t. is_indexed_by (S.declared snap.now) p.now t ≡ true) }
{
    if is_indexed(snap, p, Tokenizer::Hour) {
        return Some(Tokenizer::Hour);
    }
    if is_indexed(snap, p, Tokenizer::Day) {
        return Some(Tokenizer::Day);
    }
    if is_indexed(snap, p, Tokenizer::Month) {
        return Some(Tokenizer::Month);
    }
    if is_indexed(snap, p, Tokenizer::Year) {
        return Some(Tokenizer::Year);
    }
    None
}

// Whether all values of a predicate are moments.
fn is_of_moments<S: Snapshot>(snap: &S, p: &str) -> bool
    ensures { IsTrue result → declared_kind (S.declared snap.now) p.now ≡ Some kinds.Time }
{
    match snap.schema().lookup(p) {
        Some(definition) => matches!(definition.kind, Kind::Time),
        None => false,
    }
}

/// The same where all values of the predicate are moments.
pub(crate) fn moment_index<S: Snapshot>(snap: &S, p: &str) -> Option<Tokenizer>
    ensures indexed { IfSome result (λ t. is_indexed_by (S.declared snap.now) p.now t ≡ true) }
    ensures moments { IfSome result (λ t. declared_kind (S.declared snap.now) p.now ≡ Some kinds.Time) }
{
    if is_of_moments(snap, p) {
        date_index(snap, p)
    } else {
        None
    }
}

// This tokenizer, where the predicate has an index by it.
fn index_by<S: Snapshot>(snap: &S, p: &str, tokenizer: Tokenizer) -> Option<Tokenizer>
    ensures { IfSome result (λ t. is_indexed_by (S.declared snap.now) p.now t ≡ true) }
{
    if is_indexed(snap, p, tokenizer) {
        Some(tokenizer)
    } else {
        None
    }
}

/// The tokenizer of an index of the predicate that keeps values of this one's kind in order: the finest that there is.
pub(crate) fn ordered_index<S: Snapshot>(snap: &S, p: &str, v: &Value) -> Option<Tokenizer>
    ensures { IfSome result (λ t. is_indexed_by (S.declared snap.now) p.now t ≡ true) }
{
    match v {
        Value::Text(_) => index_by(snap, p, Tokenizer::Exact),
        Value::Int(_) => index_by(snap, p, Tokenizer::Int),
        Value::Time(_) => date_index(snap, p),
        Value::Bool(_) => None,
    }
}

// The tokenizer of indexes that list each value of a kind under itself, in order.
fn keeping(kind: Kind) -> Option<Tokenizer>
    ensures { IfSome result (λ t. keeps t (Some kind) ≡ true) }
{
    match kind {
        Kind::Text => Some(Tokenizer::Exact),
        Kind::Default => Some(Tokenizer::Exact),
        Kind::Int => Some(Tokenizer::Int),
        Kind::Bool => Some(Tokenizer::Bool),
        Kind::Time => None,
        Kind::Uid => None,
    }
}

// The same of the kind that a predicate is declared with.
fn keeping_of<S: Snapshot>(snap: &S, p: &str) -> Option<Tokenizer>
    ensures { IfSome result (λ t. keeps t (declared_kind (S.declared snap.now) p.now) ≡ true) }
{
    match snap.schema().lookup(p) {
        Some(definition) => keeping(definition.kind),
        None => None,
    }
}

/// The tokenizer of an index of the predicate that lists each value of its kind under itself, in order.
pub(crate) fn own_index<S: Snapshot>(snap: &S, p: &str) -> Option<Tokenizer>
    ensures indexed { IfSome result (λ t. is_indexed_by (S.declared snap.now) p.now t ≡ true) }
    ensures own { IfSome result (λ t. keeps t (declared_kind (S.declared snap.now) p.now) ≡ true) }
{
    match keeping_of(snap, p) {
        Some(tokenizer) => {
            if is_indexed(snap, p, tokenizer) {
                Some(tokenizer)
            } else {
                None
            }
        }
        None => None,
    }
}

// A moment cut down, as a value. It is one of the years 0000 to 9999.
fn cut(m: Moment, part: DatePart) -> Value
    ensures cut { result ≡ values.Time (truncated part m) }
    ensures years { IsInstant m }
{
    let _secs = m.secs();
    Value::Time(truncate(m, part))
}

// The value under which an index of dates files a moment.
fn moment_as(tokenizer: Tokenizer, m: Moment) -> Option<Value>
    ensures value { result ≡ filed_as tokenizer (values.Time m) }
    ensures years { IfSome result (λ w. IsInstant m) }
{
    match tokenizer {
        Tokenizer::Hour => Some(cut(m, DatePart::Hour)),
        Tokenizer::Day => Some(cut(m, DatePart::Day)),
        Tokenizer::Month => Some(cut(m, DatePart::Month)),
        Tokenizer::Year => Some(cut(m, DatePart::Year)),
        _ => None,
    }
}

/// The value under which an index that keeps the order of values files one, where it does.
pub(crate) fn filed_as(alloc: Global, tokenizer: Tokenizer, v: &Value) -> Mem<Option<Value>>
    ensures value { IfOk result (λ o. o ≡ filed_as tokenizer v.now) }
    ensures years { IfOk result (λ o. IfSome o (λ w. IsInYears v.now)) }
{
    match v {
        Value::Text(text) => match tokenizer {
            Tokenizer::Exact => Ok(Some(Value::Text(text.copy(alloc)?))),
            _ => Ok(None),
        },
        Value::Int(n) => match tokenizer {
            Tokenizer::Int => Ok(Some(Value::Int(*n))),
            _ => Ok(None),
        },
        Value::Time(m) => Ok(moment_as(tokenizer, *m)),
        Value::Bool(_) => Ok(None),
    }
}
