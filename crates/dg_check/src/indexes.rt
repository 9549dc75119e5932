// Whether predicates are declared with what their use needs.
ghost use Rattle.std.specs.Prelude.{◌≡◌, codes, IfOk};
ghost use Rattle.std.specs.List.{list_any};
ghost use Rattle.dg_check.specs.Faults.{is_sortable, serves_index, unindexed, uncounted, irreversible, op_word, op_index, terms_word, unindexed_part, unindexed_root, irreversible_part, irreversible_func};

use crate::CheckFault;
use crate::finding::Check;
use crate::places::Place;
use dg_parse::{CmpOp, QEdge, QFunc, QOf};
use dg_schema::Schema;
use dg_values::{Mem, OutOfMemory, Str, Tokenizer};
use std::alloc::Global;

/// What an index has to be for.
#[derive(Clone, Copy)]
pub enum Index {
    /// Comparing by order: its tokens keep the order of values.
    Sortable,
    /// Finding equal values: these have tokens in common.
    Equal,
    /// Finding texts by their terms.
    Term,
    /// Finding texts by pattern: its tokens are runs of three characters.
    Trigram,
}

// Whether the tokens keep the order of values.
fn is_sortable(tokenizer: Tokenizer) -> bool
    ensures { result ≡ is_sortable tokenizer }
{
    match tokenizer {
        Tokenizer::Hash | Tokenizer::Term | Tokenizer::Trigram | Tokenizer::Bool => false,
        Tokenizer::Exact
        | Tokenizer::Int
        | Tokenizer::Year
        | Tokenizer::Month
        | Tokenizer::Day
        | Tokenizer::Hour => true,
    }
}

// Whether a tokenizer makes such an index.
fn serves_index(index: Index, tokenizer: Tokenizer) -> bool
    ensures { result ≡ serves_index index tokenizer }
{
    match index {
        Index::Sortable => is_sortable(tokenizer),
        Index::Equal => !matches!(tokenizer, Tokenizer::Trigram),
        Index::Term => matches!(tokenizer, Tokenizer::Term),
        Index::Trigram => matches!(tokenizer, Tokenizer::Trigram),
    }
}

// Whether one of a predicate's tokenizers makes such an index.
fn has_index(tokenizers: &[Tokenizer], index: Index) -> bool
    ensures { result ≡ list_any (serves_index index) tokenizers.now }
{
    tokenizers
        .iter()
        .any(|tokenizer| serves_index(index, *tokenizer))
}

// The fault of a predicate that lacks what a function needs.
fn not_indexed(alloc: Global, pred: &str, word: &str) -> Mem<CheckFault>
    ensures { IfOk result (λ fault. fault ≡ CheckFault.NotIndexed pred.now word.now) }
{
    let func = Str::from_str(alloc, word)?;
    let pred = Str::from_str(alloc, pred)?;
    Ok(CheckFault::NotIndexed { pred, func })
}

// The fault of a declared predicate that has no such index.
fn unindexed(
    alloc: Global,
    schema: &Schema,
    index: Index,
    pred: &Str,
    word: &str,
) -> Mem<Option<CheckFault>>
    ensures { IfOk result (λ found. found ≡ unindexed schema.now index pred.now word.now) }
{
    match schema.lookup(pred.as_str()) {
        None => Ok(None),
        Some(definition) => {
            if has_index(definition.tokens.as_slice(), index) {
                Ok(None)
            } else {
                Ok(Some(not_indexed(alloc, pred.as_str(), word)?))
            }
        }
    }
}

// The fault of a declared predicate that has no `@count`.
fn uncounted(alloc: Global, schema: &Schema, edge: &QEdge) -> Mem<Option<CheckFault>>
    ensures { IfOk result (λ found. found ≡ uncounted schema.now edge.now) }
{
    match schema.lookup(edge.pred.as_str()) {
        None => Ok(None),
        Some(definition) => {
            if definition.count {
                Ok(None)
            } else {
                Ok(Some(not_indexed(alloc, edge.pred.as_str(), "count")?))
            }
        }
    }
}

// The fault of a declared predicate that is followed backwards and has no `@reverse`.
fn irreversible(alloc: Global, schema: &Schema, edge: &QEdge) -> Mem<Option<CheckFault>>
    ensures { IfOk result (λ found. found ≡ irreversible schema.now edge.now) }
{
    if !edge.back {
        return Ok(None);
    }
    match schema.lookup(edge.pred.as_str()) {
        None => Ok(None),
        Some(definition) => {
            if definition.reverse {
                Ok(None)
            } else {
                Ok(Some(not_indexed(alloc, edge.pred.as_str(), "~")?))
            }
        }
    }
}

// A comparison's word.
fn op_word(op: CmpOp) -> &'static str
    ensures { result.now ≡ op_word op }
{
    match op {
        CmpOp::Eq => "eq",
        CmpOp::Le => "le",
        CmpOp::Lt => "lt",
        CmpOp::Ge => "ge",
        CmpOp::Gt => "gt",
    }
}

// The index that a comparison needs at a root.
fn op_index(op: CmpOp) -> Index
    ensures { result ≡ op_index op }
{
    match op {
        CmpOp::Eq => Index::Equal,
        CmpOp::Le | CmpOp::Lt | CmpOp::Ge | CmpOp::Gt => Index::Sortable,
    }
}

// The word of a function of terms.
fn terms_word(all: bool) -> &'static str
    ensures { result.now ≡ terms_word all }
{
    if all { "allofterms" } else { "anyofterms" }
}

// The fault of what a root compares.
fn unindexed_part(
    alloc: Global,
    schema: &Schema,
    index: Index,
    word: &str,
    of: &QOf,
) -> Mem<Option<CheckFault>>
    ensures { IfOk result (λ found. found ≡ unindexed_part schema.now index word.now of.now) }
{
    match of {
        QOf::Pred(pred) => unindexed(alloc, schema, index, pred, word),
        QOf::Count(edge) => match uncounted(alloc, schema, edge)? {
            Some(fault) => Ok(Some(fault)),
            None => irreversible(alloc, schema, edge),
        },
        QOf::Val(_) => Ok(None),
    }
}

// The fault of the function of a root.
fn unindexed_root(alloc: Global, schema: &Schema, func: &QFunc) -> Mem<Option<CheckFault>>
    ensures { IfOk result (λ found. found ≡ unindexed_root schema.now func.now) }
{
    match func {
        QFunc::Uid(_) => Ok(None),
        QFunc::Cmp { op, of, .. } => {
            unindexed_part(alloc, schema, op_index(*op), op_word(*op), of)
        }
        QFunc::Between { of, .. } => unindexed_part(alloc, schema, Index::Sortable, "between", of),
        QFunc::Has(edge) => irreversible(alloc, schema, edge),
        QFunc::Terms { all, pred, .. } => {
            unindexed(alloc, schema, Index::Term, pred, terms_word(*all))
        }
        QFunc::Regexp { pred, .. } => unindexed(alloc, schema, Index::Trigram, pred, "regexp"),
        QFunc::UidIn { edge, .. } => irreversible(alloc, schema, edge),
    }
}

// The fault of what a filter compares, where no index is needed.
fn irreversible_part(alloc: Global, schema: &Schema, of: &QOf) -> Mem<Option<CheckFault>>
    ensures { IfOk result (λ found. found ≡ irreversible_part schema.now of.now) }
{
    match of {
        QOf::Count(edge) => irreversible(alloc, schema, edge),
        QOf::Pred(_) | QOf::Val(_) => Ok(None),
    }
}

// The fault of a function in a filter.
fn irreversible_func(alloc: Global, schema: &Schema, func: &QFunc) -> Mem<Option<CheckFault>>
    ensures { IfOk result (λ found. found ≡ irreversible_func schema.now func.now) }
{
    match func {
        QFunc::Cmp { of, .. } => irreversible_part(alloc, schema, of),
        QFunc::Between { of, .. } => irreversible_part(alloc, schema, of),
        QFunc::Has(edge) => irreversible(alloc, schema, edge),
        QFunc::UidIn { edge, .. } => irreversible(alloc, schema, edge),
        QFunc::Uid(_) | QFunc::Terms { .. } | QFunc::Regexp { .. } => Ok(None),
    }
}

/// Whether predicates are declared with what their use needs.
#[derive(Drop)]
pub struct Indexed<'a> {
    /// How they are declared.
    pub schema: &'a Schema,
}

impl Check for Indexed<'_> {
    ghost use Rattle.dg_check.specs.Faults.{not_indexed_at};

    ghost finds = { λ check. not_indexed_at check.schema.now };

    fn at(&self, alloc: Global, place: Place<'_>) -> Mem<Option<CheckFault>> {
        match place {
            Place::Root(func) => unindexed_root(alloc, self.schema, func),
            Place::Tested(func) => irreversible_func(alloc, self.schema, func),
            Place::Edge(edge) => irreversible(alloc, self.schema, edge),
            Place::Defined(..)
            | Place::Arguments(_)
            | Place::Recursion(_)
            | Place::Shown(_)
            | Place::Aggregated(..) => Ok(None),
        }
    }
}
