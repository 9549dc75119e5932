// Nodes found by the tokens of their objects: one pass over the triples of a graph.
ghost use Rattle.std.specs.Prelude.{◌≡◌, ◌&&◌, IfOk, option_copied};
ghost use Rattle.std.specs.List.{list_any};
ghost use Rattle.dg_values.specs.Ascending.{has};
ghost use Rattle.dg_tokens.specs.Orders.{index_token_cmp};
ghost use Rattle.dg_graph.specs.Graphs.{is_of};
ghost use Rattle.dg_graph.specs.Lookups.{subjects_where, has_token, has_token_between, is_from, is_up_to, by_token_range};

use crate::Triple;
use crate::found::is_of;
use dg_tokens::{IndexToken, cmp_token, tokens_of};
use dg_uids::Uids;
use dg_values::{Mem, OutOfMemory, Posting, Tokenizer, Value, cmp_value};
use std::alloc::Global;

// ---- by one token

// Whether a token is one of these.
fn any_is(tokens: &[IndexToken], token: &IndexToken) -> bool
    ensures { result ≡ has index_token_cmp tokens.now token.now }
{
    tokens.iter().any(|t| cmp_token(t, token).is_eq())
}

// Whether a token is one of an object.
fn has_token(alloc: Global, token: &IndexToken, object: &Posting) -> Mem<bool>
    ensures { IfOk result (λ b. b ≡ has_token token.now object.now) }
{
    match object {
        Posting::Uid(_) => Ok(false),
        Posting::Val(value) => {
            let tokens = tokens_of(alloc, token.tokenizer, value)?;
            Ok(any_is(tokens.as_slice(), token))
        }
    }
}

// Whether a triple of this predicate has a token.
fn is_filed(alloc: Global, p: &str, token: &IndexToken, triple: &Triple) -> Mem<bool>
    ensures { IfOk result (λ b. b ≡ (is_of p.now triple.now && has_token token.now triple.now.o)) }
{
    if is_of(p, triple) {
        has_token(alloc, token, &triple.o)
    } else {
        Ok(false)
    }
}

// The nodes that have an object with a token.
pub(crate) fn by_token(alloc: Global, triples: &[Triple], p: &str, token: &IndexToken) -> Mem<Uids>
    ensures { IfOk result (λ uids. uids ≡ subjects_where (has_token token.now) triples.now p.now) }
{
    let mut found = Vec::new(alloc);
    for triple in triples {
        if is_filed(alloc, p, token, triple)? {
            found.push(triple.s)?;
        }
    }
    Ok(Uids::gathered(found))
}

// ---- by tokens between two ends

// Whether a value is at the lower end or above it.
fn is_from(low: Option<&Value>, v: &Value) -> bool
    ensures { result ≡ is_from (option_copied low.entry) v.now }
{
    match low {
        None => true,
        Some(low) => cmp_value(low, v).is_le(),
    }
}

// Whether a value is at the upper end or below it.
fn is_up_to(high: Option<&Value>, v: &Value) -> bool
    ensures { result ≡ is_up_to (option_copied high.entry) v.now }
{
    match high {
        None => true,
        Some(high) => cmp_value(v, high).is_le(),
    }
}

// Whether a value lies between the ends.
fn is_between(low: Option<&Value>, high: Option<&Value>, v: &Value) -> bool
    ensures { result ≡ (is_from (option_copied low.entry) v.now && is_up_to (option_copied high.entry) v.now) }
{
    if is_from(low, v) {
        is_up_to(high, v)
    } else {
        false
    }
}

// Whether one of these tokens lies between the ends.
fn any_between(tokens: &[IndexToken], low: Option<&Value>, high: Option<&Value>) -> bool
    ensures { result ≡ list_any (λ t. is_from (option_copied low.entry) t.value && is_up_to (option_copied high.entry) t.value) tokens.now }
{
    tokens.iter().any(|t| is_between(low, high, &t.value))
}

// Whether an object has a token between the ends.
fn has_token_between(
    alloc: Global,
    tokenizer: Tokenizer,
    low: Option<&Value>,
    high: Option<&Value>,
    object: &Posting,
) -> Mem<bool>
    ensures { IfOk result (λ b. b ≡ has_token_between tokenizer (option_copied low.entry) (option_copied high.entry) object.now) }
{
    match object {
        Posting::Uid(_) => Ok(false),
        Posting::Val(value) => {
            let tokens = tokens_of(alloc, tokenizer, value)?;
            Ok(any_between(tokens.as_slice(), low, high))
        }
    }
}

// Whether a triple of this predicate has a token between the ends.
fn is_filed_between(
    alloc: Global,
    p: &str,
    tokenizer: Tokenizer,
    low: Option<&Value>,
    high: Option<&Value>,
    triple: &Triple,
) -> Mem<bool>
    ensures { IfOk result (λ b. b ≡ (is_of p.now triple.now && has_token_between tokenizer (option_copied low.entry) (option_copied high.entry) triple.now.o)) }
{
    if is_of(p, triple) {
        has_token_between(alloc, tokenizer, low, high, &triple.o)
    } else {
        Ok(false)
    }
}

// The nodes that have an object with a token between the ends.
pub(crate) fn by_token_range(
    alloc: Global,
    triples: &[Triple],
    p: &str,
    tokenizer: Tokenizer,
    low: Option<&Value>,
    high: Option<&Value>,
) -> Mem<Uids>
    ensures { IfOk result (λ uids. uids ≡ by_token_range triples.now p.now tokenizer (option_copied low.entry) (option_copied high.entry)) }
{
    let mut found = Vec::new(alloc);
    for triple in triples {
        if is_filed_between(alloc, p, tokenizer, low, high, triple)? {
            found.push(triple.s)?;
        }
    }
    Ok(Uids::gathered(found))
}
