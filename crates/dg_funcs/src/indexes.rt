// Which index of a predicate files values under themselves.
ghost use Rattle.std.specs.Prelude.{◌≡◌, true, IfSome, IsTrue, is_some};
ghost use Rattle.std.specs.List.{list_all, list_any};
ghost use Rattle.dg_values.specs.Order.{tokenizer_cmp};
ghost use Rattle.dg_values.specs.Ascending.{has};
ghost use Rattle.dg_graph.specs.Lookups.{is_indexed_by};
ghost use Rattle.dg_funcs.specs.Equal.{is_filed};
ghost use Rattle.dg_funcs.specs.Reads.{is_whole, of_whole_values, has_whole_index};

use dg_graph::Snapshot;
use dg_values::{Tokenizer, Value};

// Whether a value is its own token.
fn is_filed(tokenizer: Tokenizer, v: &Value) -> bool
    ensures { result ≡ is_filed tokenizer v.now }
{
    match tokenizer {
        Tokenizer::Exact => matches!(v, Value::Text(_)),
        Tokenizer::Hash => matches!(v, Value::Text(_)),
        Tokenizer::Int => matches!(v, Value::Int(_)),
        Tokenizer::Bool => matches!(v, Value::Bool(_)),
        _ => false,
    }
}

// Whether each value is its own token.
fn all_filed(tokenizer: Tokenizer, values: &[Value]) -> bool
    ensures { result ≡ list_all (is_filed tokenizer) values.now }
{
    values.iter().all(|v| is_filed(tokenizer, v))
}

// Whether a tokenizer is one of these.
fn has_tokenizer(tokens: &[Tokenizer], tokenizer: Tokenizer) -> bool
    ensures { result ≡ has tokenizer_cmp tokens.now tokenizer }
{
    tokens.iter().any(|token| token.cmp(&tokenizer).is_eq())
}

// Whether a tokenizer is one of these, and each value is its own token by it.
fn is_whole(tokens: &[Tokenizer], values: &[Value], tokenizer: Tokenizer) -> bool
    ensures whole { result ≡ is_whole tokens.now values.now tokenizer }
    ensures among { IsTrue result → has tokenizer_cmp tokens.now tokenizer ≡ true }
    ensures filed { IsTrue result → list_all (is_filed tokenizer) values.now ≡ true }
{
    has_tokenizer(tokens, tokenizer) && all_filed(tokenizer, values)
}

// One of these tokenizers by which each value is its own token. None only where there is none.
fn whole(tokens: &[Tokenizer], values: &[Value]) -> Option<Tokenizer>
    ensures among { IfSome result (λ t. has tokenizer_cmp tokens.now t ≡ true) }
    ensures filed { IfSome result (λ t. list_all (is_filed t) values.now ≡ true) }
    ensures found { is_some result ≡ list_any (is_whole tokens.now values.now) of_whole_values }
{
    if is_whole(tokens, values, Tokenizer::Exact) {
        return Some(Tokenizer::Exact);
    }
    if is_whole(tokens, values, Tokenizer::Hash) {
        return Some(Tokenizer::Hash);
    }
    if is_whole(tokens, values, Tokenizer::Int) {
        return Some(Tokenizer::Int);
    }
    if is_whole(tokens, values, Tokenizer::Bool) {
        return Some(Tokenizer::Bool);
    }
    None
}

/// Whether a predicate is declared with an index by this tokenizer.
pub(crate) fn is_indexed<S: Snapshot>(snap: &S, p: &str, tokenizer: Tokenizer) -> bool
    ensures { result ≡ is_indexed_by (S.declared snap.now) p.now tokenizer }
{
    match snap.schema().lookup(p) {
        Some(definition) => has_tokenizer(definition.tokens.as_slice(), tokenizer),
        None => false,
    }
}

/// The tokenizer of an index of the predicate by which each value is its own token. None only where there is none.
pub(crate) fn whole_index<S: Snapshot>(snap: &S, p: &str, values: &[Value]) -> Option<Tokenizer>
    ensures indexed { IfSome result (λ t. is_indexed_by (S.declared snap.now) p.now t ≡ true) }
    ensures filed { IfSome result (λ t. list_all (is_filed t) values.now ≡ true) }
    ensures found { is_some result ≡ has_whole_index (S.declared snap.now) p.now values.now }
{
    match snap.schema().lookup(p) {
        Some(definition) => whole(definition.tokens.as_slice(), values),
        None => None,
    }
}
