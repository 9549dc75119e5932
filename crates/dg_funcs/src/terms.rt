// Terms of texts.
ghost use Rattle.std.specs.Prelude.{◌≡◌, ◌++◌, filter_map, option_to_list, IfOk, OnOk};
ghost use Rattle.std.specs.List.{list_any, list_all};
ghost use Rattle.dg_values.specs.Order.{text_cmp};
ghost use Rattle.dg_values.specs.Ascending.{Ascends, ascending, has};
ghost use Rattle.dg_tokens.specs.Terms.{terms_of};
ghost use Rattle.dg_funcs.specs.Truth.{has_terms, texts_at};
ghost use Rattle.dg_funcs.specs.Tests.{token_text, value_terms, of_text, in_text, has_asked};

use dg_graph::Snapshot;
use dg_sets::is_there;
use dg_tokens::{IndexToken, tokens_of};
use dg_values::{Mem, OutOfMemory, Posting, Steps, Str, Tokenizer, Value};
use std::alloc::Global;
use std::marker::Model;
use std::sync::ledger::Ledger;

/// Terms, each once, which contracts see as an ascending list.
#[derive(Drop)]
pub(crate) struct TermSet {
    texts: Vec<Str>,
}

impl Model for TermSet {
    ghost use Rattle.std.specs.Prelude.{List, ℕ};
    ghost use Rattle.dg_values.specs.Order.{text_cmp};
    ghost use Rattle.dg_values.specs.Ascending.{Ascends};

    ghost Value = { List (List ℕ) };

    ghost view = { λ terms. terms.texts.items };

    ghost invariant = { λ terms. Ascends text_cmp terms.texts.items };
}

impl TermSet {
    // Terms that ascend.
    fn of(texts: Vec<Str>) -> TermSet
        requires { Ascends text_cmp texts.items }
        ensures { result ≡ texts.items }
    {
        TermSet { texts }
    }

    // Whether a term is one of these. It looks by halves.
    fn has(&self, term: &Str) -> bool
        ensures { result ≡ has text_cmp self.now term.now }
    {
        is_there(self.texts.as_slice(), term)
    }

    /// The terms, borrowed.
    pub(crate) fn as_slice(&self) -> &[Str]
        ensures { result.now ≡ self.now }
    {
        self.texts.as_slice()
    }
}

// Adds the text that a token is.
fn add_text(texts: &mut Vec<Str>, token: IndexToken) -> Mem<()>
    ensures { OnOk result (texts.new.items ≡ texts.old.items ++ option_to_list (token_text token)) }
{
    match token.value {
        Value::Text(text) => texts.push(text)?,
        _ => {}
    }
    Ok(())
}

// The texts that tokens are.
fn texts_of(alloc: Global, tokens: Vec<IndexToken>) -> Mem<Vec<Str>>
    ensures { IfOk result (λ v. v.items ≡ filter_map token_text tokens.items) }
{
    let mut texts = Vec::new(alloc);
    for token in tokens {
        add_text(&mut texts, token)?;
    }
    Ok(texts)
}

/// The terms of a value; none where it is no text.
pub(crate) fn terms_of_value(alloc: Global, value: &Value) -> Mem<TermSet>
    ensures { IfOk result (λ terms. terms ≡ ascending text_cmp (value_terms value.now)) }
{
    let tokens = tokens_of(alloc, Tokenizer::Term, value)?;
    let texts = texts_of(alloc, tokens)?;
    Ok(TermSet::of(texts))
}

/// The terms of a text.
pub(crate) fn asked_terms(alloc: Global, text: &Str) -> Mem<TermSet>
    ensures { IfOk result (λ terms. terms ≡ ascending text_cmp (terms_of text.now)) }
{
    let value = Value::Text(text.copy(alloc)?);
    terms_of_value(alloc, &value)
}

// Whether all of the asked terms are among these.
fn has_all(asked: &[Str], terms: &TermSet) -> bool
    ensures { result ≡ list_all (has text_cmp terms.now) asked.now }
{
    asked.iter().all(|term| terms.has(term))
}

// Whether one of the asked terms is among these.
fn has_any(asked: &[Str], terms: &TermSet) -> bool
    ensures { result ≡ list_any (has text_cmp terms.now) asked.now }
{
    asked.iter().any(|term| terms.has(term))
}

// Whether the terms that are asked are among these.
fn has_terms(all: bool, asked: &[Str], terms: &TermSet) -> bool
    ensures { result ≡ has_terms all asked.now terms.now }
{
    if all {
        has_all(asked, terms) && 1 <= asked.len()
    } else {
        has_any(asked, terms)
    }
}

// Whether a value is a text with the terms that are asked.
fn value_has(alloc: Global, all: bool, asked: &TermSet, value: &Value) -> Mem<bool>
    ensures { IfOk result (λ b. b ≡ of_text (has_asked all asked.now) value.now) }
{
    match value {
        Value::Text(_) => {
            let terms = terms_of_value(alloc, value)?;
            Ok(has_terms(all, asked.as_slice(), &terms))
        }
        _ => Ok(false),
    }
}

// Whether an object is a text with the terms that are asked.
fn object_has(alloc: Global, all: bool, asked: &TermSet, object: &Posting) -> Mem<bool>
    ensures { IfOk result (λ b. b ≡ in_text (has_asked all asked.now) object.now) }
{
    match object {
        Posting::Val(value) => value_has(alloc, all, asked, value),
        Posting::Uid(_) => Ok(false),
    }
}

// Whether some object is one.
fn any_has(alloc: Global, all: bool, asked: &TermSet, objects: &[Posting]) -> Mem<bool>
    ensures { IfOk result (λ b. b ≡ list_any (in_text (has_asked all asked.now)) objects.now) }
{
    for object in objects {
        if object_has(alloc, all, asked, object)? {
            return Ok(true);
        }
    }
    Ok(false)
}

/// Whether a node has a text with the terms that are asked. It reads one list.
pub(crate) fn node_has<S: Snapshot, L: Ledger>(
    alloc: Global,
    snap: &S,
    all: bool,
    p: &str,
    asked: &TermSet,
    node: u64,
    reads: &mut Steps<L>,
) -> Mem<bool>
    ensures { IfOk result (λ b. b ≡ list_any (has_asked all asked.now) (texts_at (S.graph snap.now) p.now node)) }
{
    let objects = snap.objects(alloc, p, node, reads)?;
    any_has(alloc, all, asked, objects.as_slice())
}
