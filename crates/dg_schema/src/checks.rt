// Which statements are allowed, and what they declare.
ghost use Rattle.std.specs.Prelude.{◌≡◌, ◌≤◌, drop, length, IfOk, IfErr};
ghost use Rattle.std.specs.List.{list_all};
ghost use Rattle.dg_text.specs.declared.reading.ReadError.TheVariants.{OutOfMemory};
ghost use Rattle.dg_schema.specs.Words.{fits_kind};
ghost use Rattle.dg_schema.specs.Grammar.{same_tokenizer, is_in, distinct, is_indexable, is_allowed, index_of, define};

use crate::PredDef;
use crate::draft::Draft;
use crate::statement::{Marks, Statement};
use crate::words::{default_of, fits, is_uid_kind};
use dg_text::ReadError;
use dg_text::words::is_reserved;
use dg_values::{Kind, List, Tokenizer};

// Whether two tokenizers are one.
fn is_same(a: Tokenizer, b: Tokenizer) -> bool
    ensures { result ≡ same_tokenizer a b }
{
    a as u8 == b as u8
}

// Whether the tokenizer stands at the place or behind it.
fn is_in_rest(tokenizer: Tokenizer, listed: &[Tokenizer], start: usize) -> bool
    requires { start ≤ length listed.now }
    ensures { result ≡ is_in tokenizer (drop start listed.now) }
{
    for i in start..listed.len() {
        if is_same(tokenizer, listed[i]) {
            return true;
        }
    }
    false
}

// Whether no tokenizer stands twice.
#[tactic(auto, using(crate::proofs::Lists::distinct_yes, crate::proofs::Lists::distinct_no, crate::proofs::Lists::distinct_end))]
fn are_distinct(listed: &[Tokenizer]) -> bool
    ensures { result ≡ distinct listed.now }
{
    for i in 0..listed.len() {
        if is_in_rest(listed[i], listed, i + 1) {
            return false;
        }
    }
    true
}

// Whether all tokenizers are of the kind.
fn all_fit(kind: Kind, listed: &[Tokenizer]) -> bool
    ensures { result ≡ list_all (fits_kind kind) listed.now }
{
    for tokenizer in listed {
        if !fits(kind, *tokenizer) {
            return false;
        }
    }
    true
}

// Whether an index with this list may be on the kind.
fn may_be_indexed(kind: Kind, listed: &[Tokenizer]) -> bool
    ensures { result ≡ is_indexable kind listed.now }
{
    if listed.is_empty() {
        default_of(kind).is_some()
    } else {
        all_fit(kind, listed) && are_distinct(listed)
    }
}

/// Whether the statement may follow these definitions.
pub fn may_follow(earlier: &Draft, statement: &Statement) -> bool
    ensures { result ≡ is_allowed earlier.now statement.now }
{
    let marks = &statement.marks;
    let kind = statement.shape.kind;
    !is_reserved(statement.name.as_str())
        && !earlier.declares(&statement.name)
        && !marks.twice
        && (!marks.indexed || may_be_indexed(kind, marks.tokens.as_slice()))
        && (!marks.reverse || is_uid_kind(kind))
        && (!marks.upsert || marks.indexed)
}

// The tokenizers of an index: those that are listed, else the one of the kind.
fn index_tokens(
    kind: Kind,
    indexed: bool,
    mut listed: List<Tokenizer>,
) -> Result<List<Tokenizer>, ReadError>
    ensures made { IfOk result (λ tokens. tokens ≡ index_of kind indexed listed) }
    ensures memory { IfErr result (λ e. e ≡ OutOfMemory) }
{
    if indexed && listed.is_empty() {
        if let Some(tokenizer) = default_of(kind) {
            listed.push(tokenizer)?;
        }
    }
    Ok(listed)
}

/// The definition that a statement makes.
pub fn definition_of(statement: Statement) -> Result<PredDef, ReadError>
    ensures made { IfOk result (λ definition. definition ≡ define statement) }
    ensures memory { IfErr result (λ e. e ≡ OutOfMemory) }
{
    let Statement {
        place: _,
        name,
        shape,
        marks,
    } = statement;
    let Marks {
        indexed,
        tokens: listed,
        reverse,
        count,
        upsert,
        twice: _,
    } = marks;
    let tokens = index_tokens(shape.kind, indexed, listed)?;
    Ok(PredDef {
        name,
        kind: shape.kind,
        list: shape.list,
        tokens,
        reverse,
        count,
        upsert,
    })
}
