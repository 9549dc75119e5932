// Upsert blocks, read from tokens.
ghost use Rattle.std.specs.Prelude.{◌≡◌, drop, None, true, codes};
ghost use Rattle.dg_text.specs.Cases.{Gives, left_of, part, optional, repeated};
ghost use Rattle.dg_text.specs.Reading.{next, skip};
ghost use Rattle.dg_text.specs.Tokens.{tok, toks};
ghost use Rattle.dg_nquad.specs.Grammar.{groups};
ghost use Rattle.dg_parse.specs.Sizes.{AreFew};
ghost use Rattle.dg_parse.specs.Upsert as spec;

use crate::blocks::braced_blocks_at;
use crate::conditions::condition_at;
use crate::{UCond, UMut, Upsert};
use dg_nquad::grammar::groups_at;
use dg_nquad::{Mutation, Statement};
use dg_text::choices::next_is_word;
use dg_text::kinds::is_an_at;
use dg_text::passed::{Passed, lifted, mark_at, word_at};
use dg_text::reading::{left, peek, skip_at};
use dg_text::{Piece, ReadError};
use dg_values::List;
use std::alloc::Global;

fn is_an_at_word(token: &Piece, word: &str) -> bool
    ensures { result ≡ spec.is_at_word word.now (tok token.now) }
{
    is_an_at(token) && token.text == word
}

// Whether `@if` comes next.
fn if_begins(tokens: &[Piece], at: usize) -> bool
    ensures { result ≡ next (spec.is_at_word (codes "@if")) (drop at (toks tokens.now)) }
{
    peek(tokens, at).is_some_and(|t| is_an_at_word(t, "@if"))
}

// The place behind `@if`.
fn if_word_at(tokens: &[Piece], p: Passed) -> Result<((), Passed), ReadError>
    ensures { Gives (λ x. x) (toks tokens.now) result (part (skip (spec.is_at_word (codes "@if"))) (left_of (toks tokens.now) p)) }
{
    lifted(p, skip_at(tokens, p.at, |t| is_an_at_word(t, "@if")))
}

// A condition behind `@if`.
#[tactic(auto, unfolding(crate::specs::Upsert::if_part))]
fn if_part_at(
    alloc: Global,
    tokens: &[Piece],
    p: Passed,
) -> Result<(Option<UCond>, Passed), ReadError>
    requires { AreFew (toks tokens.now) }
    ensures { Gives (λ x. x) (toks tokens.now) result (spec.if_part (left_of (toks tokens.now) p)) }
{
    let (_, p) = if_word_at(tokens, p)?;
    let (_, p) = mark_at(tokens, p, b'(')?;
    let (c, p) = condition_at(alloc, 33, tokens, p)?;
    let (_, p) = mark_at(tokens, p, b')')?;
    Ok((Some(c), p))
}

// A condition, where `@if` comes next.
fn any_if_at(
    alloc: Global,
    tokens: &[Piece],
    p: Passed,
) -> Result<(Option<UCond>, Passed), ReadError>
    requires { AreFew (toks tokens.now) }
    ensures { Gives (λ x. x) (toks tokens.now) result (optional (next (spec.is_at_word (codes "@if"))) spec.if_part None (left_of (toks tokens.now) p)) }
{
    if if_begins(tokens, p.at) {
        if_part_at(alloc, tokens, p)
    } else {
        Ok((None, p))
    }
}

// The statements of a mutation.
fn statements_at(
    alloc: Global,
    tokens: &[Piece],
    p: Passed,
) -> Result<(List<Statement>, Passed), ReadError>
    requires { AreFew (toks tokens.now) }
    ensures { Gives (λ x. x) (toks tokens.now) result (part (groups true) (left_of (toks tokens.now) p)) }
{
    lifted(p, groups_at(alloc, true, tokens, p.at))
}

// The mutations before with the next one.
#[tactic(auto, unfolding(crate::specs::Upsert::mut_of))]
fn mut_at(
    alloc: Global,
    mut before: List<UMut>,
    tokens: &[Piece],
    p: Passed,
) -> Result<(List<UMut>, Passed), ReadError>
    requires { AreFew (toks tokens.now) }
    ensures { Gives (λ x. x) (toks tokens.now) result (spec.mut_of before (left_of (toks tokens.now) p)) }
{
    let (_, p) = word_at(tokens, p, "mutation")?;
    let (cond, p) = any_if_at(alloc, tokens, p)?;
    let (statements, p) = statements_at(alloc, tokens, p)?;
    before.push(UMut {
        cond,
        mutation: Mutation { statements },
    })?;
    Ok((before, p))
}

// The mutations before with all from a place on.
#[tactic(auto, using(dg_text::proofs::Turns::goes_on, dg_text::proofs::Turns::ends, dg_text::proofs::Turns::stops, dg_text::proofs::Turns::is_done))]
fn more_muts_at(
    alloc: Global,
    before: List<UMut>,
    tokens: &[Piece],
    start: Passed,
) -> Result<(List<UMut>, Passed), ReadError>
    requires { AreFew (toks tokens.now) }
    ensures { Gives (λ x. x) (toks tokens.now) result (repeated spec.begins_mut spec.mut_of before (left_of (toks tokens.now) start)) }
{
    let most = left(tokens, start.at);
    let mut all = before;
    let mut p = start;
    for _ in 0..most {
        if !next_is_word(tokens, p.at, "mutation") {
            return Ok((all, p));
        }
        let (more, after) = mut_at(alloc, all, tokens, p)?;
        all = more;
        p = after;
    }
    Ok((all, p))
}

// One mutation or more.
#[tactic(auto, unfolding(crate::specs::Upsert::muts))]
fn muts_at(alloc: Global, tokens: &[Piece], p: Passed) -> Result<(List<UMut>, Passed), ReadError>
    requires { AreFew (toks tokens.now) }
    ensures { Gives (λ x. x) (toks tokens.now) result (spec.muts (left_of (toks tokens.now) p)) }
{
    let (first, p) = mut_at(alloc, List::new(alloc), tokens, p)?;
    more_muts_at(alloc, first, tokens, p)
}

/// An upsert block.
#[tactic(auto, unfolding(crate::specs::Upsert::upsert))]
pub fn upsert_at(alloc: Global, tokens: &[Piece], p: Passed) -> Result<(Upsert, Passed), ReadError>
    requires { AreFew (toks tokens.now) }
    ensures { Gives (λ x. x) (toks tokens.now) result (spec.upsert (left_of (toks tokens.now) p)) }
{
    let (_, p) = word_at(tokens, p, "upsert")?;
    let (_, p) = mark_at(tokens, p, b'{')?;
    let (_, p) = word_at(tokens, p, "query")?;
    let (query, p) = braced_blocks_at(alloc, tokens, p)?;
    let (muts, p) = muts_at(alloc, tokens, p)?;
    let (_, p) = mark_at(tokens, p, b'}')?;
    Ok((Upsert { query, muts }, p))
}
