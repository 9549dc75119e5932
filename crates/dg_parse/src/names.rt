// Predicates, variables and numbers, read from tokens.
ghost use Rattle.std.specs.Prelude.{◌≡◌, drop, false};
ghost use Rattle.dg_text.specs.Cases.{Gives, left_of, optional};
ghost use Rattle.dg_text.specs.Marks.{tilde};
ghost use Rattle.dg_text.specs.Reading.{next};
ghost use Rattle.dg_text.specs.Tokens.{toks, is_punct};
ghost use Rattle.dg_parse.specs.Names as spec;

use crate::QEdge;
use crate::tokens::number_at;
use dg_text::choices::{
    next_are_name_and_punct, next_are_name_and_word, next_is_punct, next_is_reserved_name,
    next_is_wide_int,
};
use dg_text::passed::{Passed, mark_at, owned_name_at, refuse, word_at};
use dg_text::reading::left;
use dg_text::{Piece, ReadError};
use dg_values::Str;
use std::alloc::Global;

/// An Int, which is refused where it is no number of 64 bits.
#[tactic(auto, unfolding(crate::specs::Names::int))]
pub fn int_at(tokens: &[Piece], p: Passed) -> Result<(i64, Passed), ReadError>
    ensures { Gives (λ x. x) (toks tokens.now) result (spec.int (left_of (toks tokens.now) p)) }
{
    let p = refuse(p, left(tokens, p.at), next_is_wide_int(tokens, p.at));
    number_at(tokens, p)
}

/// A Name as a predicate. One that the language keeps for itself is refused.
#[tactic(auto, unfolding(crate::specs::Names::pred))]
pub fn pred_at(alloc: Global, tokens: &[Piece], p: Passed) -> Result<(Str, Passed), ReadError>
    ensures { Gives (λ s. s) (toks tokens.now) result (spec.pred (left_of (toks tokens.now) p)) }
{
    let p = refuse(p, left(tokens, p.at), next_is_reserved_name(tokens, p.at));
    owned_name_at(alloc, tokens, p)
}

// `~`, where it comes next.
#[tactic(auto, unfolding(crate::specs::Names::backwards))]
fn back_at(tokens: &[Piece], p: Passed) -> Result<(bool, Passed), ReadError>
    ensures { Gives (λ b. b) (toks tokens.now) result (optional (next (is_punct tilde)) spec.backwards false (left_of (toks tokens.now) p)) }
{
    if next_is_punct(tokens, p.at, b'~') {
        let (_, p) = mark_at(tokens, p, b'~')?;
        Ok((true, p))
    } else {
        Ok((false, p))
    }
}

/// A predicate, with `~` or not.
#[tactic(auto, unfolding(crate::specs::Names::edge))]
pub fn edge_at(alloc: Global, tokens: &[Piece], p: Passed) -> Result<(QEdge, Passed), ReadError>
    ensures { Gives (λ e. e) (toks tokens.now) result (spec.edge (left_of (toks tokens.now) p)) }
{
    let (back, p) = back_at(tokens, p)?;
    let (pred, p) = pred_at(alloc, tokens, p)?;
    Ok((QEdge { back, pred }, p))
}

/// A name in brackets.
#[tactic(auto, unfolding(crate::specs::Names::in_round_name))]
pub fn round_name_at(alloc: Global, tokens: &[Piece], p: Passed) -> Result<(Str, Passed), ReadError>
    ensures { Gives (λ s. s) (toks tokens.now) result (spec.in_round_name (left_of (toks tokens.now) p)) }
{
    let (_, p) = mark_at(tokens, p, b'(')?;
    let (x, p) = owned_name_at(alloc, tokens, p)?;
    let (_, p) = mark_at(tokens, p, b')')?;
    Ok((x, p))
}

/// `val` of a variable.
#[tactic(auto, unfolding(crate::specs::Names::val))]
pub fn val_at(alloc: Global, tokens: &[Piece], p: Passed) -> Result<(Str, Passed), ReadError>
    ensures { Gives (λ s. s) (toks tokens.now) result (spec.val (left_of (toks tokens.now) p)) }
{
    let (_, p) = word_at(tokens, p, "val")?;
    round_name_at(alloc, tokens, p)
}

// A variable that is defined, and the place of its `as`.
#[tactic(auto, unfolding(crate::specs::Names::variable))]
fn variable_at(
    alloc: Global,
    tokens: &[Piece],
    p: Passed,
) -> Result<((Option<Str>, usize), Passed), ReadError>
    ensures { Gives (λ x. x) (toks tokens.now) result (spec.variable (left_of (toks tokens.now) p)) }
{
    let (x, p) = owned_name_at(alloc, tokens, p)?;
    let place = left(tokens, p.at);
    let (_, p) = word_at(tokens, p, "as")?;
    Ok(((Some(x), place), p))
}

/// A variable that is defined, where one is.
#[tactic(auto, unfolding(crate::specs::Names::any_variable))]
pub fn any_variable_at(
    alloc: Global,
    tokens: &[Piece],
    p: Passed,
) -> Result<((Option<Str>, usize), Passed), ReadError>
    ensures { Gives (λ x. x) (toks tokens.now) result (spec.any_variable (left_of (toks tokens.now) p)) }
{
    if next_are_name_and_word(tokens, p.at, "as") {
        variable_at(alloc, tokens, p)
    } else {
        Ok(((None, 0), p))
    }
}

// A key that is named.
#[tactic(auto, unfolding(crate::specs::Names::alias))]
fn alias_at(alloc: Global, tokens: &[Piece], p: Passed) -> Result<(Option<Str>, Passed), ReadError>
    ensures { Gives (λ x. x) (toks tokens.now) result (spec.alias (left_of (toks tokens.now) p)) }
{
    let (key, p) = owned_name_at(alloc, tokens, p)?;
    let (_, p) = mark_at(tokens, p, b':')?;
    Ok((Some(key), p))
}

/// A key that is named, where one is.
#[tactic(auto, unfolding(crate::specs::Names::any_alias))]
pub fn any_alias_at(
    alloc: Global,
    tokens: &[Piece],
    p: Passed,
) -> Result<(Option<Str>, Passed), ReadError>
    ensures { Gives (λ x. x) (toks tokens.now) result (spec.any_alias (left_of (toks tokens.now) p)) }
{
    if next_are_name_and_punct(tokens, p.at, b':') {
        alias_at(alloc, tokens, p)
    } else {
        Ok((None, p))
    }
}
