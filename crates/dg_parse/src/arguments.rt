// Arguments, read from tokens.
ghost use Rattle.std.specs.Prelude.{◌≡◌, drop, []};
ghost use Rattle.dg_text.specs.Cases.{Gives, left_of, optional};
ghost use Rattle.dg_text.specs.Marks.{open_round};
ghost use Rattle.dg_text.specs.Reading.{next};
ghost use Rattle.dg_text.specs.Tokens.{toks, is_punct};
ghost use Rattle.dg_parse.specs.declared.query.QArg.TheVariants as args;
ghost use Rattle.dg_parse.specs.Arguments as spec;

use crate::names::{int_at, pred_at, val_at};
use crate::tokens::{argument_at, uid_at};
use crate::words::{ArgWord, argument_of};
use crate::{QArg, QOrder};
use dg_text::choices::{next_is_punct, next_is_word};
use dg_text::passed::{Passed, mark_at};
use dg_text::reading::{left, peek};
use dg_text::{Piece, ReadError};
use dg_values::List;
use std::alloc::Global;

// What a list is ordered by.
#[tactic(auto, unfolding(crate::specs::Arguments::order, crate::specs::Arguments::val_order, crate::specs::Arguments::pred_order))]
fn order_at(alloc: Global, tokens: &[Piece], p: Passed) -> Result<(QOrder, Passed), ReadError>
    ensures { Gives (λ x. x) (toks tokens.now) result (spec.order (left_of (toks tokens.now) p)) }
{
    if next_is_word(tokens, p.at, "val") {
        let (x, p) = val_at(alloc, tokens, p)?;
        Ok((QOrder::Val(x), p))
    } else {
        let (pred, p) = pred_at(alloc, tokens, p)?;
        Ok((QOrder::Pred(pred), p))
    }
}

// The value of `first`.
#[tactic(auto, unfolding(crate::specs::Arguments::int_arg))]
fn first_at(tokens: &[Piece], p: Passed) -> Result<(QArg, Passed), ReadError>
    ensures { Gives (λ x. x) (toks tokens.now) result (spec.int_arg args.First (left_of (toks tokens.now) p)) }
{
    let (n, p) = int_at(tokens, p)?;
    Ok((QArg::First(n), p))
}

// The value of `offset`.
#[tactic(auto, unfolding(crate::specs::Arguments::int_arg))]
fn offset_at(tokens: &[Piece], p: Passed) -> Result<(QArg, Passed), ReadError>
    ensures { Gives (λ x. x) (toks tokens.now) result (spec.int_arg args.Offset (left_of (toks tokens.now) p)) }
{
    let (n, p) = int_at(tokens, p)?;
    Ok((QArg::Offset(n), p))
}

// The value of `after`.
#[tactic(auto, unfolding(crate::specs::Arguments::node_arg))]
fn after_at(tokens: &[Piece], p: Passed) -> Result<(QArg, Passed), ReadError>
    ensures { Gives (λ x. x) (toks tokens.now) result (spec.node_arg (left_of (toks tokens.now) p)) }
{
    let (u, p) = uid_at(tokens, p)?;
    Ok((QArg::After(u), p))
}

// The value of `orderasc`.
#[tactic(auto, unfolding(crate::specs::Arguments::order_arg))]
fn asc_at(alloc: Global, tokens: &[Piece], p: Passed) -> Result<(QArg, Passed), ReadError>
    ensures { Gives (λ x. x) (toks tokens.now) result (spec.order_arg args.Asc (left_of (toks tokens.now) p)) }
{
    let (order, p) = order_at(alloc, tokens, p)?;
    Ok((QArg::Asc(order), p))
}

// The value of `orderdesc`.
#[tactic(auto, unfolding(crate::specs::Arguments::order_arg))]
fn desc_at(alloc: Global, tokens: &[Piece], p: Passed) -> Result<(QArg, Passed), ReadError>
    ensures { Gives (λ x. x) (toks tokens.now) result (spec.order_arg args.Desc (left_of (toks tokens.now) p)) }
{
    let (order, p) = order_at(alloc, tokens, p)?;
    Ok((QArg::Desc(order), p))
}

// What stands behind the word of an argument and its colon.
#[tactic(auto, unfolding(crate::specs::Arguments::value_of))]
fn value_at(
    alloc: Global,
    word: ArgWord,
    tokens: &[Piece],
    p: Passed,
) -> Result<(QArg, Passed), ReadError>
    ensures { Gives (λ x. x) (toks tokens.now) result (spec.value_of word (left_of (toks tokens.now) p)) }
{
    match word {
        ArgWord::First => first_at(tokens, p),
        ArgWord::Offset => offset_at(tokens, p),
        ArgWord::After => after_at(tokens, p),
        ArgWord::Asc => asc_at(alloc, tokens, p),
        ArgWord::Desc => desc_at(alloc, tokens, p),
    }
}

// An argument.
#[tactic(auto, unfolding(crate::specs::Arguments::arg))]
fn arg_at(alloc: Global, tokens: &[Piece], p: Passed) -> Result<(QArg, Passed), ReadError>
    ensures { Gives (λ x. x) (toks tokens.now) result (spec.arg (left_of (toks tokens.now) p)) }
{
    let (word, p) = argument_at(tokens, p)?;
    let (_, p) = mark_at(tokens, p, b':')?;
    value_at(alloc, word, tokens, p)
}

// The arguments before with the one behind a comma.
#[tactic(auto, unfolding(crate::specs::Arguments::comma_arg))]
fn comma_arg_at(
    alloc: Global,
    mut before: List<QArg>,
    tokens: &[Piece],
    p: Passed,
) -> Result<(List<QArg>, Passed), ReadError>
    ensures { Gives (λ x. x) (toks tokens.now) result (spec.comma_arg before (left_of (toks tokens.now) p)) }
{
    let (_, p) = mark_at(tokens, p, b',')?;
    let (arg, p) = arg_at(alloc, tokens, p)?;
    before.push(arg)?;
    Ok((before, p))
}

/// The arguments before with those behind commas.
#[tactic(auto, using(dg_text::proofs::Turns::goes_on, dg_text::proofs::Turns::ends, dg_text::proofs::Turns::stops, dg_text::proofs::Turns::is_done))]
pub fn more_args_at(
    alloc: Global,
    before: List<QArg>,
    tokens: &[Piece],
    start: Passed,
) -> Result<(List<QArg>, Passed), ReadError>
    ensures { Gives (λ x. x) (toks tokens.now) result (spec.more_args before (left_of (toks tokens.now) start)) }
{
    let most = left(tokens, start.at);
    let mut all = before;
    let mut p = start;
    for _ in 0..most {
        if !next_is_punct(tokens, p.at, b',') {
            return Ok((all, p));
        }
        let (more, after) = comma_arg_at(alloc, all, tokens, p)?;
        all = more;
        p = after;
    }
    Ok((all, p))
}

// Whether an argument begins at the place.
fn arg_begins(tokens: &[Piece], at: usize) -> bool
    ensures { result ≡ spec.begins_arg (drop at (toks tokens.now)) }
{
    peek(tokens, at).is_some_and(|t| argument_of(t).is_some())
}

// One argument or more.
#[tactic(auto, unfolding(crate::specs::Arguments::some_args))]
fn some_args_at(
    alloc: Global,
    tokens: &[Piece],
    p: Passed,
) -> Result<(List<QArg>, Passed), ReadError>
    ensures { Gives (λ x. x) (toks tokens.now) result (spec.some_args (left_of (toks tokens.now) p)) }
{
    let (arg, p) = arg_at(alloc, tokens, p)?;
    let mut all = List::new(alloc);
    all.push(arg)?;
    more_args_at(alloc, all, tokens, p)
}

// Arguments, or none.
fn listed_args_at(
    alloc: Global,
    tokens: &[Piece],
    p: Passed,
) -> Result<(List<QArg>, Passed), ReadError>
    ensures { Gives (λ x. x) (toks tokens.now) result (optional spec.begins_arg spec.some_args [] (left_of (toks tokens.now) p)) }
{
    if arg_begins(tokens, p.at) {
        some_args_at(alloc, tokens, p)
    } else {
        Ok((List::new(alloc), p))
    }
}

// Arguments in brackets.
#[tactic(auto, unfolding(crate::specs::Arguments::bracketed_args))]
fn bracketed_args_at(
    alloc: Global,
    tokens: &[Piece],
    p: Passed,
) -> Result<(List<QArg>, Passed), ReadError>
    ensures { Gives (λ x. x) (toks tokens.now) result (spec.bracketed_args (left_of (toks tokens.now) p)) }
{
    let (_, p) = mark_at(tokens, p, b'(')?;
    let (all, p) = listed_args_at(alloc, tokens, p)?;
    let (_, p) = mark_at(tokens, p, b')')?;
    Ok((all, p))
}

/// The arguments of an edge, where brackets come next.
pub fn any_args_at(
    alloc: Global,
    tokens: &[Piece],
    p: Passed,
) -> Result<(List<QArg>, Passed), ReadError>
    ensures { Gives (λ x. x) (toks tokens.now) result (optional (next (is_punct open_round)) spec.bracketed_args [] (left_of (toks tokens.now) p)) }
{
    if next_is_punct(tokens, p.at, b'(') {
        bracketed_args_at(alloc, tokens, p)
    } else {
        Ok((List::new(alloc), p))
    }
}
