// The options of `@recurse`, read from tokens.
ghost use Rattle.std.specs.Prelude.{◌≡◌, []};
ghost use Rattle.dg_text.specs.Cases.{Gives, left_of, optional, repeated};
ghost use Rattle.dg_text.specs.Marks.{open_round, comma};
ghost use Rattle.dg_text.specs.Reading.{next};
ghost use Rattle.dg_text.specs.Tokens.{toks, is_punct};
ghost use Rattle.dg_parse.specs.Directives as spec;

use crate::QOpt;
use crate::names::int_at;
use crate::tokens::truth_at;
use dg_text::choices::{next_is_punct, next_is_word};
use dg_text::passed::{Passed, mark_at, refuse, word_at};
use dg_text::reading::left;
use dg_text::{Piece, ReadError};
use dg_values::List;
use std::alloc::Global;

// Whether the depth stands among options.
fn has_depth(options: &[QOpt]) -> bool
    ensures { result ≡ spec.has_depth options.now }
{
    options.iter().any(is_depth)
}

fn is_depth(option: &QOpt) -> bool
    ensures { result ≡ spec.is_depth option.now }
{
    matches!(option, QOpt::Depth(_))
}

// Whether the loop stands among options.
fn has_loop(options: &[QOpt]) -> bool
    ensures { result ≡ spec.has_loop options.now }
{
    options.iter().any(is_loop)
}

fn is_loop(option: &QOpt) -> bool
    ensures { result ≡ spec.is_loop option.now }
{
    matches!(option, QOpt::Again(_))
}

// The options before with the depth.
#[tactic(auto, unfolding(crate::specs::Directives::depth_option))]
fn depth_at(
    mut before: List<QOpt>,
    tokens: &[Piece],
    p: Passed,
) -> Result<(List<QOpt>, Passed), ReadError>
    ensures { Gives (λ x. x) (toks tokens.now) result (spec.depth_option before (left_of (toks tokens.now) p)) }
{
    let place = left(tokens, p.at);
    let (_, p) = word_at(tokens, p, "depth")?;
    let p = refuse(p, place, has_depth(before.as_slice()));
    let (_, p) = mark_at(tokens, p, b':')?;
    let (n, p) = int_at(tokens, p)?;
    before.push(QOpt::Depth(n))?;
    Ok((before, p))
}

// The options before with the loop.
#[tactic(auto, unfolding(crate::specs::Directives::loop_option))]
fn loop_at(
    mut before: List<QOpt>,
    tokens: &[Piece],
    p: Passed,
) -> Result<(List<QOpt>, Passed), ReadError>
    ensures { Gives (λ x. x) (toks tokens.now) result (spec.loop_option before (left_of (toks tokens.now) p)) }
{
    let place = left(tokens, p.at);
    let (_, p) = word_at(tokens, p, "loop")?;
    let p = refuse(p, place, has_loop(before.as_slice()));
    let (_, p) = mark_at(tokens, p, b':')?;
    let (again, p) = truth_at(tokens, p)?;
    before.push(QOpt::Again(again))?;
    Ok((before, p))
}

// The options before with the next one.
#[tactic(auto, unfolding(crate::specs::Directives::ropt))]
fn option_at(
    before: List<QOpt>,
    tokens: &[Piece],
    p: Passed,
) -> Result<(List<QOpt>, Passed), ReadError>
    ensures { Gives (λ x. x) (toks tokens.now) result (spec.ropt before (left_of (toks tokens.now) p)) }
{
    if next_is_word(tokens, p.at, "depth") {
        depth_at(before, tokens, p)
    } else {
        loop_at(before, tokens, p)
    }
}

// The options before with the one behind a comma.
#[tactic(auto, unfolding(crate::specs::Directives::comma_ropt))]
fn comma_option_at(
    before: List<QOpt>,
    tokens: &[Piece],
    p: Passed,
) -> Result<(List<QOpt>, Passed), ReadError>
    ensures { Gives (λ x. x) (toks tokens.now) result (spec.comma_ropt before (left_of (toks tokens.now) p)) }
{
    let (_, p) = mark_at(tokens, p, b',')?;
    option_at(before, tokens, p)
}

// The options before with those behind commas.
#[tactic(auto, using(dg_text::proofs::Turns::goes_on, dg_text::proofs::Turns::ends, dg_text::proofs::Turns::stops, dg_text::proofs::Turns::is_done))]
fn more_options_at(
    before: List<QOpt>,
    tokens: &[Piece],
    start: Passed,
) -> Result<(List<QOpt>, Passed), ReadError>
    ensures { Gives (λ x. x) (toks tokens.now) result (repeated (next (is_punct comma)) spec.comma_ropt before (left_of (toks tokens.now) start)) }
{
    let most = left(tokens, start.at);
    let mut all = before;
    let mut p = start;
    for _ in 0..most {
        if !next_is_punct(tokens, p.at, b',') {
            return Ok((all, p));
        }
        let (more, after) = comma_option_at(all, tokens, p)?;
        all = more;
        p = after;
    }
    Ok((all, p))
}

// The options in brackets.
#[tactic(auto, unfolding(crate::specs::Directives::ropts))]
fn options_at(alloc: Global, tokens: &[Piece], p: Passed) -> Result<(List<QOpt>, Passed), ReadError>
    ensures { Gives (λ x. x) (toks tokens.now) result (spec.ropts (left_of (toks tokens.now) p)) }
{
    let (_, p) = mark_at(tokens, p, b'(')?;
    let (first, p) = option_at(List::new(alloc), tokens, p)?;
    let (all, p) = more_options_at(first, tokens, p)?;
    let (_, p) = mark_at(tokens, p, b')')?;
    Ok((all, p))
}

/// The options, where brackets come next.
pub fn any_options_at(
    alloc: Global,
    tokens: &[Piece],
    p: Passed,
) -> Result<(List<QOpt>, Passed), ReadError>
    ensures { Gives (λ x. x) (toks tokens.now) result (optional (next (is_punct open_round)) spec.ropts [] (left_of (toks tokens.now) p)) }
{
    if next_is_punct(tokens, p.at, b'(') {
        options_at(alloc, tokens, p)
    } else {
        Ok((List::new(alloc), p))
    }
}
