// Filters, read from tokens.
ghost use Rattle.std.specs.Prelude.{◌≡◌, ◌≤◌, ◌<◌, ◌+◌, ◌*◌, ◌^◌, drop, [], ◌∷◌, IfOk, IfErr, codes};
ghost use Rattle.dg_text.specs.declared.reading.ReadError.TheVariants as errors;
ghost use Rattle.dg_text.specs.Cases.{Gives, left_of, repeated};
ghost use Rattle.dg_text.specs.Reading.{next};
ghost use Rattle.dg_text.specs.Tokens.{toks, is_word_any_case};
ghost use Rattle.dg_parse.specs.Filters as spec;
ghost use Rattle.dg_parse.specs.Sizes.{AreFew};

use crate::functions::func_at;
use crate::{QFilter, QPart};
use dg_text::choices::{next_is_punct, next_is_word_any_case};
use dg_text::passed::{Passed, mark_at, stopped, word_any_case_at};
use dg_text::reading::left;
use dg_text::{Piece, ReadError};
use dg_values::List;
use std::alloc::Global;

/// How many `not` come next, and the place behind them.
#[tactic(auto, using(dg_text::proofs::Turns::goes_on, dg_text::proofs::Turns::ends, dg_text::proofs::Turns::stops, dg_text::proofs::Turns::is_done), unfolding(crate::specs::Filters::one_not))]
pub fn nots_at(tokens: &[Piece], start: Passed) -> Result<(usize, Passed), ReadError>
    requires { AreFew (toks tokens.now) }
    ensures gives { Gives (λ n. n) (toks tokens.now) result (repeated (next (is_word_any_case (codes "not"))) spec.one_not 0 (left_of (toks tokens.now) start)) }
    ensures few { IfOk result (λ r. r.0 ≤ 1048576) }
{
    let most = left(tokens, start.at);
    let mut count: usize = 0;
    let mut p = start;
    for _ in 0..most {
        if !next_is_word_any_case(tokens, p.at, "not") {
            return Ok((count, p));
        }
        let (_, after) = word_any_case_at(tokens, p, "not")?;
        count += 1;
        p = after;
    }
    Ok((count, p))
}

// A filter after so many `not`.
fn negate(nots: usize, filter: QFilter) -> QFilter
    requires { nots + filter.nots < 2 ^ 64 }
    ensures { result ≡ spec.negated nots filter }
{
    QFilter {
        nots: nots + filter.nots,
        part: filter.part,
    }
}

// A function as a filter.
#[tactic(auto, unfolding(crate::specs::Filters::func_alone))]
fn func_filter(alloc: Global, tokens: &[Piece], p: Passed) -> Result<(QFilter, Passed), ReadError>
    requires { AreFew (toks tokens.now) }
    ensures gives { Gives (λ f. f) (toks tokens.now) result (spec.func_alone (left_of (toks tokens.now) p)) }
    ensures few { IfOk result (λ r. r.0.nots ≤ 0) }
{
    let (func, p) = func_at(alloc, false, tokens, p)?;
    Ok((
        QFilter {
            nots: 0,
            part: QPart::Func(func),
        },
        p,
    ))
}

#[tactic(auto, unfolding(crate::specs::Filters::bracketed))]
#[cycle(filter)]
fn bracketed_at(
    alloc: Global,
    depth: u32,
    tokens: &[Piece],
    p: Passed,
) -> Result<(QFilter, Passed), ReadError>
    requires { AreFew (toks tokens.now) }
    ensures gives { Gives (λ f. f) (toks tokens.now) result (spec.bracketed (spec.filter depth) (left_of (toks tokens.now) p)) }
    ensures few { IfOk result (λ r. r.0.nots ≤ 1048576 * depth) }
{
    let (_, p) = mark_at(tokens, p, b'(')?;
    let (f, p) = filter_at(alloc, depth, tokens, p)?;
    let (_, p) = mark_at(tokens, p, b')')?;
    Ok((f, p))
}

#[tactic(auto, unfolding(crate::specs::Filters::atom))]
#[cycle(filter)]
fn atom_at(
    alloc: Global,
    depth: u32,
    tokens: &[Piece],
    p: Passed,
) -> Result<(QFilter, Passed), ReadError>
    requires { AreFew (toks tokens.now) }
    ensures gives { Gives (λ f. f) (toks tokens.now) result (spec.atom (spec.filter depth) (left_of (toks tokens.now) p)) }
    ensures few { IfOk result (λ r. r.0.nots ≤ 1048576 * depth) }
{
    if next_is_punct(tokens, p.at, b'(') {
        bracketed_at(alloc, depth, tokens, p)
    } else {
        func_filter(alloc, tokens, p)
    }
}

#[tactic(auto, unfolding(crate::specs::Filters::not_of))]
#[cycle(filter)]
fn not_at(
    alloc: Global,
    depth: u32,
    tokens: &[Piece],
    p: Passed,
) -> Result<(QFilter, Passed), ReadError>
    requires { AreFew (toks tokens.now) }
    ensures gives { Gives (λ f. f) (toks tokens.now) result (spec.not_of (spec.filter depth) (left_of (toks tokens.now) p)) }
    ensures few { IfOk result (λ r. r.0.nots ≤ 1048576 * depth + 1048576) }
{
    let (nots, p) = nots_at(tokens, p)?;
    let (f, p) = atom_at(alloc, depth, tokens, p)?;
    Ok((negate(nots, f), p))
}

#[tactic(auto, unfolding(crate::specs::Filters::and_more))]
#[cycle(filter)]
fn and_more_at(
    alloc: Global,
    depth: u32,
    mut before: List<QFilter>,
    tokens: &[Piece],
    p: Passed,
) -> Result<(List<QFilter>, Passed), ReadError>
    requires { AreFew (toks tokens.now) }
    ensures { Gives (λ all. all) (toks tokens.now) result (spec.and_more (spec.filter depth) before (left_of (toks tokens.now) p)) }
{
    let (_, p) = word_any_case_at(tokens, p, "and")?;
    let (f, p) = not_at(alloc, depth, tokens, p)?;
    before.push(f)?;
    Ok((before, p))
}

#[tactic(auto, using(dg_text::proofs::Turns::goes_on, dg_text::proofs::Turns::ends, dg_text::proofs::Turns::stops, dg_text::proofs::Turns::is_done))]
#[cycle(filter)]
fn ands_from(
    alloc: Global,
    depth: u32,
    before: List<QFilter>,
    tokens: &[Piece],
    start: Passed,
) -> Result<(List<QFilter>, Passed), ReadError>
    requires { AreFew (toks tokens.now) }
    ensures { Gives (λ all. all) (toks tokens.now) result (repeated (next (is_word_any_case (codes "and"))) (spec.and_more (spec.filter depth)) before (left_of (toks tokens.now) start)) }
{
    let most = left(tokens, start.at);
    let mut all = before;
    let mut p = start;
    for _ in 0..most {
        if !next_is_word_any_case(tokens, p.at, "and") {
            return Ok((all, p));
        }
        let (more, after) = and_more_at(alloc, depth, all, tokens, p)?;
        all = more;
        p = after;
    }
    Ok((all, p))
}

#[tactic(auto, unfolding(crate::specs::Filters::and_rest))]
#[cycle(filter)]
fn and_rest_at(
    alloc: Global,
    depth: u32,
    first: QFilter,
    tokens: &[Piece],
    p: Passed,
) -> Result<(QFilter, Passed), ReadError>
    requires { AreFew (toks tokens.now) }
    ensures gives { Gives (λ f. f) (toks tokens.now) result (spec.and_rest (spec.filter depth) first (left_of (toks tokens.now) p)) }
    ensures few { IfOk result (λ r. r.0.nots ≤ 1048576 * depth + 1048576) }
{
    let one = one_filter(alloc, first)?;
    let (all, p) = ands_from(alloc, depth, one, tokens, p)?;
    Ok((
        QFilter {
            nots: 0,
            part: QPart::And(all),
        },
        p,
    ))
}

#[tactic(auto, unfolding(crate::specs::Filters::and_of))]
#[cycle(filter)]
fn and_at(
    alloc: Global,
    depth: u32,
    tokens: &[Piece],
    p: Passed,
) -> Result<(QFilter, Passed), ReadError>
    requires { AreFew (toks tokens.now) }
    ensures gives { Gives (λ f. f) (toks tokens.now) result (spec.and_of (spec.filter depth) (left_of (toks tokens.now) p)) }
    ensures few { IfOk result (λ r. r.0.nots ≤ 1048576 * depth + 1048576) }
{
    let (first, p) = not_at(alloc, depth, tokens, p)?;
    if next_is_word_any_case(tokens, p.at, "and") {
        and_rest_at(alloc, depth, first, tokens, p)
    } else {
        Ok((first, p))
    }
}

#[tactic(auto, unfolding(crate::specs::Filters::or_more))]
#[cycle(filter)]
fn or_more_at(
    alloc: Global,
    depth: u32,
    mut before: List<QFilter>,
    tokens: &[Piece],
    p: Passed,
) -> Result<(List<QFilter>, Passed), ReadError>
    requires { AreFew (toks tokens.now) }
    ensures { Gives (λ all. all) (toks tokens.now) result (spec.or_more (spec.filter depth) before (left_of (toks tokens.now) p)) }
{
    let (_, p) = word_any_case_at(tokens, p, "or")?;
    let (f, p) = and_at(alloc, depth, tokens, p)?;
    before.push(f)?;
    Ok((before, p))
}

#[tactic(auto, using(dg_text::proofs::Turns::goes_on, dg_text::proofs::Turns::ends, dg_text::proofs::Turns::stops, dg_text::proofs::Turns::is_done))]
#[cycle(filter)]
fn ors_from(
    alloc: Global,
    depth: u32,
    before: List<QFilter>,
    tokens: &[Piece],
    start: Passed,
) -> Result<(List<QFilter>, Passed), ReadError>
    requires { AreFew (toks tokens.now) }
    ensures { Gives (λ all. all) (toks tokens.now) result (repeated (next (is_word_any_case (codes "or"))) (spec.or_more (spec.filter depth)) before (left_of (toks tokens.now) start)) }
{
    let most = left(tokens, start.at);
    let mut all = before;
    let mut p = start;
    for _ in 0..most {
        if !next_is_word_any_case(tokens, p.at, "or") {
            return Ok((all, p));
        }
        let (more, after) = or_more_at(alloc, depth, all, tokens, p)?;
        all = more;
        p = after;
    }
    Ok((all, p))
}

#[tactic(auto, unfolding(crate::specs::Filters::or_rest))]
#[cycle(filter)]
fn or_rest_at(
    alloc: Global,
    depth: u32,
    first: QFilter,
    tokens: &[Piece],
    p: Passed,
) -> Result<(QFilter, Passed), ReadError>
    requires { AreFew (toks tokens.now) }
    ensures gives { Gives (λ f. f) (toks tokens.now) result (spec.or_rest (spec.filter depth) first (left_of (toks tokens.now) p)) }
    ensures few { IfOk result (λ r. r.0.nots ≤ 1048576 * depth + 1048576) }
{
    let one = one_filter(alloc, first)?;
    let (all, p) = ors_from(alloc, depth, one, tokens, p)?;
    Ok((
        QFilter {
            nots: 0,
            part: QPart::Or(all),
        },
        p,
    ))
}

#[tactic(auto, unfolding(crate::specs::Filters::or_of))]
#[cycle(filter)]
fn or_at(
    alloc: Global,
    depth: u32,
    tokens: &[Piece],
    p: Passed,
) -> Result<(QFilter, Passed), ReadError>
    requires { AreFew (toks tokens.now) }
    ensures gives { Gives (λ f. f) (toks tokens.now) result (spec.or_of (spec.filter depth) (left_of (toks tokens.now) p)) }
    ensures few { IfOk result (λ r. r.0.nots ≤ 1048576 * depth + 1048576) }
{
    let (first, p) = and_at(alloc, depth, tokens, p)?;
    if next_is_word_any_case(tokens, p.at, "or") {
        or_rest_at(alloc, depth, first, tokens, p)
    } else {
        Ok((first, p))
    }
}

/// A filter with brackets at most so deep.
#[tactic(auto, unfolding(crate::specs::Filters::filter))]
#[cycle(filter)]
pub fn filter_at(
    alloc: Global,
    depth: u32,
    tokens: &[Piece],
    p: Passed,
) -> Result<(QFilter, Passed), ReadError>
    requires { AreFew (toks tokens.now) }
    ensures gives { Gives (λ f. f) (toks tokens.now) result (spec.filter depth (left_of (toks tokens.now) p)) }
    ensures few { IfOk result (λ r. r.0.nots ≤ 1048576 * depth) }
{
    if depth == 0 {
        return Err(stopped(tokens, p));
    }
    or_at(alloc, depth - 1, tokens, p)
}

// A list of one filter.
fn one_filter(alloc: Global, first: QFilter) -> Result<List<QFilter>, ReadError>
    ensures made { IfOk result (λ all. all ≡ first ∷ []) }
    ensures memory { IfErr result (λ e. e ≡ errors.OutOfMemory) }
{
    let mut all = List::new(alloc);
    all.push(first)?;
    Ok(all)
}
