// Conditions, read from tokens.
ghost use Rattle.std.specs.Prelude.{◌≡◌, ◌≤◌, ◌<◌, ◌+◌, ◌*◌, ◌^◌, drop, [], ◌∷◌, IfOk, IfErr, codes};
ghost use Rattle.dg_text.specs.declared.reading.ReadError.TheVariants as errors;
ghost use Rattle.dg_text.specs.Cases.{Gives, left_of, repeated};
ghost use Rattle.dg_text.specs.Reading.{next};
ghost use Rattle.dg_text.specs.Tokens.{toks, is_word_any_case};
ghost use Rattle.dg_parse.specs.Conditions as spec;
ghost use Rattle.dg_parse.specs.Sizes.{AreFew};

use crate::filters::nots_at;
use crate::names::{int_at, round_name_at};
use crate::tokens::comparison_word_at;
use crate::{UCond, UPart};
use dg_text::choices::{next_is_punct, next_is_word_any_case};
use dg_text::passed::{Passed, mark_at, stopped, word_any_case_at, word_at};
use dg_text::reading::left;
use dg_text::{Piece, ReadError};
use dg_values::List;
use std::alloc::Global;

// A condition after so many `not`.
fn negate(nots: usize, condition: UCond) -> UCond
    requires { nots + condition.nots < 2 ^ 64 }
    ensures { result ≡ spec.negated nots condition }
{
    UCond {
        nots: nots + condition.nots,
        part: condition.part,
    }
}

// A comparison of the number of a variable's nodes.
#[tactic(auto, unfolding(crate::specs::Conditions::len_alone))]
fn len_condition(alloc: Global, tokens: &[Piece], p: Passed) -> Result<(UCond, Passed), ReadError>
    ensures gives { Gives (λ f. f) (toks tokens.now) result (spec.len_alone (left_of (toks tokens.now) p)) }
    ensures few { IfOk result (λ r. r.0.nots ≤ 0) }
{
    let (op, p) = comparison_word_at(tokens, p)?;
    let (_, p) = mark_at(tokens, p, b'(')?;
    let (_, p) = word_at(tokens, p, "len")?;
    let (var, p) = round_name_at(alloc, tokens, p)?;
    let (_, p) = mark_at(tokens, p, b',')?;
    let (n, p) = int_at(tokens, p)?;
    let (_, p) = mark_at(tokens, p, b')')?;
    Ok((
        UCond {
            nots: 0,
            part: UPart::Len { op, var, n },
        },
        p,
    ))
}

#[tactic(auto, unfolding(crate::specs::Conditions::bracketed))]
#[cycle(conditions)]
fn bracketed_at(
    alloc: Global,
    depth: u32,
    tokens: &[Piece],
    p: Passed,
) -> Result<(UCond, Passed), ReadError>
    requires { AreFew (toks tokens.now) }
    ensures gives { Gives (λ f. f) (toks tokens.now) result (spec.bracketed (spec.condition depth) (left_of (toks tokens.now) p)) }
    ensures few { IfOk result (λ r. r.0.nots ≤ 1048576 * depth) }
{
    let (_, p) = mark_at(tokens, p, b'(')?;
    let (f, p) = condition_at(alloc, depth, tokens, p)?;
    let (_, p) = mark_at(tokens, p, b')')?;
    Ok((f, p))
}

#[tactic(auto, unfolding(crate::specs::Conditions::atom))]
#[cycle(conditions)]
fn atom_at(
    alloc: Global,
    depth: u32,
    tokens: &[Piece],
    p: Passed,
) -> Result<(UCond, Passed), ReadError>
    requires { AreFew (toks tokens.now) }
    ensures gives { Gives (λ f. f) (toks tokens.now) result (spec.atom (spec.condition depth) (left_of (toks tokens.now) p)) }
    ensures few { IfOk result (λ r. r.0.nots ≤ 1048576 * depth) }
{
    if next_is_punct(tokens, p.at, b'(') {
        bracketed_at(alloc, depth, tokens, p)
    } else {
        len_condition(alloc, tokens, p)
    }
}

#[tactic(auto, unfolding(crate::specs::Conditions::not_of))]
#[cycle(conditions)]
fn not_at(
    alloc: Global,
    depth: u32,
    tokens: &[Piece],
    p: Passed,
) -> Result<(UCond, Passed), ReadError>
    requires { AreFew (toks tokens.now) }
    ensures gives { Gives (λ f. f) (toks tokens.now) result (spec.not_of (spec.condition depth) (left_of (toks tokens.now) p)) }
    ensures few { IfOk result (λ r. r.0.nots ≤ 1048576 * depth + 1048576) }
{
    let (nots, p) = nots_at(tokens, p)?;
    let (f, p) = atom_at(alloc, depth, tokens, p)?;
    Ok((negate(nots, f), p))
}

#[tactic(auto, unfolding(crate::specs::Conditions::and_more))]
#[cycle(conditions)]
fn and_more_at(
    alloc: Global,
    depth: u32,
    mut before: List<UCond>,
    tokens: &[Piece],
    p: Passed,
) -> Result<(List<UCond>, Passed), ReadError>
    requires { AreFew (toks tokens.now) }
    ensures { Gives (λ all. all) (toks tokens.now) result (spec.and_more (spec.condition depth) before (left_of (toks tokens.now) p)) }
{
    let (_, p) = word_any_case_at(tokens, p, "and")?;
    let (f, p) = not_at(alloc, depth, tokens, p)?;
    before.push(f)?;
    Ok((before, p))
}

#[tactic(auto, using(dg_text::proofs::Turns::goes_on, dg_text::proofs::Turns::ends, dg_text::proofs::Turns::stops, dg_text::proofs::Turns::is_done))]
#[cycle(conditions)]
fn ands_from(
    alloc: Global,
    depth: u32,
    before: List<UCond>,
    tokens: &[Piece],
    start: Passed,
) -> Result<(List<UCond>, Passed), ReadError>
    requires { AreFew (toks tokens.now) }
    ensures { Gives (λ all. all) (toks tokens.now) result (repeated (next (is_word_any_case (codes "and"))) (spec.and_more (spec.condition depth)) before (left_of (toks tokens.now) start)) }
{
    let most = left(tokens, start.at);
    let mut all = before;
    let mut p = start;
    for _ in 0..most {
        if !next_is_word_any_case(tokens, p.at, "and") {
            return Ok((all, p));
        }
        let (more, after) = and_more_at(alloc, depth, all, tokens, p)?;
        all = more;
        p = after;
    }
    Ok((all, p))
}

#[tactic(auto, unfolding(crate::specs::Conditions::and_rest))]
#[cycle(conditions)]
fn and_rest_at(
    alloc: Global,
    depth: u32,
    first: UCond,
    tokens: &[Piece],
    p: Passed,
) -> Result<(UCond, Passed), ReadError>
    requires { AreFew (toks tokens.now) }
    ensures gives { Gives (λ f. f) (toks tokens.now) result (spec.and_rest (spec.condition depth) first (left_of (toks tokens.now) p)) }
    ensures few { IfOk result (λ r. r.0.nots ≤ 1048576 * depth + 1048576) }
{
    let one = one_condition(alloc, first)?;
    let (all, p) = ands_from(alloc, depth, one, tokens, p)?;
    Ok((
        UCond {
            nots: 0,
            part: UPart::And(all),
        },
        p,
    ))
}

#[tactic(auto, unfolding(crate::specs::Conditions::and_of))]
#[cycle(conditions)]
fn and_at(
    alloc: Global,
    depth: u32,
    tokens: &[Piece],
    p: Passed,
) -> Result<(UCond, Passed), ReadError>
    requires { AreFew (toks tokens.now) }
    ensures gives { Gives (λ f. f) (toks tokens.now) result (spec.and_of (spec.condition depth) (left_of (toks tokens.now) p)) }
    ensures few { IfOk result (λ r. r.0.nots ≤ 1048576 * depth + 1048576) }
{
    let (first, p) = not_at(alloc, depth, tokens, p)?;
    if next_is_word_any_case(tokens, p.at, "and") {
        and_rest_at(alloc, depth, first, tokens, p)
    } else {
        Ok((first, p))
    }
}

#[tactic(auto, unfolding(crate::specs::Conditions::or_more))]
#[cycle(conditions)]
fn or_more_at(
    alloc: Global,
    depth: u32,
    mut before: List<UCond>,
    tokens: &[Piece],
    p: Passed,
) -> Result<(List<UCond>, Passed), ReadError>
    requires { AreFew (toks tokens.now) }
    ensures { Gives (λ all. all) (toks tokens.now) result (spec.or_more (spec.condition depth) before (left_of (toks tokens.now) p)) }
{
    let (_, p) = word_any_case_at(tokens, p, "or")?;
    let (f, p) = and_at(alloc, depth, tokens, p)?;
    before.push(f)?;
    Ok((before, p))
}

#[tactic(auto, using(dg_text::proofs::Turns::goes_on, dg_text::proofs::Turns::ends, dg_text::proofs::Turns::stops, dg_text::proofs::Turns::is_done))]
#[cycle(conditions)]
fn ors_from(
    alloc: Global,
    depth: u32,
    before: List<UCond>,
    tokens: &[Piece],
    start: Passed,
) -> Result<(List<UCond>, Passed), ReadError>
    requires { AreFew (toks tokens.now) }
    ensures { Gives (λ all. all) (toks tokens.now) result (repeated (next (is_word_any_case (codes "or"))) (spec.or_more (spec.condition depth)) before (left_of (toks tokens.now) start)) }
{
    let most = left(tokens, start.at);
    let mut all = before;
    let mut p = start;
    for _ in 0..most {
        if !next_is_word_any_case(tokens, p.at, "or") {
            return Ok((all, p));
        }
        let (more, after) = or_more_at(alloc, depth, all, tokens, p)?;
        all = more;
        p = after;
    }
    Ok((all, p))
}

#[tactic(auto, unfolding(crate::specs::Conditions::or_rest))]
#[cycle(conditions)]
fn or_rest_at(
    alloc: Global,
    depth: u32,
    first: UCond,
    tokens: &[Piece],
    p: Passed,
) -> Result<(UCond, Passed), ReadError>
    requires { AreFew (toks tokens.now) }
    ensures gives { Gives (λ f. f) (toks tokens.now) result (spec.or_rest (spec.condition depth) first (left_of (toks tokens.now) p)) }
    ensures few { IfOk result (λ r. r.0.nots ≤ 1048576 * depth + 1048576) }
{
    let one = one_condition(alloc, first)?;
    let (all, p) = ors_from(alloc, depth, one, tokens, p)?;
    Ok((
        UCond {
            nots: 0,
            part: UPart::Or(all),
        },
        p,
    ))
}

#[tactic(auto, unfolding(crate::specs::Conditions::or_of))]
#[cycle(conditions)]
fn or_at(
    alloc: Global,
    depth: u32,
    tokens: &[Piece],
    p: Passed,
) -> Result<(UCond, Passed), ReadError>
    requires { AreFew (toks tokens.now) }
    ensures gives { Gives (λ f. f) (toks tokens.now) result (spec.or_of (spec.condition depth) (left_of (toks tokens.now) p)) }
    ensures few { IfOk result (λ r. r.0.nots ≤ 1048576 * depth + 1048576) }
{
    let (first, p) = and_at(alloc, depth, tokens, p)?;
    if next_is_word_any_case(tokens, p.at, "or") {
        or_rest_at(alloc, depth, first, tokens, p)
    } else {
        Ok((first, p))
    }
}

/// A condition with brackets at most so deep.
#[tactic(auto, unfolding(crate::specs::Conditions::condition))]
#[cycle(conditions)]
pub fn condition_at(
    alloc: Global,
    depth: u32,
    tokens: &[Piece],
    p: Passed,
) -> Result<(UCond, Passed), ReadError>
    requires { AreFew (toks tokens.now) }
    ensures gives { Gives (λ f. f) (toks tokens.now) result (spec.condition depth (left_of (toks tokens.now) p)) }
    ensures few { IfOk result (λ r. r.0.nots ≤ 1048576 * depth) }
{
    if depth == 0 {
        return Err(stopped(tokens, p));
    }
    or_at(alloc, depth - 1, tokens, p)
}

// A list of one condition.
fn one_condition(alloc: Global, first: UCond) -> Result<List<UCond>, ReadError>
    ensures made { IfOk result (λ all. all ≡ first ∷ []) }
    ensures memory { IfErr result (λ e. e ≡ errors.OutOfMemory) }
{
    let mut all = List::new(alloc);
    all.push(first)?;
    Ok(all)
}
