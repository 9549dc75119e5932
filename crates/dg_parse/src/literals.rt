// Lists of nodes and of literals, read from tokens.
ghost use Rattle.std.specs.Prelude.{◌≡◌, drop};
ghost use Rattle.dg_text.specs.Cases.{Gives, left_of, repeated};
ghost use Rattle.dg_text.specs.Marks.{comma};
ghost use Rattle.dg_text.specs.Reading.{next};
ghost use Rattle.dg_text.specs.Tokens.{toks, is_punct};
ghost use Rattle.dg_parse.specs.Literals as spec;
ghost use Rattle.dg_parse.specs.Sizes.{AreFew};

use crate::UidArg;
use crate::tokens::{literal_at, node_at};
use dg_text::choices::{next_is_punct, next_is_wide_int};
use dg_text::passed::{Passed, mark_at, refuse};
use dg_text::reading::left;
use dg_text::{Piece, ReadError};
use dg_values::{List, Str};
use std::alloc::Global;

// The nodes before with the one behind a comma.
#[tactic(auto, unfolding(crate::specs::Literals::comma_uid))]
fn comma_uid_at(
    alloc: Global,
    mut before: List<UidArg>,
    tokens: &[Piece],
    p: Passed,
) -> Result<(List<UidArg>, Passed), ReadError>
    ensures { Gives (λ us. us) (toks tokens.now) result (spec.comma_uid before (left_of (toks tokens.now) p)) }
{
    let (_, p) = mark_at(tokens, p, b',')?;
    let (uid, p) = node_at(alloc, tokens, p)?;
    before.push(uid)?;
    Ok((before, p))
}

// The nodes before with those behind commas.
#[tactic(auto, using(dg_text::proofs::Turns::goes_on, dg_text::proofs::Turns::ends, dg_text::proofs::Turns::stops, dg_text::proofs::Turns::is_done))]
fn more_uids_at(
    alloc: Global,
    before: List<UidArg>,
    tokens: &[Piece],
    start: Passed,
) -> Result<(List<UidArg>, Passed), ReadError>
    ensures { Gives (λ us. us) (toks tokens.now) result (repeated (next (is_punct comma)) spec.comma_uid before (left_of (toks tokens.now) start)) }
{
    let most = left(tokens, start.at);
    let mut all = before;
    let mut p = start;
    for _ in 0..most {
        if !next_is_punct(tokens, p.at, b',') {
            return Ok((all, p));
        }
        let (more, after) = comma_uid_at(alloc, all, tokens, p)?;
        all = more;
        p = after;
    }
    Ok((all, p))
}

/// One node or more.
#[tactic(auto, unfolding(crate::specs::Literals::uids))]
pub fn uids_at(
    alloc: Global,
    tokens: &[Piece],
    p: Passed,
) -> Result<(List<UidArg>, Passed), ReadError>
    ensures { Gives (λ us. us) (toks tokens.now) result (spec.uids (left_of (toks tokens.now) p)) }
{
    let (uid, p) = node_at(alloc, tokens, p)?;
    let mut all = List::new(alloc);
    all.push(uid)?;
    more_uids_at(alloc, all, tokens, p)
}

/// A literal.
#[tactic(auto, unfolding(crate::specs::Literals::lit))]
pub fn lit_at(alloc: Global, tokens: &[Piece], p: Passed) -> Result<(Str, Passed), ReadError>
    requires { AreFew (toks tokens.now) }
    ensures { Gives (λ s. s) (toks tokens.now) result (spec.lit (left_of (toks tokens.now) p)) }
{
    let p = refuse(p, left(tokens, p.at), next_is_wide_int(tokens, p.at));
    literal_at(alloc, tokens, p)
}

// The literals before with the one behind a comma.
#[tactic(auto, unfolding(crate::specs::Literals::comma_lit))]
fn comma_lit_at(
    alloc: Global,
    many: bool,
    mut before: List<Str>,
    tokens: &[Piece],
    p: Passed,
) -> Result<(List<Str>, Passed), ReadError>
    requires { AreFew (toks tokens.now) }
    ensures { Gives (λ texts. texts) (toks tokens.now) result (spec.comma_lit many before (left_of (toks tokens.now) p)) }
{
    let (_, p) = mark_at(tokens, p, b',')?;
    let place = left(tokens, p.at);
    let (text, p) = lit_at(alloc, tokens, p)?;
    let p = refuse(p, place, !many);
    before.push(text)?;
    Ok((before, p))
}

// The literals before with those behind commas.
#[tactic(auto, using(dg_text::proofs::Turns::goes_on, dg_text::proofs::Turns::ends, dg_text::proofs::Turns::stops, dg_text::proofs::Turns::is_done))]
fn more_lits_at(
    alloc: Global,
    many: bool,
    before: List<Str>,
    tokens: &[Piece],
    start: Passed,
) -> Result<(List<Str>, Passed), ReadError>
    requires { AreFew (toks tokens.now) }
    ensures { Gives (λ texts. texts) (toks tokens.now) result (repeated (next (is_punct comma)) (spec.comma_lit many) before (left_of (toks tokens.now) start)) }
{
    let most = left(tokens, start.at);
    let mut all = before;
    let mut p = start;
    for _ in 0..most {
        if !next_is_punct(tokens, p.at, b',') {
            return Ok((all, p));
        }
        let (more, after) = comma_lit_at(alloc, many, all, tokens, p)?;
        all = more;
        p = after;
    }
    Ok((all, p))
}

// One literal or more.
#[tactic(auto, unfolding(crate::specs::Literals::some_lits))]
fn some_lits_at(
    alloc: Global,
    many: bool,
    tokens: &[Piece],
    p: Passed,
) -> Result<(List<Str>, Passed), ReadError>
    requires { AreFew (toks tokens.now) }
    ensures { Gives (λ texts. texts) (toks tokens.now) result (spec.some_lits many (left_of (toks tokens.now) p)) }
{
    let (text, p) = lit_at(alloc, tokens, p)?;
    let mut all = List::new(alloc);
    all.push(text)?;
    more_lits_at(alloc, many, all, tokens, p)
}

// Literals between `[` and `]`.
#[tactic(auto, unfolding(crate::specs::Literals::square_lits))]
fn square_lits_at(
    alloc: Global,
    many: bool,
    tokens: &[Piece],
    p: Passed,
) -> Result<(List<Str>, Passed), ReadError>
    requires { AreFew (toks tokens.now) }
    ensures { Gives (λ texts. texts) (toks tokens.now) result (spec.square_lits many (left_of (toks tokens.now) p)) }
{
    let place = left(tokens, p.at);
    let (_, p) = mark_at(tokens, p, b'[')?;
    let p = refuse(p, place, !many);
    let (texts, p) = some_lits_at(alloc, many, tokens, p)?;
    let (_, p) = mark_at(tokens, p, b']')?;
    Ok((texts, p))
}

/// Literals, by whether `[` comes next.
#[tactic(auto, unfolding(crate::specs::Literals::lits))]
pub fn lits_at(
    alloc: Global,
    many: bool,
    tokens: &[Piece],
    p: Passed,
) -> Result<(List<Str>, Passed), ReadError>
    requires { AreFew (toks tokens.now) }
    ensures { Gives (λ texts. texts) (toks tokens.now) result (spec.lits many (left_of (toks tokens.now) p)) }
{
    if next_is_punct(tokens, p.at, b'[') {
        square_lits_at(alloc, many, tokens, p)
    } else {
        some_lits_at(alloc, many, tokens, p)
    }
}
