// Functions, read from tokens.
ghost use Rattle.std.specs.Prelude.{◌≡◌};
ghost use Rattle.dg_text.specs.Cases.{Gives, left_of};
ghost use Rattle.dg_text.specs.Tokens.{toks};
ghost use Rattle.dg_parse.specs.Functions as spec;
ghost use Rattle.dg_parse.specs.Sizes.{AreFew};

use crate::literals::{lit_at, lits_at, uids_at};
use crate::names::{edge_at, pred_at, val_at};
use crate::tokens::{function_at, regex_at};
use crate::words::FuncWord;
use crate::{CmpOp, QFunc, QOf};
use dg_text::choices::next_is_word;
use dg_text::passed::{Passed, mark_at, quoted_at, refuse, word_at};
use dg_text::reading::left;
use dg_text::{Piece, ReadError};
use std::alloc::Global;

fn takes_many(op: CmpOp) -> bool
    ensures { result ≡ spec.takes_many op }
{
    match op {
        CmpOp::Eq => true,
        CmpOp::Le | CmpOp::Lt | CmpOp::Ge | CmpOp::Gt => false,
    }
}

// The number of an edge.
#[tactic(auto, unfolding(crate::specs::Functions::count_of))]
fn count_of_at(alloc: Global, tokens: &[Piece], p: Passed) -> Result<(QOf, Passed), ReadError>
    ensures { Gives (λ o. o) (toks tokens.now) result (spec.count_of (left_of (toks tokens.now) p)) }
{
    let (_, p) = word_at(tokens, p, "count")?;
    let (_, p) = mark_at(tokens, p, b'(')?;
    let (edge, p) = edge_at(alloc, tokens, p)?;
    let (_, p) = mark_at(tokens, p, b')')?;
    Ok((QOf::Count(edge), p))
}

// The value of a variable.
#[tactic(auto, unfolding(crate::specs::Functions::val_of))]
fn val_of_at(alloc: Global, tokens: &[Piece], p: Passed) -> Result<(QOf, Passed), ReadError>
    ensures { Gives (λ o. o) (toks tokens.now) result (spec.val_of (left_of (toks tokens.now) p)) }
{
    let (x, p) = val_at(alloc, tokens, p)?;
    Ok((QOf::Val(x), p))
}

// The values of a predicate.
#[tactic(auto, unfolding(crate::specs::Functions::pred_of))]
fn pred_of_at(alloc: Global, tokens: &[Piece], p: Passed) -> Result<(QOf, Passed), ReadError>
    ensures { Gives (λ o. o) (toks tokens.now) result (spec.pred_of (left_of (toks tokens.now) p)) }
{
    let (pred, p) = pred_at(alloc, tokens, p)?;
    Ok((QOf::Pred(pred), p))
}

// What is compared.
#[tactic(auto, unfolding(crate::specs::Functions::of))]
fn of_at(alloc: Global, tokens: &[Piece], p: Passed) -> Result<(QOf, Passed), ReadError>
    ensures { Gives (λ o. o) (toks tokens.now) result (spec.of (left_of (toks tokens.now) p)) }
{
    if next_is_word(tokens, p.at, "count") {
        count_of_at(alloc, tokens, p)
    } else if next_is_word(tokens, p.at, "val") {
        val_of_at(alloc, tokens, p)
    } else {
        pred_of_at(alloc, tokens, p)
    }
}

// What a comparison has in its brackets.
#[tactic(auto, unfolding(crate::specs::Functions::comparison))]
fn comparison_at(
    alloc: Global,
    op: CmpOp,
    tokens: &[Piece],
    p: Passed,
) -> Result<(QFunc, Passed), ReadError>
    requires { AreFew (toks tokens.now) }
    ensures { Gives (λ f. f) (toks tokens.now) result (spec.comparison op (left_of (toks tokens.now) p)) }
{
    let (of, p) = of_at(alloc, tokens, p)?;
    let (_, p) = mark_at(tokens, p, b',')?;
    let (lits, p) = lits_at(alloc, takes_many(op), tokens, p)?;
    Ok((QFunc::Cmp { op, of, lits }, p))
}

// What `between` has in its brackets.
#[tactic(auto, unfolding(crate::specs::Functions::between))]
fn between_at(alloc: Global, tokens: &[Piece], p: Passed) -> Result<(QFunc, Passed), ReadError>
    requires { AreFew (toks tokens.now) }
    ensures { Gives (λ f. f) (toks tokens.now) result (spec.between (left_of (toks tokens.now) p)) }
{
    let (of, p) = of_at(alloc, tokens, p)?;
    let (_, p) = mark_at(tokens, p, b',')?;
    let (low, p) = lit_at(alloc, tokens, p)?;
    let (_, p) = mark_at(tokens, p, b',')?;
    let (high, p) = lit_at(alloc, tokens, p)?;
    Ok((QFunc::Between { of, low, high }, p))
}

// What `has` has in its brackets.
#[tactic(auto, unfolding(crate::specs::Functions::has))]
fn has_at(alloc: Global, tokens: &[Piece], p: Passed) -> Result<(QFunc, Passed), ReadError>
    ensures { Gives (λ f. f) (toks tokens.now) result (spec.has (left_of (toks tokens.now) p)) }
{
    let (edge, p) = edge_at(alloc, tokens, p)?;
    Ok((QFunc::Has(edge), p))
}

// What `anyofterms` and `allofterms` have in their brackets.
#[tactic(auto, unfolding(crate::specs::Functions::terms))]
fn terms_at(
    alloc: Global,
    all: bool,
    tokens: &[Piece],
    p: Passed,
) -> Result<(QFunc, Passed), ReadError>
    requires { AreFew (toks tokens.now) }
    ensures { Gives (λ f. f) (toks tokens.now) result (spec.terms all (left_of (toks tokens.now) p)) }
{
    let (pred, p) = pred_at(alloc, tokens, p)?;
    let (_, p) = mark_at(tokens, p, b',')?;
    let (text, p) = quoted_at(alloc, tokens, p)?;
    Ok((QFunc::Terms { all, pred, text }, p))
}

// What `regexp` has in its brackets.
#[tactic(auto, unfolding(crate::specs::Functions::regexp))]
fn regexp_at(alloc: Global, tokens: &[Piece], p: Passed) -> Result<(QFunc, Passed), ReadError>
    requires { AreFew (toks tokens.now) }
    ensures { Gives (λ f. f) (toks tokens.now) result (spec.regexp (left_of (toks tokens.now) p)) }
{
    let (pred, p) = pred_at(alloc, tokens, p)?;
    let (_, p) = mark_at(tokens, p, b',')?;
    let ((pattern, fold), p) = regex_at(alloc, tokens, p)?;
    Ok((
        QFunc::Regexp {
            pred,
            pattern,
            fold,
        },
        p,
    ))
}

// What `uid_in` has in its brackets.
#[tactic(auto, unfolding(crate::specs::Functions::uid_in))]
fn uid_in_at(alloc: Global, tokens: &[Piece], p: Passed) -> Result<(QFunc, Passed), ReadError>
    ensures { Gives (λ f. f) (toks tokens.now) result (spec.uid_in (left_of (toks tokens.now) p)) }
{
    let (edge, p) = edge_at(alloc, tokens, p)?;
    let (_, p) = mark_at(tokens, p, b',')?;
    let (uids, p) = uids_at(alloc, tokens, p)?;
    Ok((QFunc::UidIn { edge, uids }, p))
}

// What `uid` has in its brackets.
#[tactic(auto, unfolding(crate::specs::Functions::named_uids))]
fn named_uids_at(alloc: Global, tokens: &[Piece], p: Passed) -> Result<(QFunc, Passed), ReadError>
    ensures { Gives (λ f. f) (toks tokens.now) result (spec.named_uids (left_of (toks tokens.now) p)) }
{
    let (uids, p) = uids_at(alloc, tokens, p)?;
    Ok((QFunc::Uid(uids), p))
}

// What stands in the brackets behind the word of a function.
#[tactic(auto, unfolding(crate::specs::Functions::arguments_of))]
fn arguments_of_at(
    alloc: Global,
    word: FuncWord,
    tokens: &[Piece],
    p: Passed,
) -> Result<(QFunc, Passed), ReadError>
    requires { AreFew (toks tokens.now) }
    ensures { Gives (λ f. f) (toks tokens.now) result (spec.arguments_of word (left_of (toks tokens.now) p)) }
{
    match word {
        FuncWord::Uid => named_uids_at(alloc, tokens, p),
        FuncWord::Cmp(op) => comparison_at(alloc, op, tokens, p),
        FuncWord::Between => between_at(alloc, tokens, p),
        FuncWord::Has => has_at(alloc, tokens, p),
        FuncWord::Terms(all) => terms_at(alloc, all, tokens, p),
        FuncWord::Regexp => regexp_at(alloc, tokens, p),
        FuncWord::UidIn => uid_in_at(alloc, tokens, p),
    }
}

fn is_uid_in(word: FuncWord) -> bool
    ensures { result ≡ spec.is_uid_in word }
{
    matches!(word, FuncWord::UidIn)
}

/// A function. At the root of a block `uid_in` is refused.
#[tactic(auto, unfolding(crate::specs::Functions::func))]
pub fn func_at(
    alloc: Global,
    root: bool,
    tokens: &[Piece],
    p: Passed,
) -> Result<(QFunc, Passed), ReadError>
    requires { AreFew (toks tokens.now) }
    ensures { Gives (λ f. f) (toks tokens.now) result (spec.func root (left_of (toks tokens.now) p)) }
{
    let place = left(tokens, p.at);
    let (word, p) = function_at(tokens, p)?;
    let p = refuse(p, place, root && is_uid_in(word));
    let (_, p) = mark_at(tokens, p, b'(')?;
    let (func, p) = arguments_of_at(alloc, word, tokens, p)?;
    let (_, p) = mark_at(tokens, p, b')')?;
    Ok((func, p))
}
