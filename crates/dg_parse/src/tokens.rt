// Single tokens of the grammar of queries.
ghost use Rattle.std.specs.Prelude.{◌≡◌, ◌≤◌, ◌||◌, length, drop, is_some, IfOk, IfErr};
ghost use Rattle.dg_text.specs.declared.reading.ReadError.TheVariants as errors;
ghost use Rattle.dg_text.specs.Cases.{Gives, left_of, part};
ghost use Rattle.dg_text.specs.Patterns.{regex_meant};
ghost use Rattle.dg_text.specs.Reading as plain;
ghost use Rattle.dg_text.specs.Reading.{one_as};
ghost use Rattle.dg_text.specs.Said.{uid_meant};
ghost use Rattle.dg_text.specs.Tokens.{tok, toks, is_int};
ghost use Rattle.dg_parse.specs.Sizes.{AreFew};
ghost use Rattle.dg_parse.specs.Words.{function_meant, comparison_meant, directive_meant, argument_meant, aggregate_meant, number_meant, node_meant, truth_meant, literal_meant};

use crate::words::{
    ArgWord, DirWord, FuncWord, aggregate_of, argument_of, comparison_of, directive_of, function_of,
};
use crate::{AggOp, CmpOp, UidArg};
use dg_text::kinds::{is_a_name, is_a_uid, is_a_word, is_an_int};
use dg_text::numbers::{int_of, uid_said};
use dg_text::passed::{Passed, lifted};
use dg_text::reading::{fault_at, one_at, one_owned_at, peek, taken};
use dg_text::texts::{owned, quoted_of};
use dg_text::{Piece, ReadError, single};
use dg_values::Str;
use std::alloc::Global;

/// The word of a function.
pub fn function_at(tokens: &[Piece], p: Passed) -> Result<(FuncWord, Passed), ReadError>
    ensures { Gives (λ x. x) (toks tokens.now) result (part (one_as function_meant) (left_of (toks tokens.now) p)) }
{
    lifted(p, one_at(tokens, p.at, |t| function_of(t)))
}

/// The word of a comparison.
pub fn comparison_word_at(tokens: &[Piece], p: Passed) -> Result<(CmpOp, Passed), ReadError>
    ensures { Gives (λ x. x) (toks tokens.now) result (part (one_as comparison_meant) (left_of (toks tokens.now) p)) }
{
    lifted(p, one_at(tokens, p.at, |t| comparison_of(t)))
}

/// The word of a directive.
pub fn directive_at(tokens: &[Piece], p: Passed) -> Result<(DirWord, Passed), ReadError>
    ensures { Gives (λ x. x) (toks tokens.now) result (part (one_as directive_meant) (left_of (toks tokens.now) p)) }
{
    lifted(p, one_at(tokens, p.at, |t| directive_of(t)))
}

/// The word of an argument.
pub fn argument_at(tokens: &[Piece], p: Passed) -> Result<(ArgWord, Passed), ReadError>
    ensures { Gives (λ x. x) (toks tokens.now) result (part (one_as argument_meant) (left_of (toks tokens.now) p)) }
{
    lifted(p, one_at(tokens, p.at, |t| argument_of(t)))
}

/// The word of an aggregate.
pub fn aggregate_at(tokens: &[Piece], p: Passed) -> Result<(AggOp, Passed), ReadError>
    ensures { Gives (λ x. x) (toks tokens.now) result (part (one_as aggregate_meant) (left_of (toks tokens.now) p)) }
{
    lifted(p, one_at(tokens, p.at, |t| aggregate_of(t)))
}

// The number of an Int; 0 where it is no number of 64 bits.
fn number_of(token: &Piece) -> Option<i64>
    ensures { result ≡ number_meant (tok token.now) }
{
    if is_an_int(token) {
        Some(int_of(token).unwrap_or(0))
    } else {
        None
    }
}

/// The number of an Int.
pub fn number_at(tokens: &[Piece], p: Passed) -> Result<(i64, Passed), ReadError>
    ensures { Gives (λ x. x) (toks tokens.now) result (part (one_as number_meant) (left_of (toks tokens.now) p)) }
{
    lifted(p, one_at(tokens, p.at, |t| number_of(t)))
}

/// The node that a Uid names.
pub fn uid_at(tokens: &[Piece], p: Passed) -> Result<(u64, Passed), ReadError>
    ensures { Gives (λ x. x) (toks tokens.now) result (part (one_as uid_meant) (left_of (toks tokens.now) p)) }
{
    lifted(p, single::uid_at(tokens, p.at))
}

// A node or a variable.
fn node_of(alloc: Global, token: &Piece) -> Result<Option<UidArg>, ReadError>
    ensures made { IfOk result (λ u. u ≡ node_meant (tok token.now)) }
    ensures memory { IfErr result (λ e. e ≡ errors.OutOfMemory) }
{
    if is_a_uid(token) {
        return match uid_said(token.text) {
            None => Ok(None),
            Some(uid) => Ok(Some(UidArg::Uid(uid))),
        };
    }
    if !is_a_name(token) {
        return Ok(None);
    }
    Ok(Some(UidArg::Var(owned(alloc, token.text)?)))
}

/// A node or a variable.
pub fn node_at(alloc: Global, tokens: &[Piece], p: Passed) -> Result<(UidArg, Passed), ReadError>
    ensures { Gives (λ x. x) (toks tokens.now) result (part (one_as node_meant) (left_of (toks tokens.now) p)) }
{
    lifted(p, one_owned_at(tokens, p.at, |t| node_of(alloc, t)))
}

// Whether a token is `true`, or `false`.
fn truth_of(token: &Piece) -> Option<bool>
    ensures { result ≡ truth_meant (tok token.now) }
{
    if is_a_word(token, "true") {
        Some(true)
    } else if is_a_word(token, "false") {
        Some(false)
    } else {
        None
    }
}

/// `true` or `false`.
pub fn truth_at(tokens: &[Piece], p: Passed) -> Result<(bool, Passed), ReadError>
    ensures { Gives (λ x. x) (toks tokens.now) result (part (one_as truth_meant) (left_of (toks tokens.now) p)) }
{
    lifted(p, one_at(tokens, p.at, |t| truth_of(t)))
}

// Whether a token is a literal by its own characters.
fn is_plain_literal(token: &Piece) -> bool
    ensures { result ≡ is_int (tok token.now) || is_some (truth_meant (tok token.now)) }
{
    is_an_int(token) || truth_of(token).is_some()
}

// The text of a literal.
fn literal_of(alloc: Global, token: &Piece) -> Result<Option<Str>, ReadError>
    requires { length token.now.text.now ≤ 1048576 }
    ensures made { IfOk result (λ text. text ≡ literal_meant (tok token.now)) }
    ensures memory { IfErr result (λ e. e ≡ errors.OutOfMemory) }
{
    if is_plain_literal(token) {
        Ok(Some(owned(alloc, token.text)?))
    } else {
        quoted_of(alloc, token)
    }
}

// The text of a literal, and the place behind it.
#[tactic(auto, using(dg_text::proofs::Small::next_text))]
fn plain_literal_at(alloc: Global, tokens: &[Piece], at: usize) -> Result<(Str, usize), ReadError>
    requires { AreFew (toks tokens.now) }
    ensures { plain.Gives (λ x. x) (toks tokens.now) result (one_as literal_meant (drop at (toks tokens.now))) }
{
    match peek(tokens, at) {
        None => Err(fault_at(tokens, at)),
        Some(token) => taken(tokens, at, literal_of(alloc, token)?),
    }
}

/// The text of a literal.
pub fn literal_at(alloc: Global, tokens: &[Piece], p: Passed) -> Result<(Str, Passed), ReadError>
    requires { AreFew (toks tokens.now) }
    ensures { Gives (λ x. x) (toks tokens.now) result (part (one_as literal_meant) (left_of (toks tokens.now) p)) }
{
    lifted(p, plain_literal_at(alloc, tokens, p.at))
}

/// The pattern of a Regex, and whether it goes without regard to case.
pub fn regex_at(
    alloc: Global,
    tokens: &[Piece],
    p: Passed,
) -> Result<((Str, bool), Passed), ReadError>
    ensures { Gives (λ x. x) (toks tokens.now) result (part (one_as regex_meant) (left_of (toks tokens.now) p)) }
{
    lifted(p, single::regex_at(alloc, tokens, p.at))
}
