// One token of a kind or a word, which every grammar reads.
ghost use Rattle.std.specs.Prelude.{◌≡◌, drop};
ghost use Rattle.dg_text.specs.Reading.{Gives, skip, one_as};
ghost use Rattle.dg_text.specs.Patterns.{regex_meant};
ghost use Rattle.dg_text.specs.Said.{quoted_meant, uid_meant, int_meant};
ghost use Rattle.dg_text.specs.Sizes.{AreSmall};
ghost use Rattle.dg_text.specs.Tokens.{toks, is_caret, is_punct, is_word, is_word_any_case};
ghost use Rattle.dg_text.specs.Words.{name_meant, predicate_meant};

use crate::kinds::{is_a_caret, is_a_punct, is_a_word, is_a_word_any_case};
use crate::numbers::{int_of, uid_of};
use crate::patterns::regex_of;
use crate::reading::{
    ReadError, fault_at, one_at, one_owned_at, one_text_at, peek, skip_at, taken,
};
use crate::texts::{owned_name_of, quoted_of};
use crate::token::Piece;
use crate::words::{name_of, predicate_of};
use dg_values::Str;
use std::alloc::Global;

/// The place behind this punctuation byte.
pub fn punct(tokens: &[Piece], at: usize, byte: u8) -> Result<((), usize), ReadError>
    ensures { Gives (λ u. u) (toks tokens.now) result (skip (is_punct byte) (drop at (toks tokens.now))) }
{
    skip_at(tokens, at, |t| is_a_punct(t, byte))
}

/// The place behind `^^`.
pub fn caret_at(tokens: &[Piece], at: usize) -> Result<((), usize), ReadError>
    ensures { Gives (λ u. u) (toks tokens.now) result (skip is_caret (drop at (toks tokens.now))) }
{
    skip_at(tokens, at, |t| is_a_caret(t))
}

/// The place behind this word.
pub fn word_at(tokens: &[Piece], at: usize, word: &str) -> Result<((), usize), ReadError>
    ensures { Gives (λ u. u) (toks tokens.now) result (skip (is_word word.now) (drop at (toks tokens.now))) }
{
    skip_at(tokens, at, |t| is_a_word(t, word))
}

/// The place behind this word in any case of its letters.
pub fn word_any_case_at(tokens: &[Piece], at: usize, word: &str) -> Result<((), usize), ReadError>
    ensures { Gives (λ u. u) (toks tokens.now) result (skip (is_word_any_case word.now) (drop at (toks tokens.now))) }
{
    skip_at(tokens, at, |t| is_a_word_any_case(t, word))
}

/// The characters of a Name, and the place behind it.
pub fn name_at<'a>(tokens: &[Piece<'a>], at: usize) -> Result<(&'a str, usize), ReadError>
    ensures { Gives (λ name. name.now) (toks tokens.now) result (one_as name_meant (drop at (toks tokens.now))) }
{
    one_text_at(tokens, at, |t| name_of(t))
}

/// The predicate that a token stands for, and the place behind it.
pub fn predicate_at<'a>(tokens: &[Piece<'a>], at: usize) -> Result<(&'a str, usize), ReadError>
    ensures { Gives (λ name. name.now) (toks tokens.now) result (one_as predicate_meant (drop at (toks tokens.now))) }
{
    one_text_at(tokens, at, |t| predicate_of(t))
}

/// The text that a Quoted says, and the place behind it.
#[tactic(auto, using(crate::proofs::Small::next_text))]
pub fn quoted_at(alloc: Global, tokens: &[Piece], at: usize) -> Result<(Str, usize), ReadError>
    requires { AreSmall (toks tokens.now) }
    ensures { Gives (λ text. text) (toks tokens.now) result (one_as quoted_meant (drop at (toks tokens.now))) }
{
    match peek(tokens, at) {
        None => Err(fault_at(tokens, at)),
        Some(token) => taken(tokens, at, quoted_of(alloc, token)?),
    }
}

/// The node that a Uid names, and the place behind it.
pub fn uid_at(tokens: &[Piece], at: usize) -> Result<(u64, usize), ReadError>
    ensures { Gives (λ uid. uid) (toks tokens.now) result (one_as uid_meant (drop at (toks tokens.now))) }
{
    one_at(tokens, at, |t| uid_of(t))
}

/// The number of an Int of 64 bits, and the place behind it.
pub fn int_at(tokens: &[Piece], at: usize) -> Result<(i64, usize), ReadError>
    ensures { Gives (λ n. n) (toks tokens.now) result (one_as int_meant (drop at (toks tokens.now))) }
{
    one_at(tokens, at, |t| int_of(t))
}

/// A Name in memory of its own, and the place behind it.
pub fn owned_name_at(alloc: Global, tokens: &[Piece], at: usize) -> Result<(Str, usize), ReadError>
    ensures { Gives (λ name. name) (toks tokens.now) result (one_as name_meant (drop at (toks tokens.now))) }
{
    one_owned_at(tokens, at, |t| owned_name_of(alloc, t))
}

/// The pattern of a Regex, whether it goes without regard to case, and the place behind it.
pub fn regex_at(
    alloc: Global,
    tokens: &[Piece],
    at: usize,
) -> Result<((Str, bool), usize), ReadError>
    ensures { Gives (λ r. r) (toks tokens.now) result (one_as regex_meant (drop at (toks tokens.now))) }
{
    one_owned_at(tokens, at, |t| regex_of(alloc, t))
}
