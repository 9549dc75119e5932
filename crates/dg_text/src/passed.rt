// Places of tokens, with the cases beside a grammar that refuse a token which was passed.
ghost use Rattle.std.specs.Prelude.{◌≡◌, List, max, length, drop};
ghost use Rattle.dg_text.specs.declared.reading.ReadError.TheVariants as errors;
ghost use Rattle.dg_text.specs.Reading as plain;
ghost use Rattle.dg_text.specs.Reading.{Read, skip};
ghost use Rattle.dg_text.specs.Sizes.{AreSmall};
ghost use Rattle.dg_text.specs.Tokens.{Tok, toks, is_word_any_case};
ghost use Rattle.dg_text.specs.Cases.{Gives, left_of, met, part, mark, word, name, quoted, later, refused_at};

use crate::reading::{ReadError, left};
use crate::single;
use crate::texts::owned;
use crate::token::Piece;
use dg_values::Str;
use std::alloc::Global;

/// A place, and the earliest place before it that a case beside the grammar refused.
#[derive(Clone, Copy, Debug)]
pub struct Passed {
    /// The index of the next token.
    pub at: usize,
    /// How many tokens stand from the refused one to the end; 0 where none is refused.
    pub refused: usize,
}

/// A fault, where an earlier place was refused.
pub fn later_of(refused: usize, error: ReadError) -> ReadError
    ensures { result ≡ later refused error }
{
    match error {
        ReadError::OutOfMemory => ReadError::OutOfMemory,
        ReadError::Fault { left } => ReadError::Fault {
            left: refused.max(left),
        },
    }
}

/// The fault at the next token, or at an earlier place that was refused.
pub fn stopped(tokens: &[Piece], p: Passed) -> ReadError
    ensures { result ≡ errors.Fault (max p.refused (length (drop p.at (toks tokens.now)))) }
{
    ReadError::Fault {
        left: p.refused.max(left(tokens, p.at)),
    }
}

/// A case beside the grammar, at a place that was passed.
pub fn refuse(p: Passed, place: usize, test: bool) -> Passed
    ensures { result ≡ refused_at p place test }
{
    if test {
        Passed {
            at: p.at,
            refused: p.refused.max(place),
        }
    } else {
        p
    }
}

/// What a reader gave at a place, where an earlier place was refused or not.
pub fn lifted<T: Drop>(
    p: Passed,
    read: Result<(T, usize), ReadError>,
) -> Result<(T, Passed), ReadError>
    ensures { (all : List Tok) (said : Read (List Tok) T) → plain.Gives (λ x. x) all read said → Gives (λ x. x) all result (met p.refused said) }
{
    match read {
        Ok((said, at)) => Ok((
            said,
            Passed {
                at,
                refused: p.refused,
            },
        )),
        Err(e) => Err(later_of(p.refused, e)),
    }
}

/// The place behind a punctuation byte.
pub fn mark_at(tokens: &[Piece], p: Passed, byte: u8) -> Result<((), Passed), ReadError>
    ensures { Gives (λ u. u) (toks tokens.now) result (mark byte (left_of (toks tokens.now) p)) }
{
    lifted(p, single::punct(tokens, p.at, byte))
}

/// The place behind a word of the grammar.
pub fn word_at(tokens: &[Piece], p: Passed, w: &str) -> Result<((), Passed), ReadError>
    ensures { Gives (λ u. u) (toks tokens.now) result (word w.now (left_of (toks tokens.now) p)) }
{
    lifted(p, single::word_at(tokens, p.at, w))
}

/// The place behind a word in any case of its letters.
pub fn word_any_case_at(tokens: &[Piece], p: Passed, w: &str) -> Result<((), Passed), ReadError>
    ensures { Gives (λ u. u) (toks tokens.now) result (part (skip (is_word_any_case w.now)) (left_of (toks tokens.now) p)) }
{
    lifted(p, single::word_any_case_at(tokens, p.at, w))
}

/// The characters of a Name.
pub fn name_at<'a>(tokens: &[Piece<'a>], p: Passed) -> Result<(&'a str, Passed), ReadError>
    ensures { Gives (λ s. s.now) (toks tokens.now) result (name (left_of (toks tokens.now) p)) }
{
    match single::name_at(tokens, p.at) {
        Ok((text, at)) => Ok((
            text,
            Passed {
                at,
                refused: p.refused,
            },
        )),
        Err(e) => Err(later_of(p.refused, e)),
    }
}

/// A Name, in memory of its own.
pub fn owned_name_at(alloc: Global, tokens: &[Piece], p: Passed) -> Result<(Str, Passed), ReadError>
    ensures { Gives (λ s. s) (toks tokens.now) result (name (left_of (toks tokens.now) p)) }
{
    let (text, p) = name_at(tokens, p)?;
    let text = owned(alloc, text)?;
    Ok((text, p))
}

/// What a Quoted says.
pub fn quoted_at(alloc: Global, tokens: &[Piece], p: Passed) -> Result<(Str, Passed), ReadError>
    requires { AreSmall (toks tokens.now) }
    ensures { Gives (λ s. s) (toks tokens.now) result (quoted (left_of (toks tokens.now) p)) }
{
    lifted(p, single::quoted_at(alloc, tokens, p.at))
}
