// What comes next, by one token or by two.
ghost use Rattle.std.specs.Prelude.{◌≡◌, Bool, drop};
ghost use Rattle.dg_text.specs.Reading.{next, next_two};
ghost use Rattle.dg_text.specs.Said.{is_wide};
ghost use Rattle.dg_text.specs.Tokens.{Tok, tok, toks, is_name, is_at, is_quoted, is_caret, is_punct, is_word, is_word_any_case};
ghost use Rattle.dg_text.specs.Words.{is_reserved_name};

use crate::kinds::{
    is_a_caret, is_a_name, is_a_punct, is_a_quoted, is_a_word, is_a_word_any_case, is_an_at,
};
use crate::numbers::is_a_wide_int;
use crate::reading::peek;
use crate::token::Piece;
use crate::words::is_a_reserved_name;

/// Whether the next token is this punctuation byte.
pub fn next_is_punct(tokens: &[Piece], at: usize, byte: u8) -> bool
    ensures { result ≡ next (is_punct byte) (drop at (toks tokens.now)) }
{
    peek(tokens, at).is_some_and(|t| is_a_punct(t, byte))
}

/// Whether the next token is a name.
pub fn next_is_name(tokens: &[Piece], at: usize) -> bool
    ensures { result ≡ next is_name (drop at (toks tokens.now)) }
{
    peek(tokens, at).is_some_and(|t| is_a_name(t))
}

/// Whether the next token is `@` with a name.
pub fn next_is_at(tokens: &[Piece], at: usize) -> bool
    ensures { result ≡ next is_at (drop at (toks tokens.now)) }
{
    peek(tokens, at).is_some_and(|t| is_an_at(t))
}

/// Whether the next token is a Quoted.
pub fn next_is_quoted(tokens: &[Piece], at: usize) -> bool
    ensures { result ≡ next is_quoted (drop at (toks tokens.now)) }
{
    peek(tokens, at).is_some_and(|t| is_a_quoted(t))
}

/// Whether the next token is `^^`.
pub fn next_is_caret(tokens: &[Piece], at: usize) -> bool
    ensures { result ≡ next is_caret (drop at (toks tokens.now)) }
{
    peek(tokens, at).is_some_and(|t| is_a_caret(t))
}

/// Whether the next token is the Name that is this word.
pub fn next_is_word(tokens: &[Piece], at: usize, word: &str) -> bool
    ensures { result ≡ next (is_word word.now) (drop at (toks tokens.now)) }
{
    peek(tokens, at).is_some_and(|t| is_a_word(t, word))
}

/// Whether the next token is the Name that is this word in any case of its letters.
pub fn next_is_word_any_case(tokens: &[Piece], at: usize, word: &str) -> bool
    ensures { result ≡ next (is_word_any_case word.now) (drop at (toks tokens.now)) }
{
    peek(tokens, at).is_some_and(|t| is_a_word_any_case(t, word))
}

/// Whether the next token is a Name that the query language keeps for itself.
pub fn next_is_reserved_name(tokens: &[Piece], at: usize) -> bool
    ensures { result ≡ next is_reserved_name (drop at (toks tokens.now)) }
{
    peek(tokens, at).is_some_and(|t| is_a_reserved_name(t))
}

/// Whether the next token is an Int that is no number of 64 bits.
pub fn next_is_wide_int(tokens: &[Piece], at: usize) -> bool
    ensures { result ≡ next is_wide (drop at (toks tokens.now)) }
{
    peek(tokens, at).is_some_and(|t| is_a_wide_int(t))
}

/// Whether two such tokens come next.
pub fn next_are<F: FnOnce(&Piece) -> bool, G: FnOnce(&Piece) -> bool>(
    tokens: &[Piece],
    at: usize,
    is_first: F,
    is_second: G,
) -> bool
    requires first { F.IsAlwaysCallable is_first }
    requires second { G.IsAlwaysCallable is_second }
    ensures { (first second : Tok → Bool) → ((t : _) (r : _) → F.post is_first t r → r ≡ first (tok t.now)) → ((t : _) (r : _) → G.post is_second t r → r ≡ second (tok t.now)) → result ≡ next_two first second (drop at (toks tokens.now)) }
{
    match peek(tokens, at) {
        None => false,
        Some(t) => {
            is_first(t)
                && match peek(tokens, at + 1) {
                    None => false,
                    Some(next) => is_second(next),
                }
        }
    }
}

/// Whether a Name comes next, and then this punctuation byte.
pub fn next_are_name_and_punct(tokens: &[Piece], at: usize, byte: u8) -> bool
    ensures { result ≡ next_two is_name (is_punct byte) (drop at (toks tokens.now)) }
{
    next_are(tokens, at, |t| is_a_name(t), |t| is_a_punct(t, byte))
}

/// Whether a Name comes next, and then this word.
pub fn next_are_name_and_word(tokens: &[Piece], at: usize, word: &str) -> bool
    ensures { result ≡ next_two is_name (is_word word.now) (drop at (toks tokens.now)) }
{
    next_are(tokens, at, |t| is_a_name(t), |t| is_a_word(t, word))
}
