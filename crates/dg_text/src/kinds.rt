// Of which kind a token is.
ghost use Rattle.std.specs.Prelude.{◌≡◌};
ghost use Rattle.dg_text.specs.Tokens.{tok, is_name, is_iri, is_at, is_blank, is_quoted, is_caret, is_int, is_uid, is_regex, is_punct, is_word, is_word_any_case};

use crate::token::{Piece, TokenKind};

/// Whether a token is a name.
pub fn is_a_name(t: &Piece) -> bool
    ensures { result ≡ is_name (tok t.now) }
{
    matches!(t.kind, TokenKind::Name)
}

/// Whether a token is an Iri.
pub fn is_an_iri(t: &Piece) -> bool
    ensures { result ≡ is_iri (tok t.now) }
{
    matches!(t.kind, TokenKind::Iri)
}

/// Whether a token is `@` with a name.
pub fn is_an_at(t: &Piece) -> bool
    ensures { result ≡ is_at (tok t.now) }
{
    matches!(t.kind, TokenKind::At)
}

/// Whether a token is a blank node.
pub fn is_a_blank(t: &Piece) -> bool
    ensures { result ≡ is_blank (tok t.now) }
{
    matches!(t.kind, TokenKind::Blank)
}

/// Whether a token is a Quoted.
pub fn is_a_quoted(t: &Piece) -> bool
    ensures { result ≡ is_quoted (tok t.now) }
{
    matches!(t.kind, TokenKind::Quoted)
}

/// Whether a token is `^^`.
pub fn is_a_caret(t: &Piece) -> bool
    ensures { result ≡ is_caret (tok t.now) }
{
    matches!(t.kind, TokenKind::Caret)
}

/// Whether a token is an Int.
pub fn is_an_int(t: &Piece) -> bool
    ensures { result ≡ is_int (tok t.now) }
{
    matches!(t.kind, TokenKind::Int)
}

/// Whether a token is a Uid.
pub fn is_a_uid(t: &Piece) -> bool
    ensures { result ≡ is_uid (tok t.now) }
{
    matches!(t.kind, TokenKind::Uid)
}

/// Whether a token is a Regex.
pub fn is_a_regex(t: &Piece) -> bool
    ensures { result ≡ is_regex (tok t.now) }
{
    matches!(t.kind, TokenKind::Regex)
}

/// Whether a token is this punctuation byte.
pub fn is_a_punct(t: &Piece, byte: u8) -> bool
    ensures { result ≡ is_punct byte (tok t.now) }
{
    match t.kind {
        TokenKind::Punct(b) => b == byte,
        _ => false,
    }
}

/// Whether a token is the Name that is this word.
pub fn is_a_word(t: &Piece, word: &str) -> bool
    ensures { result ≡ is_word word.now (tok t.now) }
{
    is_a_name(t) && t.text == word
}

/// Whether a token is the Name that is this word in any case of its letters.
pub fn is_a_word_any_case(t: &Piece, word: &str) -> bool
    ensures { result ≡ is_word_any_case word.now (tok t.now) }
{
    is_a_name(t) && t.text.eq_ignore_ascii_case(word)
}
