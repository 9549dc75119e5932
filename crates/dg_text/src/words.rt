// What Names are, which predicates tokens stand for, and which names the query language keeps for itself.
ghost use Rattle.std.specs.Prelude.{◌≡◌};
ghost use Rattle.std.specs.Option.{option_map};
ghost use Rattle.dg_text.specs.Tokens.{tok};
ghost use Rattle.dg_text.specs.Words as spec;

use crate::forms::name_len;
use crate::kinds::{is_a_name, is_an_iri};
use crate::token::Piece;

/// Whether all of the text is one Name.
pub fn is_whole_name(text: &str) -> bool
    ensures { result ≡ spec.is_whole_name text.now }
{
    let bytes = text.as_bytes();
    let len = name_len(bytes, 0);
    len != 0 && len == bytes.len() && len <= 64
}

/// The characters of a Name.
pub fn name_of<'a>(token: &Piece<'a>) -> Option<&'a str>
    ensures { option_map (λ name. name.now) result ≡ spec.name_meant (tok token.now) }
{
    if is_a_name(token) {
        Some(token.text)
    } else {
        None
    }
}

/// The predicate that a Name stands for, or an Iri with a Name in it.
pub fn predicate_of<'a>(token: &Piece<'a>) -> Option<&'a str>
    ensures { option_map (λ name. name.now) result ≡ spec.predicate_meant (tok token.now) }
{
    if is_a_name(token) || (is_an_iri(token) && is_whole_name(token.text)) {
        Some(token.text)
    } else {
        None
    }
}

/// Whether the query language keeps a name for itself.
pub fn is_reserved(word: &str) -> bool
    ensures { result ≡ spec.is_reserved word.now }
{
    word == "uid"
        || word == "count"
        || word == "val"
        || word == "min"
        || word == "max"
        || word == "sum"
        || word == "as"
        || word == "expand"
}

/// Whether a token is a Name that the query language keeps for itself.
pub fn is_a_reserved_name(token: &Piece) -> bool
    ensures { result ≡ spec.is_reserved_name (tok token.now) }
{
    is_a_name(token) && is_reserved(token.text)
}
