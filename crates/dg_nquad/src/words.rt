// What tokens say in a mutation.
ghost use Rattle.std.specs.Prelude.{◌≡◌};
ghost use Rattle.std.specs.Option.{option_copied};
ghost use Rattle.std.specs.Str.{bytes_eq};
ghost use Rattle.dg_text.specs.Tokens.{tok};
ghost use Rattle.dg_nquad.specs.Words as spec;

use dg_text::Piece;
use dg_text::kinds::{is_a_word, is_an_iri};
use dg_text::numbers::behind;
use dg_values::Kind;

// The name of a type behind its front.
fn type_name(iri: &[u8]) -> Option<&[u8]>
    ensures { option_copied result ≡ spec.type_name iri.now }
{
    match behind(b"xs:", iri) {
        Some(name) => Some(name),
        None => behind(b"http://www.w3.org/2001/XMLSchema#", iri),
    }
}

fn is_text(name: &[u8], word: &[u8]) -> bool
    ensures { result ≡ bytes_eq name.now word.now }
{
    name == word
}

// The kind of a type's name.
fn kind_of_type(name: &[u8]) -> Option<Kind>
    ensures { result ≡ spec.kind_of_type name.now }
{
    if is_text(name, b"string") {
        Some(Kind::Text)
    } else if is_text(name, b"int") || is_text(name, b"integer") {
        Some(Kind::Int)
    } else if is_text(name, b"boolean") {
        Some(Kind::Bool)
    } else if is_text(name, b"dateTime") || is_text(name, b"date") {
        Some(Kind::Time)
    } else {
        None
    }
}

/// The kind that an Iri names as a type.
pub fn kind_of(token: &Piece) -> Option<Kind>
    ensures { result ≡ spec.kind_meant (tok token.now) }
{
    if !is_an_iri(token) {
        return None;
    }
    match type_name(token.text.as_bytes()) {
        None => None,
        Some(name) => kind_of_type(name),
    }
}

/// Whether a group deletes, by its word.
pub fn group_of(token: &Piece) -> Option<bool>
    ensures { result ≡ spec.group_meant (tok token.now) }
{
    if is_a_word(token, "set") {
        Some(false)
    } else if is_a_word(token, "delete") {
        Some(true)
    } else {
        None
    }
}
