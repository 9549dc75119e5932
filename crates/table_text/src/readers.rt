// What reads one token, or the name at a place.
ghost use Rattle.std.specs.Prelude.{◌≤◌, length};

use crate::MOST;
use crate::pictures::plain;
use crate::tokens::kind_text;
use dg_text::choices::{next_is_at, next_is_name, next_is_punct};
use dg_text::kinds::{is_a_name, is_a_punct, is_an_at, is_an_iri};
use dg_text::pieces::pieces;
use dg_text::reading::{left, peek};
use dg_text::single::punct;
use dg_text::{Piece, ReadError, lex, name_len};
use dg_values::Mem;
use std::alloc::Global;

// How many bytes of a text make a name, from a place on. The fields are the place and the text.
pub(crate) fn name(alloc: Global, fields: &str) -> Mem<Option<String>> {
    let Some((place, text)) = fields.split_once('\t') else {
        return Ok(None);
    };
    let Ok(place) = place.parse::<usize>() else {
        return Ok(None);
    };
    let text = plain(alloc, text)?;
    let len = name_len(text.as_bytes(), place);
    Ok(Some(format!(in alloc; "{len} bytes")?))
}

// What readers answer at a token. The fields are its place among the tokens, a punctuation byte that is asked for, and
// the text.
pub(crate) fn next(alloc: Global, fields: &str) -> Mem<Option<String>> {
    let Some((place, rest)) = fields.split_once('\t') else {
        return Ok(None);
    };
    let Some((sign, text)) = rest.split_once('\t') else {
        return Ok(None);
    };
    let (Ok(place), Some(byte)) = (place.parse::<usize>(), sign.as_bytes().first()) else {
        return Ok(None);
    };
    let text = plain(alloc, text)?;
    if text.len() > MOST {
        return Ok(None);
    }
    next_in(alloc, text.as_str(), place, *byte)
}

fn next_in(alloc: Global, text: &str, place: usize, byte: u8) -> Mem<Option<String>>
    requires { length text.now ≤ 1048576 }
{
    let Ok(tokens) = lex(alloc, text) else {
        return Ok(None);
    };
    let pieces = pieces(alloc, text, tokens.as_slice())?;
    Ok(Some(next_text(alloc, pieces.as_slice(), place, byte)?))
}

fn next_text(alloc: Global, tokens: &[Piece], place: usize, byte: u8) -> Mem<String> {
    let seen = seen(alloc, tokens, place, byte)?;
    let name = next_is_name(tokens, place);
    let at = next_is_at(tokens, place);
    let sign = next_is_punct(tokens, place, byte);
    let left = left(tokens, place);
    let skipped = skipped(alloc, tokens, place, byte)?;
    Ok(format!(in alloc; "{seen}; next name {name} at {at} sign {sign}; left {left}; {skipped}")?)
}

// The token that `peek` gives, and what it is.
fn seen(alloc: Global, tokens: &[Piece], place: usize, byte: u8) -> Mem<String> {
    let Some(token) = peek(tokens, place) else {
        return Ok(String::from_str(alloc, "the end")?);
    };
    let kind = kind_text(alloc, token.kind)?;
    let name = is_a_name(token);
    let iri = is_an_iri(token);
    let at = is_an_at(token);
    let sign = is_a_punct(token, byte);
    Ok(format!(in alloc;
        "{kind} {}, name {name} iri {iri} at {at} sign {sign}",
        token.text
    )?)
}

// What `punct` answers.
fn skipped(alloc: Global, tokens: &[Piece], place: usize, byte: u8) -> Mem<String> {
    match punct(tokens, place, byte) {
        Ok((_, after)) => Ok(format!(in alloc; "past it at {after}")?),
        Err(ReadError::Fault { left }) => Ok(format!(in alloc; "fault with {left} left")?),
        Err(ReadError::OutOfMemory) => Ok(String::from_str(alloc, "out of memory")?),
    }
}
