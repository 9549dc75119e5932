// What the lexer makes of a text.
ghost use Rattle.std.specs.Prelude.{◌≤◌, length};

use crate::pictures::pictured;
use dg_text::{LexFault, Piece, Token, TokenKind, lex, unescape};
use dg_values::Mem;
use std::alloc::Global;
use std::fmt::Write;

// The tokens by their kinds and places, or why there are none.
pub(crate) fn tokens(alloc: Global, text: &str) -> Mem<Option<String>>
    requires { length text.now ≤ 1048576 }
{
    match lex(alloc, text) {
        Ok(tokens) => Ok(Some(list_of(alloc, tokens.as_slice())?)),
        Err(fault) => refused(alloc, fault),
    }
}

// The tokens up to the first byte that begins none, and the place of that byte or of the end.
pub(crate) fn front(alloc: Global, text: &str) -> Mem<Option<String>>
    requires { length text.now ≤ 1048576 }
{
    match dg_text::front(alloc, text.as_bytes()) {
        Ok((tokens, end)) => {
            let tokens = list_of(alloc, tokens.as_slice())?;
            Ok(Some(format!(in alloc; "{tokens} | end {end}")?))
        }
        Err(error) => Ok(Some(format!(in alloc; "{error:?}")?)),
    }
}

// The tokens by their kinds, with their places and characters.
pub(crate) fn pieces(alloc: Global, text: &str) -> Mem<Option<String>>
    requires { length text.now ≤ 1048576 }
{
    match lex(alloc, text) {
        Ok(tokens) => {
            let pieces = dg_text::pieces::pieces(alloc, text, tokens.as_slice())?;
            Ok(Some(pieces_text(alloc, pieces.as_slice())?))
        }
        Err(fault) => refused(alloc, fault),
    }
}

// What the one token of a text says, which is a Quoted.
pub(crate) fn says(alloc: Global, text: &str) -> Mem<Option<String>>
    requires { length text.now ≤ 1048576 }
{
    match lex(alloc, text) {
        Ok(tokens) => match tokens.as_slice() {
            [token] => said(alloc, unescape(alloc, text, *token)?.as_str()),
            _ => Ok(None),
        },
        Err(fault) => refused(alloc, fault),
    }
}

// What the characters between the quotes of a Quoted say.
pub(crate) fn unquoted(alloc: Global, inner: &str) -> Mem<Option<String>>
    requires { length inner.now ≤ 1048576 }
{
    said(alloc, dg_text::unquoted(alloc, inner)?.as_str())
}

// A text in quotes.
fn said(alloc: Global, text: &str) -> Mem<Option<String>> {
    let shown = pictured(alloc, text)?;
    Ok(Some(format!(in alloc; "\"{shown}\"")?))
}

fn refused(alloc: Global, fault: LexFault) -> Mem<Option<String>> {
    Ok(Some(fault.to_string(alloc)?))
}

fn list_of(alloc: Global, tokens: &[Token]) -> Mem<String> {
    let mut list = String::new(alloc);
    for token in tokens {
        separate(&mut list)?;
        let kind = kind_text(alloc, token.kind)?;
        write!(list, "{kind} {}..{}", token.start, token.end)?;
    }
    or_none(alloc, list)
}

fn pieces_text(alloc: Global, pieces: &[Piece]) -> Mem<String> {
    let mut list = String::new(alloc);
    for piece in pieces {
        separate(&mut list)?;
        let kind = kind_text(alloc, piece.kind)?;
        let text = pictured(alloc, piece.text)?;
        write!(list, "{kind} at {} {text}", piece.start)?;
    }
    or_none(alloc, list)
}

// The comma between what stands there and what comes.
fn separate(list: &mut String) -> Mem<()> {
    if !list.is_empty() {
        list.push_str(", ")?;
    }
    Ok(())
}

fn or_none(alloc: Global, list: String) -> Mem<String> {
    if list.is_empty() {
        return Ok(String::from_str(alloc, "none")?);
    }
    Ok(list)
}

// The name of a kind; of a Punct its byte.
pub(crate) fn kind_text(alloc: Global, kind: TokenKind) -> Mem<String> {
    match kind {
        TokenKind::Punct(byte) => Ok(format!(in alloc; "{}", char::from(byte))?),
        _ => Ok(format!(in alloc; "{kind:?}")?),
    }
}
