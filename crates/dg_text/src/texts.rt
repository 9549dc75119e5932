// Texts that tokens say, in memory of their own.
ghost use Rattle.std.specs.Prelude.{◌≡◌, ◌≤◌, ◌<◌, ◌++◌, length, IfOk, IfErr, IfSome};
ghost use Rattle.std.specs.Option.{option_map};
ghost use Rattle.dg_text.specs.declared.reading.ReadError.TheVariants as errors;
ghost use Rattle.dg_text.specs.Tokens.{tok};
ghost use Rattle.dg_text.specs.Escapes as escapes;
ghost use Rattle.dg_text.specs.Said as spec;
ghost use Rattle.dg_text.specs.Words.{name_meant};

use crate::escapes::unquoted;
use crate::kinds::is_a_quoted;
use crate::reading::ReadError;
use crate::token::Piece;
use crate::words::name_of;
use dg_values::{OutOfMemory, Str};
use std::alloc::Global;

/// A text of its own.
pub fn owned(alloc: Global, text: &str) -> Result<Str, ReadError>
    ensures made { IfOk result (λ name. name ≡ text.now) }
    ensures memory { IfErr result (λ e. e ≡ errors.OutOfMemory) }
{
    match Str::from_str(alloc, text) {
        Ok(name) => Ok(name),
        Err(OutOfMemory) => Err(ReadError::OutOfMemory),
    }
}

/// A text with more behind it.
pub fn joined(text: Str, more: &str) -> Result<Str, ReadError>
    ensures made { IfOk result (λ s. s ≡ text ++ more.now) }
    ensures memory { IfErr result (λ e. e ≡ errors.OutOfMemory) }
{
    let mut text = text;
    match text.push_str(more) {
        Ok(()) => Ok(text),
        Err(OutOfMemory) => Err(ReadError::OutOfMemory),
    }
}

/// What stands behind an ASCII character at the front.
pub fn after(text: &str, c: char) -> Option<&str>
    requires { c < 128 }
    ensures rest { option_map (λ s. s.now) result ≡ spec.after c text.now }
    ensures short { IfSome result (λ s. length s.now ≤ length text.now) }
{
    text.strip_prefix(c)
}

/// What stands before an ASCII character at the end.
pub fn before(text: &str, c: char) -> Option<&str>
    requires { c < 128 }
    ensures rest { option_map (λ s. s.now) result ≡ spec.before c text.now }
    ensures short { IfSome result (λ s. length s.now ≤ length text.now) }
{
    text.strip_suffix(c)
}

/// The name of a Blank, which stands behind its `_:`.
pub fn blank_name(text: &str) -> Option<&str>
    ensures { option_map (λ s. s.now) result ≡ spec.blank_name text.now }
{
    match after(text, '_') {
        None => None,
        Some(rest) => after(rest, ':'),
    }
}

/// What stands between the quotes of a Quoted.
pub fn between_quotes(text: &str) -> Option<&str>
    ensures inner { option_map (λ s. s.now) result ≡ spec.between_quotes text.now }
    ensures short { IfSome result (λ s. length s.now ≤ length text.now) }
{
    match after(text, '"') {
        None => None,
        Some(rest) => before(rest, '"'),
    }
}

// What stands between the quotes of a Quoted, with each escape read.
fn unescaped(alloc: Global, inner: &str) -> Result<Str, ReadError>
    requires { length inner.now ≤ 1048576 }
    ensures made { IfOk result (λ text. text ≡ escapes.unescaped inner.now) }
    ensures memory { IfErr result (λ e. e ≡ errors.OutOfMemory) }
{
    match unquoted(alloc, inner) {
        Ok(text) => Ok(Str::from_string(text)),
        Err(OutOfMemory) => Err(ReadError::OutOfMemory),
    }
}

/// What a Quoted says.
pub fn quoted_of(alloc: Global, token: &Piece) -> Result<Option<Str>, ReadError>
    requires { length token.now.text.now ≤ 1048576 }
    ensures made { IfOk result (λ text. text ≡ spec.quoted_meant (tok token.now)) }
    ensures memory { IfErr result (λ e. e ≡ errors.OutOfMemory) }
{
    if !is_a_quoted(token) {
        return Ok(None);
    }
    match between_quotes(token.text) {
        None => Ok(None),
        Some(inner) => Ok(Some(unescaped(alloc, inner)?)),
    }
}

/// The characters of a Name.
pub fn owned_name_of(alloc: Global, token: &Piece) -> Result<Option<Str>, ReadError>
    ensures made { IfOk result (λ text. text ≡ name_meant (tok token.now)) }
    ensures memory { IfErr result (λ e. e ≡ errors.OutOfMemory) }
{
    match name_of(token) {
        None => Ok(None),
        Some(name) => Ok(Some(owned(alloc, name)?)),
    }
}
