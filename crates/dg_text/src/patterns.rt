// The patterns of Regex tokens.
ghost use Rattle.std.specs.Prelude.{◌≡◌, ◌≤◌, ◌<◌, ◌++◌, ◌∷◌, [], length, is_some, IfOk, IfErr, IfSome};
ghost use Rattle.std.specs.Option.{option_map, MatchOption};
ghost use Rattle.dg_text.specs.declared.reading.ReadError.TheVariants as errors;
ghost use Rattle.dg_text.specs.Tokens.{tok};
ghost use Rattle.dg_text.specs.Said as plain;
ghost use Rattle.dg_text.specs.Patterns.{Lacks, unslashed, without_i, between_slashes, regex_meant};

use crate::kinds::is_a_regex;
use crate::reading::ReadError;
use crate::texts::{after, before, joined, owned};
use crate::token::Piece;
use dg_values::Str;
use std::alloc::Global;

// The text before the first slash, and the text behind it.
fn cut(text: &str) -> Option<(&str, &str)>
    ensures cut { MatchOption result (Lacks text.now) (λ x. Lacks x.0.now × (text.now ≡ x.0.now ++ 47 ∷ x.1.now)) }
    ensures shorter { IfSome result (λ x. length x.1.now < length text.now) }
{
    text.split_once('/')
}

// The text before a slash without the backslash at its end.
#[tactic(auto, using(crate::proofs::Slashes::kept_shorter))]
fn kept(front: &str) -> &str
    requires { Lacks front.now }
    ensures { result.now ++ 47 ∷ [] ≡ unslashed (front.now ++ 47 ∷ []) }
{
    match front.strip_suffix('\\') {
        Some(shorter) => shorter,
        None => front,
    }
}

// A pattern without each backslash before a slash. Each turn takes a slash, so there are no more of them than bytes.
#[tactic(auto, using(crate::proofs::Slashes::goes_on, crate::proofs::Slashes::ends, crate::proofs::Slashes::is_done))]
fn unslash(alloc: Global, text: &str) -> Result<Str, ReadError>
    ensures made { IfOk result (λ s. s ≡ unslashed text.now) }
    ensures memory { IfErr result (λ e. e ≡ errors.OutOfMemory) }
{
    let mut out = owned(alloc, "")?;
    let mut rest = text;
    for _ in 0..text.len() {
        match cut(rest) {
            None => return joined(out, rest),
            Some((front, behind)) => {
                let more = joined(out, kept(front))?;
                out = joined(more, "/")?;
                rest = behind;
            }
        }
    }
    joined(out, rest)
}

// A text without `i` at its end.
fn without_i_of(text: &str) -> &str
    ensures { result.now ≡ without_i text.now }
{
    match before(text, 'i') {
        Some(shorter) => shorter,
        None => text,
    }
}

// Whether a text ends in `i`.
fn ends_in_i(text: &str) -> bool
    ensures { result ≡ is_some (plain.before 105 text.now) }
{
    before(text, 'i').is_some()
}

// The text of a Regex between its slashes.
fn inner_of(text: &str) -> Option<&str>
    ensures { option_map (λ s. s.now) result ≡ between_slashes text.now }
{
    match after(text, '/') {
        None => None,
        Some(rest) => before(without_i_of(rest), '/'),
    }
}

/// The pattern of a Regex, and whether it goes without regard to case.
pub fn regex_of(alloc: Global, token: &Piece) -> Result<Option<(Str, bool)>, ReadError>
    ensures made { IfOk result (λ r. r ≡ regex_meant (tok token.now)) }
    ensures memory { IfErr result (λ e. e ≡ errors.OutOfMemory) }
{
    if !is_a_regex(token) {
        return Ok(None);
    }
    match inner_of(token.text) {
        None => Ok(None),
        Some(inner) => {
            let pattern = unslash(alloc, inner)?;
            Ok(Some((pattern, ends_in_i(token.text))))
        }
    }
}
