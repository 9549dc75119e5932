// What words, numbers and brackets are among the tokens of a text.
ghost use Rattle.std.specs.Prelude.{◌≤◌, length};
ghost use Rattle.dg_text.specs.Sizes.{AreSmall};
ghost use Rattle.dg_text.specs.Tokens.{toks};

use crate::MOST;
use crate::pictures::plain;
use dg_text::brackets::too_deep;
use dg_text::choices::{
    next_are_name_and_punct, next_are_name_and_word, next_is_reserved_name, next_is_wide_int,
    next_is_word, next_is_word_any_case,
};
use dg_text::pieces::pieces;
use dg_text::places::offset_at;
use dg_text::reading::peek;
use dg_text::{Piece, lex, numbers, words};
use dg_values::Mem;
use std::alloc::Global;

// What stands at a token. The fields are its place among the tokens, a word that is asked for, and the text.
pub(crate) fn word(alloc: Global, fields: &str) -> Mem<Option<String>> {
    let Some((place, rest)) = fields.split_once('\t') else {
        return Ok(None);
    };
    let Some((word, text)) = rest.split_once('\t') else {
        return Ok(None);
    };
    let Ok(place) = place.parse::<usize>() else {
        return Ok(None);
    };
    let text = plain(alloc, text)?;
    if text.len() > MOST {
        return Ok(None);
    }
    let Ok(tokens) = lex(alloc, text.as_str()) else {
        return Ok(None);
    };
    let pieces = pieces(alloc, text.as_str(), tokens.as_slice())?;
    Ok(Some(word_text(alloc, pieces.as_slice(), place, word)?))
}

fn word_text(alloc: Global, tokens: &[Piece], at: usize, word: &str) -> Mem<String> {
    let is = next_is_word(tokens, at, word);
    let any_case = next_is_word_any_case(tokens, at, word);
    let reserved = next_is_reserved_name(tokens, at);
    let before_word = next_are_name_and_word(tokens, at, word);
    let before_colon = next_are_name_and_punct(tokens, at, b':');
    let said = said(alloc, tokens, at)?;
    Ok(format!(in alloc;
        "word {is} any case {any_case} reserved {reserved} before it {before_word} before : {before_colon}; {said}"
    )?)
}

// The node, number or predicate that a token says.
fn said(alloc: Global, tokens: &[Piece], at: usize) -> Mem<String> {
    let Some(token) = peek(tokens, at) else {
        return Ok(String::from_str(alloc, "the end")?);
    };
    if let Some(uid) = numbers::uid_of(token) {
        return Ok(format!(in alloc; "node 0x{uid:x}")?);
    }
    if let Some(number) = numbers::int_of(token) {
        return Ok(format!(in alloc; "number {number}")?);
    }
    if next_is_wide_int(tokens, at) {
        return Ok(String::from_str(alloc, "a wide number")?);
    }
    match words::predicate_of(token) {
        Some(name) => Ok(format!(in alloc; "predicate {name}")?),
        None => Ok(String::from_str(alloc, "none of these")?),
    }
}

// Where more than so many brackets stand open first. The fields are the number, and the text.
pub(crate) fn deep(alloc: Global, fields: &str) -> Mem<Option<String>> {
    let Some((most, text)) = fields.split_once('\t') else {
        return Ok(None);
    };
    let Ok(most) = most.parse::<usize>() else {
        return Ok(None);
    };
    let text = plain(alloc, text)?;
    if text.len() > MOST {
        return Ok(None);
    }
    deep_in(alloc, text.as_str(), most)
}

#[tactic(auto, using(dg_text::proofs::Small::are_small))]
fn deep_in(alloc: Global, text: &str, most: usize) -> Mem<Option<String>>
    requires { length text.now ≤ 1048576 }
{
    let Ok(tokens) = lex(alloc, text) else {
        return Ok(None);
    };
    let pieces = pieces(alloc, text, tokens.as_slice())?;
    Ok(Some(deep_text(alloc, pieces.as_slice(), text.len(), most)?))
}

fn deep_text(alloc: Global, tokens: &[Piece], end: usize, most: usize) -> Mem<String>
    requires small { AreSmall (toks tokens.now) }
    requires end { end ≤ 1048576 }
{
    match too_deep(tokens, most) {
        None => Ok(String::from_str(alloc, "nowhere")?),
        Some(place) => {
            let offset = offset_at(tokens, end, place);
            Ok(format!(in alloc; "too deep at byte {offset}")?)
        }
    }
}
