// What stands in front of an item, and how an item begins, read from tokens.
ghost use Rattle.std.specs.Prelude.{◌≡◌, ◌&&◌, not, length, drop, Ok};
ghost use Rattle.dg_text.specs.Cases.{Gives, left_of, refused_at};
ghost use Rattle.dg_text.specs.Tokens.{toks};
ghost use Rattle.dg_parse.specs.Fields as spec;

use crate::items::{Around, Start};
use crate::listed::Fields;
use crate::names::{any_alias_at, any_variable_at};
use crate::words::aggregate_of;
use dg_text::kinds::{is_a_name, is_a_punct};
use dg_text::passed::{Passed, refuse};
use dg_text::reading::{left, peek};
use dg_text::{Piece, ReadError};
use dg_values::Str;
use std::alloc::Global;

/// The variable and the alias of a field, and where its item begins.
#[derive(Debug, Drop)]
pub struct Front {
    /// The variable that it defines.
    pub var: Option<Str>,
    /// The key that it names.
    pub alias: Option<Str>,
    /// What the item is to know of them.
    pub start: Start,
}

/// Whether an aggregate begins at the place.
pub fn aggregate_begins(tokens: &[Piece], at: usize) -> bool
    ensures { result ≡ spec.begins_aggregate (drop at (toks tokens.now)) }
{
    peek(tokens, at).is_some_and(|t| aggregate_of(t).is_some())
}

// Whether an item that is no aggregate begins at the place.
fn other_begins(tokens: &[Piece], at: usize) -> bool
    ensures { result ≡ spec.begins_other (drop at (toks tokens.now)) }
{
    match peek(tokens, at) {
        None => false,
        Some(t) => (is_a_name(t) || is_a_punct(t, b'~')) && aggregate_of(t).is_none(),
    }
}

/// Whether a field begins at the place.
pub fn field_begins(tokens: &[Piece], at: usize) -> bool
    ensures { result ≡ spec.begins_field (drop at (toks tokens.now)) }
{
    peek(tokens, at).is_some_and(|t| is_a_name(t) || is_a_punct(t, b'~'))
}

/// The place behind a comma, where one comes next.
pub fn past_comma(tokens: &[Piece], p: Passed) -> Passed
    ensures { spec.any_comma (left_of (toks tokens.now) p) ≡ Ok (tt, left_of (toks tokens.now) result) }
{
    match peek(tokens, p.at) {
        None => p,
        Some(token) => {
            if is_a_punct(token, b',') {
                Passed {
                    at: p.at + 1,
                    refused: p.refused,
                }
            } else {
                p
            }
        }
    }
}

// Refuses what may not begin an item in the block.
fn refuse_item(around: Around, tokens: &[Piece], p: Passed) -> Passed
    ensures { result ≡ refused_at (refused_at p (length (drop p.at (toks tokens.now))) (spec.begins_aggregate (drop p.at (toks tokens.now)) && around.has_func)) (length (drop p.at (toks tokens.now))) (spec.begins_other (drop p.at (toks tokens.now)) && not around.has_func) }
{
    let place = left(tokens, p.at);
    let p = refuse(p, place, aggregate_begins(tokens, p.at) && around.has_func);
    refuse(p, place, other_begins(tokens, p.at) && !around.has_func)
}

/// What stands in front of an item.
#[tactic(auto, unfolding(crate::specs::Fields::front))]
pub fn front_at(
    alloc: Global,
    around: Around,
    before: &Fields,
    tokens: &[Piece],
    p: Passed,
) -> Result<(Front, Passed), ReadError>
    ensures { Gives (λ x. x) (toks tokens.now) result (spec.front around before.now (left_of (toks tokens.now) p)) }
{
    let ((var, as_place), p) = any_variable_at(alloc, tokens, p)?;
    let has_var = var.is_some();
    let p = refuse(p, as_place, has_var && (!around.has_func || around.recurse));
    let (alias, p) = any_alias_at(alloc, tokens, p)?;
    let has_alias = alias.is_some();
    let place = left(tokens, p.at);
    let p = refuse(p, place, before.has_alias(&alias));
    let p = refuse_item(around, tokens, p);
    let start = Start {
        has_var,
        as_place,
        has_alias,
        place,
    };
    Ok((Front { var, alias, start }, p))
}
