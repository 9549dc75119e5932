// Items without braces, read from tokens.
ghost use Rattle.std.specs.Prelude.{◌≡◌, ◌&&◌, not};
ghost use Rattle.dg_text.specs.Cases.{Gives, left_of, refused_at};
ghost use Rattle.dg_text.specs.Tokens.{toks};
ghost use Rattle.dg_parse.specs.Fields as spec;
ghost use Rattle.dg_parse.specs.Keys.{is_key};

use crate::QItem;
use crate::keys::{key_of_agg, key_of_count, key_of_val};
use crate::listed::Fields;
use crate::names::{edge_at, round_name_at, val_at};
use crate::tokens::aggregate_at;
use dg_text::choices::next_is_word;
use dg_text::passed::{Passed, mark_at, refuse, word_at};
use dg_text::texts::owned;
use dg_text::{Piece, ReadError};
use dg_values::Str;
use std::alloc::Global;

/// What is known of the block in which a field stands.
#[derive(Clone, Copy, Debug)]
pub struct Around {
    /// Whether it has a function.
    pub has_func: bool,
    /// Whether it has `@recurse`.
    pub recurse: bool,
}

/// What stands in front of an item.
#[derive(Clone, Copy, Debug)]
pub struct Start {
    /// Whether a variable is defined.
    pub has_var: bool,
    /// The place of its `as`.
    pub as_place: usize,
    /// Whether a key is named.
    pub has_alias: bool,
    /// The place of the item.
    pub place: usize,
}

/// Refuses an item that has no alias where a field before has its key.
pub fn refuse_key(s: Start, before: &Fields, key: Str, p: Passed) -> Passed
    ensures { result ≡ refused_at p s.place (not s.has_alias && is_key before.now key) }
{
    refuse(p, s.place, !s.has_alias && before.has_key(&key))
}

/// `uid`.
#[tactic(auto, unfolding(crate::specs::Fields::uid_item))]
pub fn uid_item_at(
    alloc: Global,
    s: Start,
    before: &Fields,
    tokens: &[Piece],
    p: Passed,
) -> Result<(QItem, Passed), ReadError>
    ensures { Gives (λ x. x) (toks tokens.now) result (spec.uid_item s before.now (left_of (toks tokens.now) p)) }
{
    let (_, p) = word_at(tokens, p, "uid")?;
    let key = owned(alloc, "uid")?;
    let p = refuse_key(s, before, key, p);
    Ok((QItem::Uid, p))
}

// `count(uid)` behind its `(`.
#[tactic(auto, unfolding(crate::specs::Fields::count_uid))]
fn count_uid_at(
    alloc: Global,
    around: Around,
    s: Start,
    before: &Fields,
    tokens: &[Piece],
    p: Passed,
) -> Result<(QItem, Passed), ReadError>
    ensures { Gives (λ x. x) (toks tokens.now) result (spec.count_uid around s before.now (left_of (toks tokens.now) p)) }
{
    let (_, p) = word_at(tokens, p, "uid")?;
    let (_, p) = mark_at(tokens, p, b')')?;
    let p = refuse(p, s.as_place, s.has_var);
    let p = refuse(p, s.place, around.recurse);
    let key = owned(alloc, "count")?;
    let p = refuse_key(s, before, key, p);
    Ok((QItem::CountUid, p))
}

// `count` of an edge behind its `(`.
#[tactic(auto, unfolding(crate::specs::Fields::count_edge))]
fn count_edge_at(
    alloc: Global,
    s: Start,
    before: &Fields,
    tokens: &[Piece],
    p: Passed,
) -> Result<(QItem, Passed), ReadError>
    ensures { Gives (λ x. x) (toks tokens.now) result (spec.count_edge s before.now (left_of (toks tokens.now) p)) }
{
    let (edge, p) = edge_at(alloc, tokens, p)?;
    let (_, p) = mark_at(tokens, p, b')')?;
    let key = key_of_count(alloc, &edge)?;
    let p = refuse_key(s, before, key, p);
    Ok((QItem::Count(edge), p))
}

/// `count`.
#[tactic(auto, unfolding(crate::specs::Fields::count_item))]
pub fn count_item_at(
    alloc: Global,
    around: Around,
    s: Start,
    before: &Fields,
    tokens: &[Piece],
    p: Passed,
) -> Result<(QItem, Passed), ReadError>
    ensures { Gives (λ x. x) (toks tokens.now) result (spec.count_item around s before.now (left_of (toks tokens.now) p)) }
{
    let (_, p) = word_at(tokens, p, "count")?;
    let (_, p) = mark_at(tokens, p, b'(')?;
    if next_is_word(tokens, p.at, "uid") {
        count_uid_at(alloc, around, s, before, tokens, p)
    } else {
        count_edge_at(alloc, s, before, tokens, p)
    }
}

/// `val` of a variable.
#[tactic(auto, unfolding(crate::specs::Fields::val_item))]
pub fn val_item_at(
    alloc: Global,
    s: Start,
    before: &Fields,
    tokens: &[Piece],
    p: Passed,
) -> Result<(QItem, Passed), ReadError>
    ensures { Gives (λ x. x) (toks tokens.now) result (spec.val_item s before.now (left_of (toks tokens.now) p)) }
{
    let (_, p) = word_at(tokens, p, "val")?;
    let p = refuse(p, s.as_place, s.has_var);
    let (x, p) = round_name_at(alloc, tokens, p)?;
    let key = key_of_val(alloc, &x)?;
    let p = refuse_key(s, before, key, p);
    Ok((QItem::Val(x), p))
}

/// `min`, `max` or `sum` of a variable.
#[tactic(auto, unfolding(crate::specs::Fields::agg_item))]
pub fn agg_item_at(
    alloc: Global,
    s: Start,
    before: &Fields,
    tokens: &[Piece],
    p: Passed,
) -> Result<(QItem, Passed), ReadError>
    ensures { Gives (λ x. x) (toks tokens.now) result (spec.agg_item s before.now (left_of (toks tokens.now) p)) }
{
    let (op, p) = aggregate_at(tokens, p)?;
    let (_, p) = mark_at(tokens, p, b'(')?;
    let (var, p) = val_at(alloc, tokens, p)?;
    let (_, p) = mark_at(tokens, p, b')')?;
    let key = key_of_agg(alloc, op, &var)?;
    let p = refuse_key(s, before, key, p);
    Ok((QItem::Agg { op, var }, p))
}
