// Fields, read from tokens.
ghost use Rattle.std.specs.Prelude.{◌≡◌, ◌&&◌, not, false, None, [], IfOk, IfErr};
ghost use Rattle.dg_text.specs.declared.reading.ReadError.TheVariants as errors;
ghost use Rattle.dg_text.specs.Cases.{Gives, left_of, refused_at, optional};
ghost use Rattle.dg_text.specs.Marks.{open_curly};
ghost use Rattle.dg_text.specs.Reading.{next};
ghost use Rattle.dg_text.specs.Tokens.{toks, is_punct};
ghost use Rattle.dg_parse.specs.Directives.{all_dirs};
ghost use Rattle.dg_parse.specs.Fields as spec;
ghost use Rattle.dg_parse.specs.Keys.{edge_text, is_key};
ghost use Rattle.dg_parse.specs.Sizes.{AreFew};

use crate::arguments::any_args_at;
use crate::directives::{Marks, Owner, dirs_at};
use crate::fronts::{aggregate_begins, field_begins, front_at, past_comma};
use crate::items::{Around, Start, agg_item_at, count_item_at, uid_item_at, val_item_at};
use crate::keys::key_of_edge;
use crate::listed::Fields;
use crate::names::edge_at;
use crate::{QEdge, QField, QItem};
use dg_text::choices::{next_is_punct, next_is_word};
use dg_text::passed::{Passed, mark_at, refuse, stopped};
use dg_text::reading::left;
use dg_text::{Piece, ReadError};
use dg_values::List;
use std::alloc::Global;

// Refuses an edge that has no alias where a field before has its key.
fn refuse_edge(
    alloc: Global,
    s: Start,
    before: &Fields,
    edge: &QEdge,
    p: Passed,
) -> Result<Passed, ReadError>
    ensures made { IfOk result (λ q. q ≡ refused_at p s.place (not s.has_alias && is_key before.now (edge_text edge.now))) }
    ensures memory { IfErr result (λ e. e ≡ errors.OutOfMemory) }
{
    let second = if edge.back {
        before.has_key(&key_of_edge(alloc, edge)?)
    } else {
        before.has_key(&edge.pred)
    };
    Ok(refuse(p, s.place, !s.has_alias && second))
}

// The directives of an edge.
fn edge_dirs_at(
    alloc: Global,
    around: Around,
    tokens: &[Piece],
    p: Passed,
) -> Result<(Marks, Passed), ReadError>
    requires { AreFew (toks tokens.now) }
    ensures { Gives (λ x. x) (toks tokens.now) result (all_dirs (record { block = false; has_func = around.has_func; recurse = around.recurse; as_place = 0 }) (left_of (toks tokens.now) p)) }
{
    let owner = Owner {
        block: false,
        has_func: around.has_func,
        recurse: around.recurse,
        as_place: 0,
    };
    dirs_at(alloc, owner, tokens, p)
}

// The fields in braces.
#[tactic(auto, unfolding(crate::specs::Fields::braces))]
#[cycle(fields)]
fn braces_at(
    alloc: Global,
    around: Around,
    depth: u32,
    tokens: &[Piece],
    p: Passed,
) -> Result<(Option<List<QField>>, Passed), ReadError>
    requires { AreFew (toks tokens.now) }
    ensures { Gives (λ x. x) (toks tokens.now) result (spec.braces around (spec.fields around depth) (left_of (toks tokens.now) p)) }
{
    let p = refuse(
        p,
        left(tokens, p.at),
        next_is_punct(tokens, p.at, b'{') && around.recurse,
    );
    let (_, p) = mark_at(tokens, p, b'{')?;
    let (fields, p) = fields_at(alloc, around, depth, tokens, p)?;
    let (_, p) = mark_at(tokens, p, b'}')?;
    Ok((Some(fields), p))
}

// The fields in braces, where braces come next.
#[cycle(fields)]
fn any_braces_at(
    alloc: Global,
    around: Around,
    depth: u32,
    tokens: &[Piece],
    p: Passed,
) -> Result<(Option<List<QField>>, Passed), ReadError>
    requires { AreFew (toks tokens.now) }
    ensures { Gives (λ x. x) (toks tokens.now) result (optional (next (is_punct open_curly)) (spec.braces around (spec.fields around depth)) None (left_of (toks tokens.now) p)) }
{
    if next_is_punct(tokens, p.at, b'{') {
        braces_at(alloc, around, depth, tokens, p)
    } else {
        Ok((None, p))
    }
}

// An edge.
#[tactic(auto, unfolding(crate::specs::Fields::edge_item))]
#[cycle(fields)]
fn edge_item_at(
    alloc: Global,
    around: Around,
    depth: u32,
    s: Start,
    before: &Fields,
    tokens: &[Piece],
    p: Passed,
) -> Result<(QItem, Passed), ReadError>
    requires { AreFew (toks tokens.now) }
    ensures { Gives (λ x. x) (toks tokens.now) result (spec.edge_item around (spec.fields around depth) s before.now (left_of (toks tokens.now) p)) }
{
    let (edge, p) = edge_at(alloc, tokens, p)?;
    let p = refuse_edge(alloc, s, before, &edge, p)?;
    let (args, p) = any_args_at(alloc, tokens, p)?;
    let (marks, p) = edge_dirs_at(alloc, around, tokens, p)?;
    let (fields, p) = any_braces_at(alloc, around, depth, tokens, p)?;
    let item = QItem::Edge {
        edge,
        args,
        dirs: marks.dirs,
        fields,
    };
    Ok((item, p))
}

// An item.
#[tactic(auto, unfolding(crate::specs::Fields::item))]
#[cycle(fields)]
fn item_at(
    alloc: Global,
    around: Around,
    depth: u32,
    s: Start,
    before: &Fields,
    tokens: &[Piece],
    p: Passed,
) -> Result<(QItem, Passed), ReadError>
    requires { AreFew (toks tokens.now) }
    ensures { Gives (λ x. x) (toks tokens.now) result (spec.item around (spec.fields around depth) s before.now (left_of (toks tokens.now) p)) }
{
    if next_is_word(tokens, p.at, "uid") {
        uid_item_at(alloc, s, before, tokens, p)
    } else if next_is_word(tokens, p.at, "count") {
        count_item_at(alloc, around, s, before, tokens, p)
    } else if next_is_word(tokens, p.at, "val") {
        val_item_at(alloc, s, before, tokens, p)
    } else if aggregate_begins(tokens, p.at) {
        agg_item_at(alloc, s, before, tokens, p)
    } else {
        edge_item_at(alloc, around, depth, s, before, tokens, p)
    }
}

// The fields before with the next one.
#[tactic(auto, unfolding(crate::specs::Fields::field))]
#[cycle(fields)]
fn field_at(
    alloc: Global,
    around: Around,
    depth: u32,
    before: Fields,
    tokens: &[Piece],
    p: Passed,
) -> Result<(Fields, Passed), ReadError>
    requires { AreFew (toks tokens.now) }
    ensures { Gives (λ x. x) (toks tokens.now) result (spec.field around (spec.fields around depth) before (left_of (toks tokens.now) p)) }
{
    let (front, p) = front_at(alloc, around, &before, tokens, p)?;
    let (item, p) = item_at(alloc, around, depth, front.start, &before, tokens, p)?;
    let p = past_comma(tokens, p);
    let field = QField {
        var: front.var,
        alias: front.alias,
        item,
    };
    let all = before.with(alloc, field)?;
    Ok((all, p))
}

// All fields from a place on.
#[tactic(auto, using(dg_text::proofs::Turns::goes_on, dg_text::proofs::Turns::ends, dg_text::proofs::Turns::stops, dg_text::proofs::Turns::is_done))]
#[cycle(fields)]
fn all_fields_at(
    alloc: Global,
    around: Around,
    depth: u32,
    tokens: &[Piece],
    start: Passed,
) -> Result<(Fields, Passed), ReadError>
    requires { AreFew (toks tokens.now) }
    ensures { Gives (λ x. x) (toks tokens.now) result (spec.some_fields around (spec.fields around depth) (left_of (toks tokens.now) start)) }
{
    let most = left(tokens, start.at);
    let mut all = Fields::none(alloc);
    let mut p = start;
    for _ in 0..most {
        if !field_begins(tokens, p.at) {
            return Ok((all, p));
        }
        let (more, after) = field_at(alloc, around, depth, all, tokens, p)?;
        all = more;
        p = after;
    }
    Ok((all, p))
}

/// The fields of a list, with braces at most so deep.
#[tactic(auto, unfolding(crate::specs::Fields::fields))]
#[cycle(fields)]
pub fn fields_at(
    alloc: Global,
    around: Around,
    depth: u32,
    tokens: &[Piece],
    p: Passed,
) -> Result<(List<QField>, Passed), ReadError>
    requires { AreFew (toks tokens.now) }
    ensures { Gives (λ x. x) (toks tokens.now) result (spec.fields around depth (left_of (toks tokens.now) p)) }
{
    if depth == 0 {
        return Err(stopped(tokens, p));
    }
    let (all, p) = all_fields_at(alloc, around, depth - 1, tokens, p)?;
    Ok((all.into_list(), p))
}
