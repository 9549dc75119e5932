// The grammar of mutations, read from tokens. A place is the index of a token.
ghost use Rattle.std.specs.Prelude.{◌≡◌, drop, None, [], Ok};
ghost use Rattle.dg_text.specs.Reading.{Gives, one_as, next, skip, repeated, optional};
ghost use Rattle.dg_text.specs.Tokens.{tok, toks, is_caret};
ghost use Rattle.dg_nquad.specs.Grammar as spec;
ghost use Rattle.dg_text.specs.Sizes.{AreSmall};
ghost use Rattle.dg_text.specs.Words.{name_meant, predicate_meant};
ghost use Rattle.dg_text.specs.Said.{quoted_meant};
ghost use Rattle.dg_nquad.specs.Words.{node_meant, kind_meant, group_meant};

use crate::block::Block;
use crate::terms::node_of;
use crate::words::{group_of, kind_of};
use crate::{Node, Object, Statement};
use dg_text::choices::{next_is_caret, next_is_punct, next_is_quoted, next_is_word};
use dg_text::kinds::{is_a_blank, is_a_quoted, is_a_word, is_an_iri};
use dg_text::reading::{left, one_at, one_owned_at, peek};
use dg_text::single::{caret_at, owned_name_at, predicate_at, punct, quoted_at, word_at};
use dg_text::texts::owned;
use dg_text::{Piece, ReadError};
use dg_values::{Kind, List, Str};
use std::alloc::Global;

// The kind that the next token names as a type, and the place behind it.
fn kind_at(tokens: &[Piece], at: usize) -> Result<(Kind, usize), ReadError>
    ensures { Gives (λ kind. kind) (toks tokens.now) result (one_as kind_meant (drop at (toks tokens.now))) }
{
    one_at(tokens, at, |t| kind_of(t))
}

// Whether the group of the next word deletes, and the place behind the word.
fn group_word_at(tokens: &[Piece], at: usize) -> Result<(bool, usize), ReadError>
    ensures { Gives (λ delete. delete) (toks tokens.now) result (one_as group_meant (drop at (toks tokens.now))) }
{
    one_at(tokens, at, |t| group_of(t))
}

// The node that the next token names, and the place behind it.
fn plain_node_at(
    alloc: Global,
    delete: bool,
    tokens: &[Piece],
    at: usize,
) -> Result<(Node, usize), ReadError>
    ensures { Gives (λ node. node) (toks tokens.now) result (one_as (node_meant delete) (drop at (toks tokens.now))) }
{
    one_owned_at(tokens, at, |t| node_of(alloc, delete, t))
}

// The name of the variable between the brackets behind a word. Where no variable may stand, the fault is at the word.
#[tactic(auto, unfolding(crate::specs::Grammar::variable))]
fn variable_at(
    alloc: Global,
    word: &str,
    allowed: bool,
    tokens: &[Piece],
    start: usize,
) -> Result<(Str, usize), ReadError>
    ensures { Gives (λ name. name) (toks tokens.now) result (spec.variable word.now allowed (drop start (toks tokens.now))) }
{
    let (_, at) = word_at(tokens, start, word)?;
    let (_, at) = punct(tokens, at, b'(')?;
    if !allowed {
        return Err(ReadError::Fault {
            left: left(tokens, start),
        });
    }
    let (name, at) = owned_name_at(alloc, tokens, at)?;
    let (_, at) = punct(tokens, at, b')')?;
    Ok((name, at))
}

// The nodes of a variable.
#[tactic(auto, unfolding(crate::specs::Grammar::uid_variable))]
fn uid_variable_at(
    alloc: Global,
    block: Block,
    tokens: &[Piece],
    at: usize,
) -> Result<(Node, usize), ReadError>
    ensures { Gives (λ node. node) (toks tokens.now) result (spec.uid_variable block (drop at (toks tokens.now))) }
{
    let (name, at) = variable_at(alloc, "uid", block.upsert, tokens, at)?;
    Ok((Node::Var(name), at))
}

// A node, by whether the word `uid` comes next.
#[tactic(auto, unfolding(crate::specs::Grammar::node))]
fn node_at(
    alloc: Global,
    block: Block,
    tokens: &[Piece],
    at: usize,
) -> Result<(Node, usize), ReadError>
    ensures { Gives (λ node. node) (toks tokens.now) result (spec.node block (drop at (toks tokens.now))) }
{
    if next_is_word(tokens, at, "uid") {
        uid_variable_at(alloc, block, tokens, at)
    } else {
        plain_node_at(alloc, block.delete, tokens, at)
    }
}

// The kind behind `^^`.
#[tactic(auto, unfolding(crate::specs::Grammar::type_tag))]
fn type_tag_at(tokens: &[Piece], at: usize) -> Result<(Option<Kind>, usize), ReadError>
    ensures { Gives (λ tag. tag) (toks tokens.now) result (spec.type_tag (drop at (toks tokens.now))) }
{
    let (_, at) = caret_at(tokens, at)?;
    let (kind, at) = kind_at(tokens, at)?;
    Ok((Some(kind), at))
}

// The kind behind a text; none where there is no `^^`.
fn tag_at(tokens: &[Piece], at: usize) -> Result<(Option<Kind>, usize), ReadError>
    ensures { Gives (λ tag. tag) (toks tokens.now) result (optional (next is_caret) spec.type_tag None (drop at (toks tokens.now))) }
{
    if next_is_caret(tokens, at) {
        type_tag_at(tokens, at)
    } else {
        Ok((None, at))
    }
}

// A text with its kind.
#[tactic(auto, unfolding(crate::specs::Grammar::literal))]
fn literal_at(alloc: Global, tokens: &[Piece], at: usize) -> Result<(Object, usize), ReadError>
    requires { AreSmall (toks tokens.now) }
    ensures { Gives (λ object. object) (toks tokens.now) result (spec.literal (drop at (toks tokens.now))) }
{
    let (text, at) = quoted_at(alloc, tokens, at)?;
    let (tag, at) = tag_at(tokens, at)?;
    Ok((Object::Literal { text, tag }, at))
}

// The value of a variable.
#[tactic(auto, unfolding(crate::specs::Grammar::val_variable))]
fn val_variable_at(
    alloc: Global,
    block: Block,
    tokens: &[Piece],
    at: usize,
) -> Result<(Object, usize), ReadError>
    ensures { Gives (λ object. object) (toks tokens.now) result (spec.val_variable block (drop at (toks tokens.now))) }
{
    let (name, at) = variable_at(alloc, "val", block.upsert, tokens, at)?;
    Ok((Object::Val(name), at))
}

// All objects.
#[tactic(auto, unfolding(crate::specs::Grammar::all_objects))]
fn all_objects_at(tokens: &[Piece], at: usize) -> Result<(Object, usize), ReadError>
    ensures { Gives (λ object. object) (toks tokens.now) result (spec.all_objects (drop at (toks tokens.now))) }
{
    let (_, at) = punct(tokens, at, b'*')?;
    Ok((Object::Star, at))
}

// A node as an object.
#[tactic(auto, unfolding(crate::specs::Grammar::node_object))]
fn node_object_at(
    alloc: Global,
    block: Block,
    tokens: &[Piece],
    at: usize,
) -> Result<(Object, usize), ReadError>
    ensures { Gives (λ object. object) (toks tokens.now) result (spec.node_object block (drop at (toks tokens.now))) }
{
    let (node, at) = node_at(alloc, block, tokens, at)?;
    Ok((Object::Node(node), at))
}

// An object, by what comes next.
#[tactic(auto, unfolding(crate::specs::Grammar::object))]
fn object_at(
    alloc: Global,
    block: Block,
    tokens: &[Piece],
    at: usize,
) -> Result<(Object, usize), ReadError>
    requires { AreSmall (toks tokens.now) }
    ensures { Gives (λ object. object) (toks tokens.now) result (spec.object block (drop at (toks tokens.now))) }
{
    if next_is_quoted(tokens, at) {
        literal_at(alloc, tokens, at)
    } else if next_is_word(tokens, at, "val") {
        val_variable_at(alloc, block, tokens, at)
    } else if block.delete && next_is_punct(tokens, at, b'*') {
        all_objects_at(tokens, at)
    } else {
        node_object_at(alloc, block, tokens, at)
    }
}

fn is_a_label(token: &Piece) -> bool
    ensures { result ≡ spec.is_label (tok token.now) }
{
    is_an_iri(token) || is_a_blank(token) || is_a_quoted(token)
}

// The place behind a label, where one comes next.
fn past_label(tokens: &[Piece], at: usize) -> usize
    ensures { optional (next spec.is_label) (skip spec.is_label) tt (drop at (toks tokens.now)) ≡ Ok (tt, drop result (toks tokens.now)) }
{
    match peek(tokens, at) {
        None => at,
        Some(token) => { if is_a_label(token) { at + 1 } else { at } }
    }
}

// The statements before with the next one. Its label is dropped.
#[tactic(auto, unfolding(crate::specs::Grammar::statement))]
fn statement_at(
    alloc: Global,
    block: Block,
    mut before: List<Statement>,
    tokens: &[Piece],
    start: usize,
) -> Result<(List<Statement>, usize), ReadError>
    requires { AreSmall (toks tokens.now) }
    ensures { Gives (λ all. all) (toks tokens.now) result (spec.statement block before (drop start (toks tokens.now))) }
{
    let (s, at) = node_at(alloc, block, tokens, start)?;
    let (name, at) = predicate_at(tokens, at)?;
    let (o, at) = object_at(alloc, block, tokens, at)?;
    let at = past_label(tokens, at);
    let (_, at) = punct(tokens, at, b'.')?;
    let p = owned(alloc, name)?;
    before.push(Statement {
        delete: block.delete,
        s,
        p,
        o,
    })?;
    Ok((before, at))
}

// Whether a statement begins at the place.
fn statement_begins(tokens: &[Piece], at: usize) -> bool
    ensures { result ≡ spec.begins_statement (drop at (toks tokens.now)) }
{
    peek(tokens, at).is_some_and(|t| is_an_iri(t) || is_a_blank(t) || is_a_word(t, "uid"))
}

/// The statements before with those from a place on, up to the first token that begins none, and its place.
#[tactic(auto, using(dg_text::proofs::Turns::goes_on, dg_text::proofs::Turns::ends, dg_text::proofs::Turns::stops, dg_text::proofs::Turns::is_done))]
pub fn statements_at(
    alloc: Global,
    block: Block,
    before: List<Statement>,
    tokens: &[Piece],
    start: usize,
) -> Result<(List<Statement>, usize), ReadError>
    requires { AreSmall (toks tokens.now) }
    ensures { Gives (λ all. all) (toks tokens.now) result (spec.statements block before (drop start (toks tokens.now))) }
{
    let most = left(tokens, start);
    let mut all = before;
    let mut at = start;
    for _ in 0..most {
        if !statement_begins(tokens, at) {
            return Ok((all, at));
        }
        let (more, after) = statement_at(alloc, block, all, tokens, at)?;
        all = more;
        at = after;
    }
    Ok((all, at))
}

/// The statements before with those of the next group.
#[tactic(auto, unfolding(crate::specs::Grammar::group))]
pub fn group_at(
    alloc: Global,
    upsert: bool,
    before: List<Statement>,
    tokens: &[Piece],
    at: usize,
) -> Result<(List<Statement>, usize), ReadError>
    requires { AreSmall (toks tokens.now) }
    ensures { Gives (λ all. all) (toks tokens.now) result (spec.group upsert before (drop at (toks tokens.now))) }
{
    let (delete, at) = group_word_at(tokens, at)?;
    let (_, at) = punct(tokens, at, b'{')?;
    let (all, at) = statements_at(alloc, Block { delete, upsert }, before, tokens, at)?;
    let (_, at) = punct(tokens, at, b'}')?;
    Ok((all, at))
}

/// Whether a group begins at the place.
pub fn group_begins(tokens: &[Piece], at: usize) -> bool
    ensures { result ≡ spec.begins_group (drop at (toks tokens.now)) }
{
    peek(tokens, at).is_some_and(|t| group_of(t).is_some())
}

// The statements of all groups from a place on.
#[tactic(auto, using(dg_text::proofs::Turns::goes_on, dg_text::proofs::Turns::ends, dg_text::proofs::Turns::stops, dg_text::proofs::Turns::is_done))]
fn more_groups_at(
    alloc: Global,
    upsert: bool,
    tokens: &[Piece],
    start: usize,
) -> Result<(List<Statement>, usize), ReadError>
    requires { AreSmall (toks tokens.now) }
    ensures { Gives (λ all. all) (toks tokens.now) result (repeated spec.begins_group (spec.group upsert) [] (drop start (toks tokens.now))) }
{
    let most = left(tokens, start);
    let mut all = List::new(alloc);
    let mut at = start;
    for _ in 0..most {
        if !group_begins(tokens, at) {
            return Ok((all, at));
        }
        let (more, after) = group_at(alloc, upsert, all, tokens, at)?;
        all = more;
        at = after;
    }
    Ok((all, at))
}

/// The statements of the groups between `{` and `}`.
#[tactic(auto, unfolding(crate::specs::Grammar::groups))]
pub fn groups_at(
    alloc: Global,
    upsert: bool,
    tokens: &[Piece],
    at: usize,
) -> Result<(List<Statement>, usize), ReadError>
    requires { AreSmall (toks tokens.now) }
    ensures { Gives (λ all. all) (toks tokens.now) result (spec.groups upsert (drop at (toks tokens.now))) }
{
    let (_, at) = punct(tokens, at, b'{')?;
    let (all, at) = more_groups_at(alloc, upsert, tokens, at)?;
    let (_, at) = punct(tokens, at, b'}')?;
    Ok((all, at))
}

/// The statements of a body from a place on, and the place behind it. A body that doesn't begin with `{` sets.
#[tactic(auto, unfolding(crate::specs::Grammar::body))]
pub fn body_at(
    alloc: Global,
    tokens: &[Piece],
    at: usize,
) -> Result<(List<Statement>, usize), ReadError>
    requires { AreSmall (toks tokens.now) }
    ensures { Gives (λ all. all) (toks tokens.now) result (spec.body (drop at (toks tokens.now))) }
{
    if next_is_punct(tokens, at, b'{') {
        groups_at(alloc, false, tokens, at)
    } else {
        let plain_set = Block {
            delete: false,
            upsert: false,
        };
        statements_at(alloc, plain_set, List::new(alloc), tokens, at)
    }
}
