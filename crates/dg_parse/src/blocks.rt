// Blocks, read from tokens.
ghost use Rattle.std.specs.Prelude.{◌≡◌, [], codes};
ghost use Rattle.dg_text.specs.Cases.{Gives, left_of, word, optional, repeated};
ghost use Rattle.dg_text.specs.Reading.{next};
ghost use Rattle.dg_text.specs.Tokens.{toks, is_name, is_word};
ghost use Rattle.dg_parse.specs.Grammar as spec;
ghost use Rattle.dg_parse.specs.Sizes.{AreFew};

use crate::arguments::more_args_at;
use crate::directives::{Owner, dirs_at};
use crate::fields::fields_at;
use crate::functions::func_at;
use crate::items::Around;
use crate::listed::Blocks;
use crate::names::any_variable_at;
use crate::{QArg, QBlock, QFunc, Query};
use dg_text::choices::{next_is_name, next_is_word};
use dg_text::passed::{Passed, mark_at, owned_name_at, refuse, word_at};
use dg_text::reading::left;
use dg_text::{Piece, ReadError};
use dg_values::{List, Str};
use std::alloc::Global;

/// What stands in the brackets of a block.
#[derive(Debug, Drop)]
pub struct Root {
    /// The function, where there is one.
    pub func: Option<QFunc>,
    /// The arguments.
    pub args: List<QArg>,
}

/// What stands in front of the directives of a block.
#[derive(Debug, Drop)]
pub struct Head {
    /// The variable that it defines.
    pub var: Option<Str>,
    /// The place of its `as`, or 0.
    pub as_place: usize,
    /// Its name.
    pub name: Str,
    /// What stands in its brackets.
    pub root: Root,
}

// The function of a block, and its arguments.
#[tactic(auto, unfolding(crate::specs::Grammar::root_part))]
fn root_part_at(alloc: Global, tokens: &[Piece], p: Passed) -> Result<(Root, Passed), ReadError>
    requires { AreFew (toks tokens.now) }
    ensures { Gives (λ x. x) (toks tokens.now) result (spec.root_part (left_of (toks tokens.now) p)) }
{
    let (_, p) = word_at(tokens, p, "func")?;
    let (_, p) = mark_at(tokens, p, b':')?;
    let (func, p) = func_at(alloc, true, tokens, p)?;
    let (args, p) = more_args_at(alloc, List::new(alloc), tokens, p)?;
    Ok((
        Root {
            func: Some(func),
            args,
        },
        p,
    ))
}

// What stands in the brackets of a block.
fn root_at(alloc: Global, tokens: &[Piece], p: Passed) -> Result<(Root, Passed), ReadError>
    requires { AreFew (toks tokens.now) }
    ensures { Gives (λ x. x) (toks tokens.now) result (optional (next (is_word (codes "func"))) spec.root_part spec.no_root (left_of (toks tokens.now) p)) }
{
    if next_is_word(tokens, p.at, "func") {
        root_part_at(alloc, tokens, p)
    } else {
        Ok((
            Root {
                func: None,
                args: List::new(alloc),
            },
            p,
        ))
    }
}

fn is_second(blocks: &Blocks, name: &Str) -> bool
    ensures { result ≡ spec.is_second blocks.now name.now }
{
    name.as_str() != "var" && blocks.has_name(name)
}

// What stands in front of the directives of a block.
#[tactic(auto, unfolding(crate::specs::Grammar::head))]
fn head_at(
    alloc: Global,
    before: &Blocks,
    tokens: &[Piece],
    p: Passed,
) -> Result<(Head, Passed), ReadError>
    requires { AreFew (toks tokens.now) }
    ensures { Gives (λ x. x) (toks tokens.now) result (spec.head before.now (left_of (toks tokens.now) p)) }
{
    let ((var, as_place), p) = any_variable_at(alloc, tokens, p)?;
    let has_var = var.is_some();
    let place = left(tokens, p.at);
    let (name, p) = owned_name_at(alloc, tokens, p)?;
    let p = refuse(p, place, is_second(before, &name));
    let (_, p) = mark_at(tokens, p, b'(')?;
    let (root, p) = root_at(alloc, tokens, p)?;
    let (_, p) = mark_at(tokens, p, b')')?;
    let has_func = root.func.is_some();
    let p = refuse(p, as_place, has_var && !has_func);
    let head = Head {
        var,
        as_place,
        name,
        root,
    };
    Ok((head, p))
}

// The blocks before with the next one.
#[tactic(auto, unfolding(crate::specs::Grammar::block))]
fn block_at(
    alloc: Global,
    before: Blocks,
    tokens: &[Piece],
    p: Passed,
) -> Result<(Blocks, Passed), ReadError>
    requires { AreFew (toks tokens.now) }
    ensures { Gives (λ x. x) (toks tokens.now) result (spec.block before (left_of (toks tokens.now) p)) }
{
    let (head, p) = head_at(alloc, &before, tokens, p)?;
    let has_func = head.root.func.is_some();
    let owner = Owner {
        block: true,
        has_func,
        recurse: false,
        as_place: head.as_place,
    };
    let (marks, p) = dirs_at(alloc, owner, tokens, p)?;
    let (_, p) = mark_at(tokens, p, b'{')?;
    let around = Around {
        has_func,
        recurse: marks.recursed != 0,
    };
    let (fields, p) = fields_at(alloc, around, 33, tokens, p)?;
    let (_, p) = mark_at(tokens, p, b'}')?;
    let block = QBlock {
        var: head.var,
        name: head.name,
        func: head.root.func,
        args: head.root.args,
        dirs: marks.dirs,
        fields,
    };
    let all = before.with(alloc, block)?;
    Ok((all, p))
}

// All blocks from a place on.
#[tactic(auto, using(dg_text::proofs::Turns::goes_on, dg_text::proofs::Turns::ends, dg_text::proofs::Turns::stops, dg_text::proofs::Turns::is_done))]
fn more_blocks_at(
    alloc: Global,
    tokens: &[Piece],
    start: Passed,
) -> Result<(Blocks, Passed), ReadError>
    requires { AreFew (toks tokens.now) }
    ensures { Gives (λ x. x) (toks tokens.now) result (repeated (next is_name) spec.block [] (left_of (toks tokens.now) start)) }
{
    let most = left(tokens, start.at);
    let mut all = Blocks::none(alloc);
    let mut p = start;
    for _ in 0..most {
        if !next_is_name(tokens, p.at) {
            return Ok((all, p));
        }
        let (more, after) = block_at(alloc, all, tokens, p)?;
        all = more;
        p = after;
    }
    Ok((all, p))
}

/// The blocks in braces.
#[tactic(auto, unfolding(crate::specs::Grammar::braced_blocks))]
pub fn braced_blocks_at(
    alloc: Global,
    tokens: &[Piece],
    p: Passed,
) -> Result<(Query, Passed), ReadError>
    requires { AreFew (toks tokens.now) }
    ensures { Gives (λ x. x) (toks tokens.now) result (spec.braced_blocks (left_of (toks tokens.now) p)) }
{
    let (_, p) = mark_at(tokens, p, b'{')?;
    let (all, p) = more_blocks_at(alloc, tokens, p)?;
    let (_, p) = mark_at(tokens, p, b'}')?;
    let blocks = all.into_list();
    Ok((Query { blocks }, p))
}

// The place behind the word `query`, where it comes next.
fn past_query(tokens: &[Piece], p: Passed) -> Result<((), Passed), ReadError>
    ensures { Gives (λ x. x) (toks tokens.now) result (optional (next (is_word (codes "query"))) (word (codes "query")) tt (left_of (toks tokens.now) p)) }
{
    if next_is_word(tokens, p.at, "query") {
        word_at(tokens, p, "query")
    } else {
        Ok(((), p))
    }
}

/// A query.
#[tactic(auto, unfolding(crate::specs::Grammar::query))]
pub fn query_at(alloc: Global, tokens: &[Piece], p: Passed) -> Result<(Query, Passed), ReadError>
    requires { AreFew (toks tokens.now) }
    ensures { Gives (λ x. x) (toks tokens.now) result (spec.query (left_of (toks tokens.now) p)) }
{
    let (_, p) = past_query(tokens, p)?;
    braced_blocks_at(alloc, tokens, p)
}
