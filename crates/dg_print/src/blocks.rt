// Blocks and whole queries.
ghost use Rattle.std.specs.Prelude.{◌≡◌, [], ◌∷◌, ◌++◌, flat_map, IfOk, OnOk, string_bytes};
ghost use Rattle.dg_text.specs.Spelling.{name_word};
ghost use Rattle.dg_text.specs.Written.{written};
ghost use Rattle.dg_print.specs.Printed.{in_round};
ghost use Rattle.dg_print.specs.PrintedQuery as spec;

use crate::arguments::{push_dirs, push_more_args};
use crate::fields::{push_braces, push_var};
use crate::functions::push_func;
use crate::words::push_opening;
use dg_parse::{QArg, QBlock, QFunc, Query};
use dg_values::{Mem, OutOfMemory, Str};
use std::alloc::Global;

// Adds the function and the arguments of a block.
#[tactic(auto, using(crate::proofs::FieldsWritten::root_written))]
fn push_root(alloc: Global, out: &mut Str, func: &Option<QFunc>, args: &[QArg]) -> Mem<()>
    ensures { OnOk result (out.new ≡ out.old ++ written (spec.root_words func.now args.now)) }
{
    match func {
        None => Ok(()),
        Some(func) => {
            out.push_str("func : ")?;
            push_func(alloc, out, func)?;
            push_more_args(alloc, out, args)
        }
    }
}

// Adds the name of a block, and its brackets.
#[tactic(auto, using(crate::proofs::WordsWritten::round_written))]
fn push_head(
    alloc: Global,
    out: &mut Str,
    name: &str,
    func: &Option<QFunc>,
    args: &[QArg],
) -> Mem<()>
    ensures { OnOk result (out.new ≡ out.old ++ written (name_word name.now ∷ in_round (spec.root_words func.now args.now))) }
{
    push_opening(out, name)?;
    push_root(alloc, out, func, args)?;
    out.push_str(") ")
}

// Adds a block.
#[tactic(auto, using(crate::proofs::FieldsWritten::block_written))]
fn push_block(alloc: Global, out: &mut Str, block: &QBlock) -> Mem<()>
    ensures { OnOk result (out.new ≡ out.old ++ written (spec.block_words block.now)) }
{
    push_var(out, &block.var)?;
    push_head(
        alloc,
        out,
        block.name.as_str(),
        &block.func,
        block.args.as_slice(),
    )?;
    push_dirs(alloc, out, block.dirs.as_slice())?;
    push_braces(alloc, out, block.fields.as_slice())
}

// Adds blocks.
#[tactic(auto, using(crate::proofs::WordsWritten::listed_more))]
fn push_blocks(alloc: Global, out: &mut Str, blocks: &[QBlock]) -> Mem<()>
    ensures { OnOk result (out.new ≡ out.old ++ written (flat_map spec.block_words blocks.now)) }
{
    for block in blocks {
        push_block(alloc, out, block)?;
    }
    Ok(())
}

/// Adds a query, without its own word.
#[tactic(auto, using(crate::proofs::WordsWritten::in_curly_written))]
pub fn push_query(alloc: Global, out: &mut Str, query: &Query) -> Mem<()>
    ensures { OnOk result (out.new ≡ out.old ++ written (spec.query_words query.now)) }
{
    out.push_str("{ ")?;
    push_blocks(alloc, out, query.blocks.as_slice())?;
    out.push_str("} ")
}

/// The query as a text in its printed form: its words with a blank behind each, no more brackets in a filter than it
/// needs, and a comma behind each field. For a query that a text says, this text says the same query, as
/// [`queries_read_back`](crate::queries_read_back) says. A query put together in another way may be one that no text
/// says; of its printed text nothing more is known than the form. The text may be longer than `parse` of `dg_parse`
/// takes.
pub fn query_text(alloc: Global, query: &Query) -> Mem<String>
    ensures { IfOk result (λ text. string_bytes text ≡ spec.query_text query.now) }
{
    let mut out = Str::from_str(alloc, "")?;
    push_query(alloc, &mut out, query)?;
    Ok(out.into_string())
}
