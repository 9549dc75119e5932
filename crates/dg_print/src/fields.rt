// Fields and what they show.
ghost use Rattle.std.specs.Prelude.{◌≡◌, [], ◌∷◌, ◌++◌, flat_map, OnOk, codes};
ghost use Rattle.dg_text.specs.Marks.{open_curly, close_curly};
ghost use Rattle.dg_text.specs.Spelling.{mark_word, name_word};
ghost use Rattle.dg_text.specs.Written.{written};
ghost use Rattle.dg_parse.specs.Keys.{aggregate_word};
ghost use Rattle.dg_print.specs.Printed.{in_round, val_words, edge_words, args_words, dir_words};
ghost use Rattle.dg_print.specs.PrintedQuery as spec;
ghost use Rattle.dg_print.specs.Printing.{words_of_item};

use crate::arguments::{push_args, push_dirs};
use crate::functions::{push_count, push_edge, push_val};
use crate::words::{push_name, push_opening};
use dg_parse::{AggOp, QArg, QDir, QEdge, QField, QItem};
use dg_values::{Mem, Str};
use std::alloc::Global;

/// Adds the variable that is defined, if one is.
#[tactic(auto, using(crate::proofs::WordsWritten::as_written))]
pub fn push_var(out: &mut Str, var: &Option<Str>) -> Mem<()>
    ensures { OnOk result (out.new ≡ out.old ++ written (spec.var_words var.now)) }
{
    match var {
        None => Ok(()),
        Some(name) => {
            push_name(out, name.as_str())?;
            out.push_str("as ")
        }
    }
}

// Adds the alias, if there is one.
#[tactic(auto, using(crate::proofs::WordsWritten::colon_behind))]
fn push_alias(out: &mut Str, alias: &Option<Str>) -> Mem<()>
    ensures { OnOk result (out.new ≡ out.old ++ written (spec.alias_words alias.now)) }
{
    match alias {
        None => Ok(()),
        Some(name) => {
            push_name(out, name.as_str())?;
            out.push_str(": ")
        }
    }
}

// The word of an aggregate.
fn aggregate_text(op: AggOp) -> &'static str
    ensures { result.now ≡ aggregate_word op }
{
    match op {
        AggOp::Min => "min",
        AggOp::Max => "max",
        AggOp::Sum => "sum",
    }
}

// Adds an aggregate of a variable.
#[tactic(auto, using(crate::proofs::WordsWritten::round_written))]
fn push_aggregate(out: &mut Str, op: AggOp, name: &str) -> Mem<()>
    ensures { OnOk result (out.new ≡ out.old ++ written (name_word (aggregate_word op) ∷ in_round (val_words name.now))) }
{
    push_opening(out, aggregate_text(op))?;
    push_val(out, name)?;
    out.push_str(") ")
}

// Adds an edge with its arguments and directives.
#[tactic(auto, using(crate::proofs::WordsWritten::three_written))]
fn push_edge_head(
    alloc: Global,
    out: &mut Str,
    edge: &QEdge,
    args: &[QArg],
    dirs: &[QDir],
) -> Mem<()>
    ensures { OnOk result (out.new ≡ out.old ++ written (edge_words edge.now ++ (args_words args.now ++ flat_map dir_words dirs.now))) }
{
    push_edge(out, edge)?;
    push_args(alloc, out, args)?;
    push_dirs(alloc, out, dirs)
}

// Adds fields.
#[tactic(auto, using(crate::proofs::WordsWritten::listed_more))]
#[cycle(printed)]
fn push_fields(alloc: Global, out: &mut Str, fields: &[QField]) -> Mem<()>
    ensures { OnOk result (out.new ≡ out.old ++ written (flat_map spec.field_words fields.now)) }
{
    for field in fields {
        push_field(alloc, out, field)?;
    }
    Ok(())
}

/// Adds fields between braces.
#[tactic(auto, using(crate::proofs::WordsWritten::in_curly_written))]
#[cycle(printed)]
pub fn push_braces(alloc: Global, out: &mut Str, fields: &[QField]) -> Mem<()>
    ensures { OnOk result (out.new ≡ out.old ++ written (mark_word open_curly ∷ (flat_map spec.field_words fields.now ++ mark_word close_curly ∷ []))) }
{
    out.push_str("{ ")?;
    push_fields(alloc, out, fields)?;
    out.push_str("} ")
}

// Adds an edge with its arguments and directives, and fields between braces.
#[tactic(auto, using(crate::proofs::FieldsWritten::edge_written))]
#[cycle(printed)]
fn push_whole_edge(
    alloc: Global,
    out: &mut Str,
    edge: &QEdge,
    args: &[QArg],
    dirs: &[QDir],
    fields: &[QField],
) -> Mem<()>
    ensures { OnOk result (out.new ≡ out.old ++ written (edge_words edge.now ++ (args_words args.now ++ (flat_map dir_words dirs.now ++ mark_word open_curly ∷ (flat_map spec.field_words fields.now ++ mark_word close_curly ∷ []))))) }
{
    push_edge_head(alloc, out, edge, args, dirs)?;
    push_braces(alloc, out, fields)
}

// Adds what a field shows.
#[tactic(auto, using(crate::proofs::FieldsWritten::bare_written))]
#[cycle(printed)]
fn push_item(alloc: Global, out: &mut Str, item: &QItem) -> Mem<()>
    ensures { OnOk result (out.new ≡ out.old ++ written (words_of_item item.now)) }
{
    match item {
        QItem::Uid => out.push_str("uid "),
        QItem::CountUid => out.push_str("count ( uid ) "),
        QItem::Count(edge) => push_count(out, edge),
        QItem::Val(name) => push_val(out, name.as_str()),
        QItem::Agg { op, var } => push_aggregate(out, *op, var.as_str()),
        QItem::Edge {
            edge,
            args,
            dirs,
            fields,
        } => match fields {
            None => push_edge_head(alloc, out, edge, args.as_slice(), dirs.as_slice()),
            Some(fields) => push_whole_edge(
                alloc,
                out,
                edge,
                args.as_slice(),
                dirs.as_slice(),
                fields.as_slice(),
            ),
        },
    }
}

// Adds a field, and the comma behind it.
#[tactic(auto, using(crate::proofs::FieldsWritten::field_written))]
#[cycle(printed)]
fn push_field(alloc: Global, out: &mut Str, field: &QField) -> Mem<()>
    ensures { OnOk result (out.new ≡ out.old ++ written (spec.field_words field.now)) }
{
    push_var(out, &field.var)?;
    push_alias(out, &field.alias)?;
    push_item(alloc, out, &field.item)?;
    out.push_str(", ")
}
