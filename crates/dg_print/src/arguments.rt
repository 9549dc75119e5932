// Arguments and directives.
ghost use Rattle.std.specs.Prelude.{◌≡◌, [], ◌∷◌, ◌++◌, flat_map, OnOk, codes};
ghost use Rattle.dg_text.specs.Marks.{comma, colon};
ghost use Rattle.dg_text.specs.Spelling.{at_word, int_word, mark_word, name_word};
ghost use Rattle.dg_text.specs.Written.{written};
ghost use Rattle.dg_print.specs.Printed as spec;

use crate::brackets::Within;
use crate::filters::push_filter;
use crate::functions::push_val;
use crate::words::{push_int, push_name, push_uid};
use dg_parse::{QArg, QDir, QFilter, QOpt, QOrder};
use dg_values::{Mem, Str};
use std::alloc::Global;

// Adds what an order goes by.
fn push_order(out: &mut Str, order: &QOrder) -> Mem<()>
    ensures { OnOk result (out.new ≡ out.old ++ written (spec.order_words order.now)) }
{
    match order {
        QOrder::Pred(pred) => push_name(out, pred.as_str()),
        QOrder::Val(name) => push_val(out, name.as_str()),
    }
}

// The word of an argument.
fn arg_text(arg: &QArg) -> &'static str
    ensures { result.now ≡ spec.arg_text arg.now }
{
    match arg {
        QArg::First(_) => "first",
        QArg::Offset(_) => "offset",
        QArg::After(_) => "after",
        QArg::Asc(_) => "orderasc",
        QArg::Desc(_) => "orderdesc",
    }
}

// Adds the value of an argument.
fn push_value(alloc: Global, out: &mut Str, arg: &QArg) -> Mem<()>
    ensures { OnOk result (out.new ≡ out.old ++ written (spec.value_words arg.now)) }
{
    match arg {
        QArg::First(n) => push_int(alloc, out, *n),
        QArg::Offset(n) => push_int(alloc, out, *n),
        QArg::After(n) => push_uid(alloc, out, *n),
        QArg::Asc(order) => push_order(out, order),
        QArg::Desc(order) => push_order(out, order),
    }
}

// Adds an argument.
#[tactic(auto, using(crate::proofs::WordsWritten::colon_written))]
fn push_arg(alloc: Global, out: &mut Str, arg: &QArg) -> Mem<()>
    ensures { OnOk result (out.new ≡ out.old ++ written (spec.arg_words arg.now)) }
{
    push_name(out, arg_text(arg))?;
    out.push_str(": ")?;
    push_value(alloc, out, arg)
}

/// Adds arguments behind a comma each.
#[tactic(auto, using(crate::proofs::WordsWritten::listed_more))]
pub fn push_more_args(alloc: Global, out: &mut Str, args: &[QArg]) -> Mem<()>
    ensures { OnOk result (out.new ≡ out.old ++ written (flat_map (λ a. mark_word comma ∷ spec.arg_words a) args.now)) }
{
    for arg in args {
        out.push_str(", ")?;
        push_arg(alloc, out, arg)?;
    }
    Ok(())
}

/// Adds arguments in brackets, and nothing where there are none.
#[tactic(auto, using(crate::proofs::WordsWritten::both_in_round))]
pub fn push_args(alloc: Global, out: &mut Str, args: &[QArg]) -> Mem<()>
    ensures { OnOk result (out.new ≡ out.old ++ written (spec.args_words args.now)) }
{
    match args {
        [] => Ok(()),
        [first, more @ ..] => {
            out.push_str("( ")?;
            push_arg(alloc, out, first)?;
            push_more_args(alloc, out, more)?;
            out.push_str(") ")
        }
    }
}

// The word of a truth value.
fn truth_text(b: bool) -> &'static str
    ensures { result.now ≡ spec.truth_text b }
{
    if b { "true" } else { "false" }
}

// Adds an option of a recursion.
#[tactic(auto, using(crate::proofs::ArgumentsWritten::depth_written, crate::proofs::ArgumentsWritten::again_written))]
fn push_opt(alloc: Global, out: &mut Str, option: QOpt) -> Mem<()>
    ensures { OnOk result (out.new ≡ out.old ++ written (spec.opt_words option)) }
{
    match option {
        QOpt::Depth(n) => {
            out.push_str("depth : ")?;
            push_int(alloc, out, n)
        }
        QOpt::Again(b) => {
            out.push_str("loop : ")?;
            push_name(out, truth_text(b))
        }
    }
}

// Adds options behind a comma each.
#[tactic(auto, using(crate::proofs::WordsWritten::listed_more))]
fn push_more_opts(alloc: Global, out: &mut Str, options: &[QOpt]) -> Mem<()>
    ensures { OnOk result (out.new ≡ out.old ++ written (flat_map (λ o. mark_word comma ∷ spec.opt_words o) options.now)) }
{
    for option in options {
        out.push_str(", ")?;
        push_opt(alloc, out, *option)?;
    }
    Ok(())
}

// Adds options in brackets, and nothing where there are none.
#[tactic(auto, using(crate::proofs::WordsWritten::both_in_round))]
fn push_opts(alloc: Global, out: &mut Str, options: &[QOpt]) -> Mem<()>
    ensures { OnOk result (out.new ≡ out.old ++ written (spec.opts_words options.now)) }
{
    match options {
        [] => Ok(()),
        [first, more @ ..] => {
            out.push_str("( ")?;
            push_opt(alloc, out, *first)?;
            push_more_opts(alloc, out, more)?;
            out.push_str(") ")
        }
    }
}

// Adds `@filter` and its filter.
#[tactic(auto, using(crate::proofs::ArgumentsWritten::filter_written))]
fn push_filtered(alloc: Global, out: &mut Str, filter: &QFilter) -> Mem<()>
    ensures { OnOk result (out.new ≡ out.old ++ written (at_word (codes "@filter") ∷ spec.in_round (spec.filter_words filter.now))) }
{
    out.push_str("@filter ( ")?;
    push_filter(alloc, out, Within::Brackets, filter)?;
    out.push_str(") ")
}

// Adds `@recurse` and its options.
#[tactic(auto, using(crate::proofs::ArgumentsWritten::recurse_written))]
fn push_recursion(alloc: Global, out: &mut Str, options: &[QOpt]) -> Mem<()>
    ensures { OnOk result (out.new ≡ out.old ++ written (at_word (codes "@recurse") ∷ spec.opts_words options.now)) }
{
    out.push_str("@recurse ")?;
    push_opts(alloc, out, options)
}

// Adds a directive.
fn push_dir(alloc: Global, out: &mut Str, dir: &QDir) -> Mem<()>
    ensures { OnOk result (out.new ≡ out.old ++ written (spec.dir_words dir.now)) }
{
    match dir {
        QDir::Filter(filter) => push_filtered(alloc, out, filter),
        QDir::Cascade => out.push_str("@cascade "),
        QDir::Normalize => out.push_str("@normalize "),
        QDir::Recurse(options) => push_recursion(alloc, out, options.as_slice()),
    }
}

/// Adds directives.
#[tactic(auto, using(crate::proofs::WordsWritten::listed_more))]
pub fn push_dirs(alloc: Global, out: &mut Str, dirs: &[QDir]) -> Mem<()>
    ensures { OnOk result (out.new ≡ out.old ++ written (flat_map spec.dir_words dirs.now)) }
{
    for dir in dirs {
        push_dir(alloc, out, dir)?;
    }
    Ok(())
}
