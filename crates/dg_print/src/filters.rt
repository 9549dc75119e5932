// Filters, with no more brackets than they need.
ghost use Rattle.std.specs.Prelude.{◌≡◌, ◌++◌, OnOk, map, codes};
ghost use Rattle.dg_text.specs.Spelling.{name_word};
ghost use Rattle.dg_text.specs.Written.{written};
ghost use Rattle.dg_print.specs.Printed as spec;
ghost use Rattle.dg_print.specs.Printing.{words_in};

use crate::brackets::{Within, and_is_bare, or_is_bare, push_nots};
use crate::functions::push_func;
use crate::words::push_joint;
use dg_parse::{QFilter, QFunc, QPart};
use dg_values::{Mem, Str};
use std::alloc::Global;

// Adds a function after so many `not`.
#[tactic(auto, using(crate::proofs::FiltersWritten::func_written))]
fn push_alone(alloc: Global, out: &mut Str, within: Within, nots: usize, func: &QFunc) -> Mem<()>
    ensures { OnOk result (out.new ≡ out.old ++ written (words_in within (spec.shown_alone (spec.nots nots ++ spec.func_words func.now)))) }
{
    push_nots(out, nots)?;
    push_func(alloc, out, func)
}

// Adds filters with a word between any two.
#[cycle(printed)]
fn push_joined(
    alloc: Global,
    out: &mut Str,
    within: Within,
    word: &'static str,
    filters: &[QFilter],
) -> Mem<()>
    ensures { OnOk result (out.new ≡ out.old ++ written (spec.between_words (name_word word.now) (λ f. words_in within (spec.shown f)) filters.now)) }
{
    for (place, filter) in filters.iter().enumerate() {
        push_joint(out, word, place)?;
        push_filter(alloc, out, within, filter)?;
    }
    Ok(())
}

// Adds filters in brackets, after so many `not`.
#[tactic(auto, using(crate::proofs::FiltersWritten::closed_written))]
#[cycle(printed)]
fn push_closed(
    alloc: Global,
    out: &mut Str,
    within: Within,
    nots: usize,
    word: &'static str,
    filters: &[QFilter],
) -> Mem<()>
    ensures { OnOk result (out.new ≡ out.old ++ written (spec.nots nots ++ spec.in_round (spec.between_words (name_word word.now) (λ f. words_in within (spec.shown f)) filters.now))) }
{
    push_nots(out, nots)?;
    out.push_str("( ")?;
    push_joined(alloc, out, within, word, filters)?;
    out.push_str(") ")
}

// Adds an `or` after so many `not`.
#[cycle(printed)]
fn push_or(
    alloc: Global,
    out: &mut Str,
    within: Within,
    nots: usize,
    filters: &[QFilter],
) -> Mem<()>
    ensures { OnOk result (out.new ≡ out.old ++ written (words_in within (spec.shown_or nots (spec.between_words (name_word (codes "or")) (λ f. f.as_and) (map spec.shown filters.now))))) }
{
    if or_is_bare(within, nots) {
        push_joined(alloc, out, Within::Or, "or", filters)
    } else {
        push_closed(alloc, out, Within::Or, nots, "or", filters)
    }
}

// Adds an `and` after so many `not`.
#[cycle(printed)]
fn push_and(
    alloc: Global,
    out: &mut Str,
    within: Within,
    nots: usize,
    filters: &[QFilter],
) -> Mem<()>
    ensures { OnOk result (out.new ≡ out.old ++ written (words_in within (spec.shown_and nots (spec.between_words (name_word (codes "and")) (λ f. f.as_not) (map spec.shown filters.now))))) }
{
    if and_is_bare(within, nots) {
        push_joined(alloc, out, Within::And, "and", filters)
    } else {
        push_closed(alloc, out, Within::And, nots, "and", filters)
    }
}

/// Adds a filter, in brackets where it needs them.
#[cycle(printed)]
pub fn push_filter(alloc: Global, out: &mut Str, within: Within, filter: &QFilter) -> Mem<()>
    ensures { OnOk result (out.new ≡ out.old ++ written (words_in within (spec.shown filter.now))) }
{
    match &filter.part {
        QPart::Or(all) => push_or(alloc, out, within, filter.nots, all.as_slice()),
        QPart::And(all) => push_and(alloc, out, within, filter.nots, all.as_slice()),
        QPart::Func(func) => push_alone(alloc, out, within, filter.nots, func),
    }
}
