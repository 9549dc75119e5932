// Conditions, with no more brackets than they need.
ghost use Rattle.std.specs.Prelude.{◌≡◌, ◌∷◌, [], ◌++◌, OnOk, map, codes};
ghost use Rattle.dg_text.specs.Marks.{comma};
ghost use Rattle.dg_text.specs.Spelling.{int_word, mark_word, name_word};
ghost use Rattle.dg_text.specs.Written.{written};
ghost use Rattle.dg_print.specs.Printed as shared;
ghost use Rattle.dg_print.specs.PrintedUpsert as spec;
ghost use Rattle.dg_print.specs.Printing.{words_in};

use crate::brackets::{Within, and_is_bare, or_is_bare, push_nots};
use crate::functions::cmp_text;
use crate::words::{push_int, push_joint, push_name, push_opening};
use dg_parse::{CmpOp, UCond, UPart};
use dg_values::{Mem, Str};
use std::alloc::Global;

// Adds the number of nodes of a variable.
#[tactic(auto, using(crate::proofs::WordsWritten::round_written))]
fn push_len(out: &mut Str, var: &str) -> Mem<()>
    ensures { OnOk result (out.new ≡ out.old ++ written (name_word (codes "len") ∷ shared.in_round (name_word var.now ∷ []))) }
{
    push_opening(out, "len")?;
    push_name(out, var)?;
    out.push_str(") ")
}

// Adds the number of nodes of a variable and what it is compared with.
#[tactic(auto, using(crate::proofs::WordsWritten::comma_written))]
fn push_compared(alloc: Global, out: &mut Str, var: &str, n: i64) -> Mem<()>
    ensures { OnOk result (out.new ≡ out.old ++ written ((name_word (codes "len") ∷ shared.in_round (name_word var.now ∷ [])) ++ mark_word comma ∷ int_word n ∷ [])) }
{
    push_len(out, var)?;
    out.push_str(", ")?;
    push_int(alloc, out, n)
}

// Adds a comparison.
#[tactic(auto, using(crate::proofs::WordsWritten::round_written))]
fn push_comparison(alloc: Global, out: &mut Str, op: CmpOp, var: &str, n: i64) -> Mem<()>
    ensures { OnOk result (out.new ≡ out.old ++ written (spec.len_words op var.now n)) }
{
    push_opening(out, cmp_text(op))?;
    push_compared(alloc, out, var, n)?;
    out.push_str(") ")
}

// Adds conditions with a word between any two.
#[cycle(printed)]
fn push_joined(
    alloc: Global,
    out: &mut Str,
    within: Within,
    word: &'static str,
    conditions: &[UCond],
) -> Mem<()>
    ensures { OnOk result (out.new ≡ out.old ++ written (shared.between_words (name_word word.now) (λ c. words_in within (spec.shown c)) conditions.now)) }
{
    for (place, condition) in conditions.iter().enumerate() {
        push_joint(out, word, place)?;
        push_condition(alloc, out, within, condition)?;
    }
    Ok(())
}

// Adds conditions in brackets, after so many `not`.
#[tactic(auto, using(crate::proofs::FiltersWritten::closed_written))]
#[cycle(printed)]
fn push_closed(
    alloc: Global,
    out: &mut Str,
    within: Within,
    nots: usize,
    word: &'static str,
    conditions: &[UCond],
) -> Mem<()>
    ensures { OnOk result (out.new ≡ out.old ++ written (shared.nots nots ++ shared.in_round (shared.between_words (name_word word.now) (λ c. words_in within (spec.shown c)) conditions.now))) }
{
    push_nots(out, nots)?;
    out.push_str("( ")?;
    push_joined(alloc, out, within, word, conditions)?;
    out.push_str(") ")
}

// Adds an `or` after so many `not`.
#[cycle(printed)]
fn push_or(
    alloc: Global,
    out: &mut Str,
    within: Within,
    nots: usize,
    conditions: &[UCond],
) -> Mem<()>
    ensures { OnOk result (out.new ≡ out.old ++ written (words_in within (shared.shown_or nots (shared.between_words (name_word (codes "or")) (λ c. c.as_and) (map spec.shown conditions.now))))) }
{
    if or_is_bare(within, nots) {
        push_joined(alloc, out, Within::Or, "or", conditions)
    } else {
        push_closed(alloc, out, Within::Or, nots, "or", conditions)
    }
}

// Adds an `and` after so many `not`.
#[cycle(printed)]
fn push_and(
    alloc: Global,
    out: &mut Str,
    within: Within,
    nots: usize,
    conditions: &[UCond],
) -> Mem<()>
    ensures { OnOk result (out.new ≡ out.old ++ written (words_in within (shared.shown_and nots (shared.between_words (name_word (codes "and")) (λ c. c.as_not) (map spec.shown conditions.now))))) }
{
    if and_is_bare(within, nots) {
        push_joined(alloc, out, Within::And, "and", conditions)
    } else {
        push_closed(alloc, out, Within::And, nots, "and", conditions)
    }
}

/// Adds a condition, in brackets where it needs them.
#[tactic(auto, using(crate::proofs::FiltersWritten::func_written))]
#[cycle(printed)]
pub fn push_condition(alloc: Global, out: &mut Str, within: Within, condition: &UCond) -> Mem<()>
    ensures { OnOk result (out.new ≡ out.old ++ written (words_in within (spec.shown condition.now))) }
{
    match &condition.part {
        UPart::Or(all) => push_or(alloc, out, within, condition.nots, all.as_slice()),
        UPart::And(all) => push_and(alloc, out, within, condition.nots, all.as_slice()),
        UPart::Len { op, var, n } => {
            push_nots(out, condition.nots)?;
            push_comparison(alloc, out, *op, var.as_str(), *n)
        }
    }
}
