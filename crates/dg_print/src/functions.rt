// Functions and what stands in their brackets.
ghost use Rattle.std.specs.Prelude.{◌≡◌, [], ◌∷◌, ◌++◌, flat_map, OnOk, codes};
ghost use Rattle.dg_text.specs.Marks.{comma};
ghost use Rattle.dg_text.specs.Quoting.{quoted_word};
ghost use Rattle.dg_text.specs.Spelling.{mark_word, name_word, regex_word};
ghost use Rattle.dg_text.specs.Written.{written};
ghost use Rattle.dg_print.specs.Printed as spec;

use crate::words::{push_name, push_opening, push_quoted, push_regex, push_uid};
use dg_parse::{CmpOp, QEdge, QFunc, QOf, UidArg};
use dg_values::{Mem, Str};
use std::alloc::Global;

/// Adds an edge.
pub fn push_edge(out: &mut Str, edge: &QEdge) -> Mem<()>
    ensures { OnOk result (out.new ≡ out.old ++ written (spec.edge_words edge.now)) }
{
    if edge.back {
        out.push_str("~ ")?;
    }
    push_name(out, edge.pred.as_str())
}

// Adds a node that is named, or a variable.
fn push_node(alloc: Global, out: &mut Str, node: &UidArg) -> Mem<()>
    ensures { OnOk result (out.new ≡ out.old ++ written (spec.node_words node.now)) }
{
    match node {
        UidArg::Uid(n) => push_uid(alloc, out, *n),
        UidArg::Var(name) => push_name(out, name.as_str()),
    }
}

// Adds nodes behind a comma each.
#[tactic(auto, using(crate::proofs::WordsWritten::listed_more))]
fn push_more_nodes(alloc: Global, out: &mut Str, more: &[UidArg]) -> Mem<()>
    ensures { OnOk result (out.new ≡ out.old ++ written (flat_map (λ x. mark_word comma ∷ spec.node_words x) more.now)) }
{
    for node in more {
        out.push_str(", ")?;
        push_node(alloc, out, node)?;
    }
    Ok(())
}

// Adds nodes with a comma between any two.
#[tactic(auto, using(crate::proofs::WordsWritten::two_written))]
fn push_nodes(alloc: Global, out: &mut Str, nodes: &[UidArg]) -> Mem<()>
    ensures { OnOk result (out.new ≡ out.old ++ written (spec.commas spec.node_words nodes.now)) }
{
    match nodes {
        [] => Ok(()),
        [first, more @ ..] => {
            push_node(alloc, out, first)?;
            push_more_nodes(alloc, out, more)
        }
    }
}

// Adds literals behind a comma each.
#[tactic(auto, using(crate::proofs::WordsWritten::listed_more))]
fn push_more_literals(alloc: Global, out: &mut Str, more: &[Str]) -> Mem<()>
    ensures { OnOk result (out.new ≡ out.old ++ written (flat_map (λ x. mark_word comma ∷ spec.lit_words x) more.now)) }
{
    for literal in more {
        out.push_str(", ")?;
        push_quoted(alloc, out, literal.as_str())?;
    }
    Ok(())
}

// Adds literals with a comma between any two.
#[tactic(auto, using(crate::proofs::WordsWritten::two_written))]
fn push_literals(alloc: Global, out: &mut Str, literals: &[Str]) -> Mem<()>
    ensures { OnOk result (out.new ≡ out.old ++ written (spec.commas spec.lit_words literals.now)) }
{
    match literals {
        [] => Ok(()),
        [first, more @ ..] => {
            push_quoted(alloc, out, first.as_str())?;
            push_more_literals(alloc, out, more)
        }
    }
}

/// Adds the value of a variable.
#[tactic(auto, using(crate::proofs::WordsWritten::round_written))]
pub fn push_val(out: &mut Str, name: &str) -> Mem<()>
    ensures { OnOk result (out.new ≡ out.old ++ written (spec.val_words name.now)) }
{
    push_opening(out, "val")?;
    push_name(out, name)?;
    out.push_str(") ")
}

/// Adds the count of an edge.
#[tactic(auto, using(crate::proofs::WordsWritten::round_written))]
pub fn push_count(out: &mut Str, edge: &QEdge) -> Mem<()>
    ensures { OnOk result (out.new ≡ out.old ++ written (name_word (codes "count") ∷ spec.in_round (spec.edge_words edge.now))) }
{
    push_opening(out, "count")?;
    push_edge(out, edge)?;
    out.push_str(") ")
}

// Adds what is compared.
fn push_of(out: &mut Str, of: &QOf) -> Mem<()>
    ensures { OnOk result (out.new ≡ out.old ++ written (spec.of_words of.now)) }
{
    match of {
        QOf::Pred(pred) => push_name(out, pred.as_str()),
        QOf::Count(edge) => push_count(out, edge),
        QOf::Val(name) => push_val(out, name.as_str()),
    }
}

/// The word of a comparison.
pub fn cmp_text(op: CmpOp) -> &'static str
    ensures { result.now ≡ spec.cmp_text op }
{
    match op {
        CmpOp::Eq => "eq",
        CmpOp::Le => "le",
        CmpOp::Lt => "lt",
        CmpOp::Ge => "ge",
        CmpOp::Gt => "gt",
    }
}

// The word of a function.
fn func_text(func: &QFunc) -> &'static str
    ensures { result.now ≡ spec.func_text func.now }
{
    match func {
        QFunc::Uid(_) => "uid",
        QFunc::Cmp { op, .. } => cmp_text(*op),
        QFunc::Between { .. } => "between",
        QFunc::Has(_) => "has",
        QFunc::Terms { all, .. } => { if *all { "allofterms" } else { "anyofterms" } }
        QFunc::Regexp { .. } => "regexp",
        QFunc::UidIn { .. } => "uid_in",
    }
}

// Adds what is compared and literals.
#[tactic(auto, using(crate::proofs::WordsWritten::comma_written))]
fn push_compared(alloc: Global, out: &mut Str, of: &QOf, literals: &[Str]) -> Mem<()>
    ensures { OnOk result (out.new ≡ out.old ++ written (spec.of_words of.now ++ mark_word comma ∷ spec.commas spec.lit_words literals.now)) }
{
    push_of(out, of)?;
    out.push_str(", ")?;
    push_literals(alloc, out, literals)
}

// Adds two literals.
#[tactic(auto, using(crate::proofs::WordsWritten::comma_behind))]
fn push_bounds(alloc: Global, out: &mut Str, low: &str, high: &str) -> Mem<()>
    ensures { OnOk result (out.new ≡ out.old ++ written (quoted_word low.now ∷ mark_word comma ∷ quoted_word high.now ∷ [])) }
{
    push_quoted(alloc, out, low)?;
    out.push_str(", ")?;
    push_quoted(alloc, out, high)
}

// Adds what is compared and the literals between which it lies.
#[tactic(auto, using(crate::proofs::WordsWritten::comma_written))]
fn push_between(alloc: Global, out: &mut Str, of: &QOf, low: &str, high: &str) -> Mem<()>
    ensures { OnOk result (out.new ≡ out.old ++ written (spec.of_words of.now ++ mark_word comma ∷ quoted_word low.now ∷ mark_word comma ∷ quoted_word high.now ∷ [])) }
{
    push_of(out, of)?;
    out.push_str(", ")?;
    push_bounds(alloc, out, low, high)
}

// Adds a predicate and a text.
#[tactic(auto, using(crate::proofs::WordsWritten::comma_behind))]
fn push_terms(alloc: Global, out: &mut Str, pred: &str, text: &str) -> Mem<()>
    ensures { OnOk result (out.new ≡ out.old ++ written (name_word pred.now ∷ mark_word comma ∷ quoted_word text.now ∷ [])) }
{
    push_name(out, pred)?;
    out.push_str(", ")?;
    push_quoted(alloc, out, text)
}

// Adds a predicate and a pattern.
#[tactic(auto, using(crate::proofs::WordsWritten::comma_behind))]
fn push_matched(alloc: Global, out: &mut Str, pred: &str, pattern: &str, fold: bool) -> Mem<()>
    ensures { OnOk result (out.new ≡ out.old ++ written (name_word pred.now ∷ mark_word comma ∷ regex_word pattern.now fold ∷ [])) }
{
    push_name(out, pred)?;
    out.push_str(", ")?;
    push_regex(alloc, out, pattern, fold)
}

// Adds an edge and nodes.
#[tactic(auto, using(crate::proofs::WordsWritten::comma_written))]
fn push_leading(alloc: Global, out: &mut Str, edge: &QEdge, nodes: &[UidArg]) -> Mem<()>
    ensures { OnOk result (out.new ≡ out.old ++ written (spec.edge_words edge.now ++ mark_word comma ∷ spec.commas spec.node_words nodes.now)) }
{
    push_edge(out, edge)?;
    out.push_str(", ")?;
    push_nodes(alloc, out, nodes)
}

// Adds what stands in the brackets of a function.
fn push_inner(alloc: Global, out: &mut Str, func: &QFunc) -> Mem<()>
    ensures { OnOk result (out.new ≡ out.old ++ written (spec.inner_words func.now)) }
{
    match func {
        QFunc::Uid(nodes) => push_nodes(alloc, out, nodes.as_slice()),
        QFunc::Cmp { of, lits, .. } => push_compared(alloc, out, of, lits.as_slice()),
        QFunc::Between { of, low, high } => {
            push_between(alloc, out, of, low.as_str(), high.as_str())
        }
        QFunc::Has(edge) => push_edge(out, edge),
        QFunc::Terms { pred, text, .. } => push_terms(alloc, out, pred.as_str(), text.as_str()),
        QFunc::Regexp {
            pred,
            pattern,
            fold,
        } => push_matched(alloc, out, pred.as_str(), pattern.as_str(), *fold),
        QFunc::UidIn { edge, uids } => push_leading(alloc, out, edge, uids.as_slice()),
    }
}

/// Adds a function.
#[tactic(auto, using(crate::proofs::WordsWritten::round_written))]
pub fn push_func(alloc: Global, out: &mut Str, func: &QFunc) -> Mem<()>
    ensures { OnOk result (out.new ≡ out.old ++ written (spec.func_words func.now)) }
{
    push_opening(out, func_text(func))?;
    push_inner(alloc, out, func)?;
    out.push_str(") ")
}
