// `allofterms` by an index of terms: the nodes that are listed under each of them.
ghost use Rattle.std.specs.Prelude.{◌≡◌, ◌+◌, ◌∷◌, [], true, map, length, filter, IfOk, OnOk};
ghost use Rattle.std.specs.List.{list_all};
ghost use Rattle.dg_values.specs.Order.{text_cmp};
ghost use Rattle.dg_values.specs.Ascending.{ascending};
ghost use Rattle.dg_values.specs.declared.kind.Tokenizer.TheVariants as tokenizers;
ghost use Rattle.dg_values.specs.declared.value.Value.TheVariants as values;
ghost use Rattle.dg_tokens.specs.Terms.{terms_of};
ghost use Rattle.dg_graph.specs.Lookups.{is_indexed_by};
ghost use Rattle.dg_check.specs.declared.parts.Func.TheVariants as funcs;
ghost use Rattle.dg_funcs.specs.Roots.{root_nodes};
ghost use Rattle.dg_funcs.specs.Listed.{under, is_under, under_all};

use crate::anyterms::term_values;
use crate::held::held;
use crate::indexes::is_indexed;
use crate::roots::root_by_search;
use dg_check::{Func, Vars};
use dg_graph::Snapshot;
use dg_tokens::IndexToken;
use dg_uids::Uids;
use dg_values::{Mem, OutOfMemory, Steps, Str, Tokenizer, Value};
use std::alloc::Global;
use std::sync::ledger::Ledger;

// The nodes that an index lists under a value. It reads one list.
fn under<S: Snapshot, L: Ledger>(
    alloc: Global,
    snap: &S,
    p: &str,
    tokenizer: Tokenizer,
    value: &Value,
    reads: &mut Steps<L>,
) -> Mem<Uids>
    requires tokenizer { is_indexed_by (S.declared snap.now) p.now tokenizer ≡ true }
    ensures nodes { IfOk result (λ uids. uids ≡ under (S.graph snap.now) p.now tokenizer value.now) }
    ensures reads { OnOk result (reads.new ≡ reads.old + 1) }
{
    let token = IndexToken {
        tokenizer,
        value: value.copy(alloc)?,
    };
    snap.by_token(alloc, p, &token, reads)
}

// Those of these nodes that an index lists under each of some values. It reads one list for each value.
fn also_under<S: Snapshot, L: Ledger>(
    alloc: Global,
    snap: &S,
    p: &str,
    tokenizer: Tokenizer,
    nodes: Uids,
    values: &[Value],
    reads: &mut Steps<L>,
) -> Mem<Uids>
    requires tokenizer { is_indexed_by (S.declared snap.now) p.now tokenizer ≡ true }
    ensures nodes { IfOk result (λ uids. uids ≡ filter (λ n. list_all (is_under (S.graph snap.now) p.now tokenizer n) values.now) nodes) }
    ensures reads { OnOk result (reads.new ≡ reads.old + length values.now) }
{
    let mut left = nodes;
    for value in values {
        let listed = under(alloc, snap, p, tokenizer, value, reads)?;
        left = left.and(alloc, &listed)?;
    }
    Ok(left)
}

/// The nodes that an index lists under each of some values; none where there is no value. It reads one list for each value.
pub(crate) fn under_all<S: Snapshot, L: Ledger>(
    alloc: Global,
    snap: &S,
    p: &str,
    tokenizer: Tokenizer,
    values: &[Value],
    reads: &mut Steps<L>,
) -> Mem<Uids>
    requires tokenizer { is_indexed_by (S.declared snap.now) p.now tokenizer ≡ true }
    ensures nodes { IfOk result (λ uids. uids ≡ under_all (S.graph snap.now) p.now tokenizer values.now) }
    ensures reads { OnOk result (reads.new ≡ reads.old + length values.now) }
{
    match values {
        [first, more @ ..] => {
            let nodes = under(alloc, snap, p, tokenizer, first, reads)?;
            also_under(alloc, snap, p, tokenizer, nodes, more, reads)
        }
        [] => Ok(Uids::gathered(Vec::new(alloc))),
    }
}

/// The nodes that an index lists under each term of a text; none where it has no term. It reads one list for each distinct
/// term.
pub(crate) fn under_terms<S: Snapshot, L: Ledger>(
    alloc: Global,
    snap: &S,
    p: &str,
    text: &Str,
    reads: &mut Steps<L>,
) -> Mem<Uids>
    requires tokenizer { is_indexed_by (S.declared snap.now) p.now tokenizers.Term ≡ true }
    ensures nodes { IfOk result (λ uids. uids ≡ under_all (S.graph snap.now) p.now tokenizers.Term (map (λ t. values.Text t) (ascending text_cmp (terms_of text.now)))) }
    ensures reads { OnOk result (reads.new ≡ reads.old + length (ascending text_cmp (terms_of text.now))) }
{
    let wanted = term_values(alloc, text)?;
    under_all(alloc, snap, p, Tokenizer::Term, wanted.as_slice(), reads)
}

// Those with a text that has all terms of another, by an index of terms.
fn by_all_terms<S: Snapshot, L: Ledger>(
    alloc: Global,
    snap: &S,
    func: &Func,
    p: &str,
    text: &Str,
    vars: &Vars,
    reads: &mut Steps<L>,
) -> Mem<Uids>
    requires tokenizer { is_indexed_by (S.declared snap.now) p.now tokenizers.Term ≡ true }
    requires all { func.now ≡ funcs.Terms true p.now text.now }
    ensures { IfOk result (λ uids. uids ≡ root_nodes (S.graph snap.now) vars.now.variables func.now) }
{
    let nodes = under_terms(alloc, snap, p, text, reads)?;
    held(alloc, snap, func, &nodes, vars, reads)
}

/// The nodes that have a text with all of the terms that are asked. Where there is an index of terms it reads one list for
/// each distinct term, and then one for each node that all of these have.
pub(crate) fn root_of_all_terms<S: Snapshot, L: Ledger>(
    alloc: Global,
    snap: &S,
    func: &Func,
    p: &str,
    text: &Str,
    vars: &Vars,
    reads: &mut Steps<L>,
) -> Mem<Uids>
    requires all { func.now ≡ funcs.Terms true p.now text.now }
    ensures { IfOk result (λ uids. uids ≡ root_nodes (S.graph snap.now) vars.now.variables func.now) }
{
    if is_indexed(snap, p, Tokenizer::Term) {
        by_all_terms(alloc, snap, func, p, text, vars, reads)
    } else {
        root_by_search(alloc, snap, func, vars, reads)
    }
}
