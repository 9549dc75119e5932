// `anyofterms` by an index of terms.
ghost use Rattle.std.specs.Prelude.{◌≡◌, ◌+◌, true, false, length, map, IfOk, IfSome, OnOk};
ghost use Rattle.dg_values.specs.Order.{text_cmp};
ghost use Rattle.dg_values.specs.Ascending.{ascending};
ghost use Rattle.dg_values.specs.declared.kind.Tokenizer.TheVariants as tokenizers;
ghost use Rattle.dg_values.specs.declared.value.Value.TheVariants as values;
ghost use Rattle.dg_tokens.specs.Terms.{terms_of};
ghost use Rattle.dg_graph.specs.Lookups.{is_indexed_by};
ghost use Rattle.dg_check.specs.declared.parts.Func.TheVariants as funcs;
ghost use Rattle.dg_funcs.specs.Equal.{filed_nodes};
ghost use Rattle.dg_funcs.specs.Reads.{reads_of_terms};
ghost use Rattle.dg_funcs.specs.Roots.{root_nodes};

use crate::equal::filed;
use crate::indexes::is_indexed;
use crate::roots::root_by_search;
use crate::terms::asked_terms;
use dg_check::{Func, Vars};
use dg_graph::Snapshot;
use dg_uids::Uids;
use dg_values::{Mem, OutOfMemory, Steps, Str, Tokenizer, Value};
use std::alloc::Global;
use std::sync::ledger::Ledger;

/// These texts as values.
pub(crate) fn as_values(alloc: Global, texts: &[Str]) -> Mem<Vec<Value>>
    ensures { IfOk result (λ v. v.items ≡ map (λ t. values.Text t) texts.now) }
{
    let mut made = Vec::new(alloc);
    for text in texts {
        made.push(Value::Text(text.copy(alloc)?))?;
    }
    Ok(made)
}

/// The terms of a text as values, each once.
pub(crate) fn term_values(alloc: Global, text: &Str) -> Mem<Vec<Value>>
    ensures { IfOk result (λ v. v.items ≡ map (λ t. values.Text t) (ascending text_cmp (terms_of text.now))) }
{
    let asked = asked_terms(alloc, text)?;
    as_values(alloc, asked.as_slice())
}

// The nodes that the index lists under the terms of a text.
fn by_terms<S: Snapshot, L: Ledger>(
    alloc: Global,
    snap: &S,
    p: &str,
    text: &Str,
    reads: &mut Steps<L>,
) -> Mem<Uids>
    requires tokenizer { is_indexed_by (S.declared snap.now) p.now tokenizers.Term ≡ true }
    ensures nodes { IfOk result (λ uids. uids ≡ filed_nodes (S.graph snap.now) p.now tokenizers.Term (map (λ t. values.Text t) (ascending text_cmp (terms_of text.now)))) }
    ensures reads { OnOk result (reads.new ≡ reads.old + length (ascending text_cmp (terms_of text.now))) }
{
    let wanted = term_values(alloc, text)?;
    filed(alloc, snap, p, Tokenizer::Term, wanted.as_slice(), reads)
}

/// The nodes that have a text with one of the terms that are asked. It reads one list for each distinct term, where there
/// is an index of terms.
pub(crate) fn root_of_any_term<S: Snapshot, L: Ledger>(
    alloc: Global,
    snap: &S,
    func: &Func,
    p: &str,
    text: &Str,
    vars: &Vars,
    reads: &mut Steps<L>,
) -> Mem<Uids>
    requires any { func.now ≡ funcs.Terms false p.now text.now }
    ensures nodes { IfOk result (λ uids. uids ≡ root_nodes (S.graph snap.now) vars.now.variables func.now) }
    ensures reads { IfSome (reads_of_terms (S.declared snap.now) p.now text.now) (λ n. OnOk result (reads.new ≡ reads.old + n)) }
{
    if is_indexed(snap, p, Tokenizer::Term) {
        by_terms(alloc, snap, p, text, reads)
    } else {
        root_by_search(alloc, snap, func, vars, reads)
    }
}
