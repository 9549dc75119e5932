// `eq` by an index of terms: what is equal to a text has all of its terms.
ghost use Rattle.std.specs.Prelude.{◌≡◌, ◌+◌, true, false, map, flat_map, length, Option, IfOk, OnOk};
ghost use Rattle.std.specs.List.{list_any};
ghost use Rattle.dg_values.specs.Order.{text_cmp};
ghost use Rattle.dg_values.specs.Ascending.{ascending};
ghost use Rattle.dg_values.specs.declared.kind.Kind.{Kind};
ghost use Rattle.dg_values.specs.declared.kind.Tokenizer.TheVariants as tokenizers;
ghost use Rattle.dg_values.specs.declared.value.Value.TheVariants as values;
ghost use Rattle.dg_graph.specs.Lookups.{is_indexed_by};
ghost use Rattle.dg_parse.specs.declared.query.CmpOp.TheVariants as ops;
ghost use Rattle.dg_check.specs.declared.parts.Func.TheVariants as funcs;
ghost use Rattle.dg_check.specs.declared.parts.Of.TheVariants as part;
ghost use Rattle.dg_funcs.specs.Roots.{root_nodes};
ghost use Rattle.dg_funcs.specs.Tests.{value_terms};
ghost use Rattle.dg_funcs.specs.Listed.{lacks_terms, under_terms, under_any_terms};

use crate::allterms::under_all;
use crate::anyterms::as_values;
use crate::held::held;
use crate::roots::root_by_search;
use crate::terms::terms_of_value;
use dg_check::{Func, Vars};
use dg_graph::Snapshot;
use dg_uids::Uids;
use dg_values::{Mem, OutOfMemory, Steps, Tokenizer, Value};
use std::alloc::Global;
use std::sync::ledger::Ledger;

// Whether a value is no text, or one without a term.
fn lacks_terms(alloc: Global, value: &Value) -> Mem<bool>
    ensures { IfOk result (λ b. b ≡ lacks_terms value.now) }
{
    let terms = terms_of_value(alloc, value)?;
    Ok(terms.as_slice().is_empty())
}

// Whether some value is one.
fn any_lacks_terms(alloc: Global, values: &[Value]) -> Mem<bool>
    ensures { IfOk result (λ b. b ≡ list_any lacks_terms values.now) }
{
    for value in values {
        if lacks_terms(alloc, value)? {
            return Ok(true);
        }
    }
    Ok(false)
}

// The terms of a value, as values.
fn terms_as_values(alloc: Global, value: &Value) -> Mem<Vec<Value>>
    ensures { IfOk result (λ v. v.items ≡ map (λ t. values.Text t) (ascending text_cmp (value_terms value.now))) }
{
    let terms = terms_of_value(alloc, value)?;
    as_values(alloc, terms.as_slice())
}

// The nodes that the index lists under each term of a value. It reads one list for each distinct term.
fn under_terms<S: Snapshot, L: Ledger>(
    alloc: Global,
    snap: &S,
    p: &str,
    value: &Value,
    reads: &mut Steps<L>,
) -> Mem<Uids>
    requires tokenizer { is_indexed_by (S.declared snap.now) p.now tokenizers.Term ≡ true }
    ensures nodes { IfOk result (λ uids. uids ≡ under_terms (S.graph snap.now) p.now value.now) }
    ensures reads { OnOk result (reads.new ≡ reads.old + length (ascending text_cmp (value_terms value.now))) }
{
    let terms = terms_as_values(alloc, value)?;
    under_all(alloc, snap, p, Tokenizer::Term, terms.as_slice(), reads)
}

// Those of any of some values.
fn under_any_terms<S: Snapshot, L: Ledger>(
    alloc: Global,
    snap: &S,
    p: &str,
    values: &[Value],
    reads: &mut Steps<L>,
) -> Mem<Uids>
    requires tokenizer { is_indexed_by (S.declared snap.now) p.now tokenizers.Term ≡ true }
    ensures { IfOk result (λ uids. uids ≡ under_any_terms (S.graph snap.now) p.now values.now) }
{
    let mut found = Vec::new(alloc);
    for value in values {
        let nodes = under_terms(alloc, snap, p, value, reads)?;
        found.extend_from_slice(nodes.as_slice())?;
    }
    Ok(Uids::gathered(found))
}

// Those with a value equal to one of some texts that have terms.
fn held_under_terms<S: Snapshot, L: Ledger>(
    alloc: Global,
    snap: &S,
    func: &Func,
    p: &str,
    values: &[Value],
    vars: &Vars,
    reads: &mut Steps<L>,
) -> Mem<Uids>
    requires tokenizer { is_indexed_by (S.declared snap.now) p.now tokenizers.Term ≡ true }
    requires equal { (kind : Option Kind) × (func.now ≡ funcs.Cmp ops.Eq (part.Pred p.now) kind values.now) }
    requires terms { list_any lacks_terms values.now ≡ false }
    ensures { IfOk result (λ uids. uids ≡ root_nodes (S.graph snap.now) vars.now.variables func.now) }
{
    let nodes = under_any_terms(alloc, snap, p, values, reads)?;
    held(alloc, snap, func, &nodes, vars, reads)
}

/// The nodes that have a value equal to one of these, by an index of terms. It reads one list for each distinct term of each
/// value, and then one for each node that has all terms of one. Where a value has no term each node with an object is asked.
pub(crate) fn equal_by_terms<S: Snapshot, L: Ledger>(
    alloc: Global,
    snap: &S,
    func: &Func,
    p: &str,
    values: &[Value],
    vars: &Vars,
    reads: &mut Steps<L>,
) -> Mem<Uids>
    requires tokenizer { is_indexed_by (S.declared snap.now) p.now tokenizers.Term ≡ true }
    requires equal { (kind : Option Kind) × (func.now ≡ funcs.Cmp ops.Eq (part.Pred p.now) kind values.now) }
    ensures { IfOk result (λ uids. uids ≡ root_nodes (S.graph snap.now) vars.now.variables func.now) }
{
    if any_lacks_terms(alloc, values)? {
        root_by_search(alloc, snap, func, vars, reads)
    } else {
        held_under_terms(alloc, snap, func, p, values, vars, reads)
    }
}
