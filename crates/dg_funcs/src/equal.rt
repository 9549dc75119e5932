// `eq` by an index whose tokens are the values themselves.
ghost use Rattle.std.specs.Prelude.{◌≡◌, ◌+◌, ◌++◌, true, length, filter_map, option_to_list, IfOk, OnOk};
ghost use Rattle.std.specs.List.{list_all};
ghost use Rattle.dg_values.specs.Order.{value_cmp};
ghost use Rattle.dg_values.specs.Ascending.{ascending};
ghost use Rattle.dg_graph.specs.Lookups.{is_indexed_by};
ghost use Rattle.dg_funcs.specs.Truth.{value_in};
ghost use Rattle.dg_funcs.specs.Equal.{is_filed, equal_nodes, filed_nodes};

use crate::comparing::objects_of;
use dg_graph::Snapshot;
use dg_sets::in_order;
use dg_tokens::IndexToken;
use dg_uids::Uids;
use dg_values::{Mem, OutOfMemory, Posting, Steps, Tokenizer, Value};
use std::alloc::Global;
use std::sync::ledger::Ledger;

// Adds the value that an object is.
fn add_value(values: &mut Vec<Value>, object: Posting) -> Mem<()>
    ensures { OnOk result (values.new.items ≡ values.old.items ++ option_to_list (value_in object)) }
{
    match object {
        Posting::Val(value) => values.push(value)?,
        Posting::Uid(_) => {}
    }
    Ok(())
}

// The values among objects.
fn values_of(alloc: Global, objects: Vec<Posting>) -> Mem<Vec<Value>>
    ensures { IfOk result (λ v. v.items ≡ filter_map value_in objects.items) }
{
    let mut values = Vec::new(alloc);
    for object in objects {
        add_value(&mut values, object)?;
    }
    Ok(values)
}

/// These values, in order and each once.
pub(crate) fn distinct(alloc: Global, values: &[Value]) -> Mem<Vec<Value>>
    ensures { IfOk result (λ v. v.items ≡ ascending value_cmp values.now) }
{
    let objects = in_order(objects_of(alloc, values)?);
    values_of(alloc, objects)
}

/// The nodes that an index lists under these values, gathered and sorted once. It reads one list for each value.
pub(crate) fn filed<S: Snapshot, L: Ledger>(
    alloc: Global,
    snap: &S,
    p: &str,
    tokenizer: Tokenizer,
    values: &[Value],
    reads: &mut Steps<L>,
) -> Mem<Uids>
    requires tokenizer { is_indexed_by (S.declared snap.now) p.now tokenizer ≡ true }
    ensures nodes { IfOk result (λ uids. uids ≡ filed_nodes (S.graph snap.now) p.now tokenizer values.now) }
    ensures reads { OnOk result (reads.new ≡ reads.old + length values.now) }
{
    let mut found = Vec::new(alloc);
    for value in values {
        let token = IndexToken {
            tokenizer,
            value: value.copy(alloc)?,
        };
        let nodes = snap.by_token(alloc, p, &token, reads)?;
        found.extend_from_slice(nodes.as_slice())?;
    }
    Ok(Uids::gathered(found))
}

/// The nodes that have a value equal to one of these, by an index whose tokens are the values themselves. It reads one
/// list for each distinct value. The error is want of memory.
pub fn equal_by_index<S: Snapshot, L: Ledger>(
    alloc: Global,
    snap: &S,
    p: &str,
    tokenizer: Tokenizer,
    values: &[Value],
    reads: &mut Steps<L>,
) -> Mem<Uids>
    requires tokenizer { is_indexed_by (S.declared snap.now) p.now tokenizer ≡ true }
    requires filed { list_all (is_filed tokenizer) values.now ≡ true }
    ensures nodes { IfOk result (λ uids. uids ≡ equal_nodes (S.graph snap.now) p.now values.now) }
    ensures reads { OnOk result (reads.new ≡ reads.old + length (ascending value_cmp values.now)) }
{
    let asked = distinct(alloc, values)?;
    filed(alloc, snap, p, tokenizer, asked.as_slice(), reads)
}
