// Operations gathered from layers, those of the newest layer first.
ghost use Rattle.std.specs.Prelude.{◌≡◌, ◌++◌, IfOk, OnOk, false};
ghost use Rattle.dg_values.specs.Ascending.{Ascends, has};
ghost use Rattle.dg_values.specs.Order.{posting_cmp};
ghost use Rattle.dg_delta.specs.Ops.{op_cmp};
ghost use Rattle.dg_list.specs.Lists.{ops_upto};
ghost use Rattle.dg_list.specs.Gathered.{SayAlike, there_by};

use crate::applying::apply_ranked;
use crate::ranked::Ranked;
use dg_delta::{Layer, Op, put_in};
use dg_values::{Mem, OutOfMemory, Posting};
use std::alloc::Global;

// Adds the operations of an older layer, where it is at or below the timestamp.
pub(crate) fn gather<'a>(ops: &mut Vec<Ranked<'a>>, layer: &'a Layer, ts: u64) -> Mem<()>
    ensures gathered { OnOk result (ops.new.items ≡ ops.old.items ++ ops_upto ts layer.now) }
    ensures ascend { Ascends op_cmp (ops_upto ts layer.now) }
{
    if layer.ts() <= ts {
        push_each(ops, layer.ops())?;
    }
    Ok(())
}

// Adds the operations at the end.
fn push_each<'a>(ops: &mut Vec<Ranked<'a>>, more: &'a [Op]) -> Mem<()>
    ensures { OnOk result (ops.new.items ≡ ops.old.items ++ more.now) }
{
    for op in more {
        ops.push(Ranked::new(op))?;
    }
    Ok(())
}

// The newest operation on each posting, ascending by posting.
fn newest_ops<'a>(mut ops: Vec<Ranked<'a>>) -> Mem<Vec<Ranked<'a>>>
    ensures alike { IfOk result (λ newest. SayAlike ops.entry.items newest.items) }
    ensures ascend { IfOk result (λ newest. Ascends op_cmp newest.items) }
{
    ops.sort_by(|a, b| a.compare(b))?;
    ops.dedup_by(|a, b| a.compare(b).is_eq());
    Ok(ops)
}

// The postings after operations that were gathered. Those that stay are moved, and of those put in only values are copied.
pub(crate) fn after_gathered(
    alloc: Global,
    postings: Vec<Posting>,
    ops: Vec<Ranked>,
) -> Mem<Vec<Posting>>
    requires { Ascends posting_cmp postings.items }
    ensures after { IfOk result (λ list. (posting : Posting) → has posting_cmp list.items posting ≡ there_by ops.entry.items posting (has posting_cmp postings.items posting)) }
    ensures ascend { IfOk result (λ list. Ascends posting_cmp list.items) }
{
    if ops.is_empty() {
        return Ok(postings);
    }
    let newest = newest_ops(ops)?;
    apply_ranked(alloc, postings, newest.as_slice())
}

// The list where a layer stands alone below operations that were gathered. Without these it is what the layer puts in.
pub(crate) fn after_alone<'a>(
    alloc: Global,
    mut ops: Vec<Ranked<'a>>,
    layer: &'a Layer,
) -> Mem<Vec<Posting>>
    ensures after { IfOk result (λ list. (posting : Posting) → has posting_cmp list.items posting ≡ there_by (ops.entry.items ++ layer.now.ops) posting false) }
    ensures ascend { IfOk result (λ list. Ascends posting_cmp list.items) }
    ensures layer { Ascends op_cmp layer.now.ops }
{
    if ops.is_empty() {
        return put_in(alloc, layer.ops());
    }
    push_each(&mut ops, layer.ops())?;
    after_gathered(alloc, Vec::new(alloc), ops)
}
