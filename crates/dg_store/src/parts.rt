// Layers made of the parts of a record.
ghost use Rattle.std.specs.Prelude.{[], ◌≡◌, ◌∷◌, IfOk};
ghost use Rattle.std.specs.Arc.{arc_value};
ghost use Rattle.dg_values.specs.Ascending.{Ascends};
ghost use Rattle.dg_delta.specs.Ops.{op_cmp};
ghost use Rattle.dg_keys.specs.Keys.{part_cmp};
ghost use Rattle.dg_store.specs.Stores.{is_held, held_parts};

use dg_delta::{Layer, Op};
use dg_keys::Part;
use dg_values::{Mem, OutOfMemory, Str};
use std::alloc::Global;
use std::sync::Arc;

/// The parts of a predicate, of parts that ascend by key. It looks by halves, and takes no memory.
pub fn parts_of<'a>(parts: &'a [Part], pred: &Str) -> &'a [Part]
    requires { Ascends part_cmp parts.now }
    ensures { result.now ≡ held_parts (pred.now ∷ []) parts.now }
{
    let from = parts.partition_point(|part| part.key.pred().cmp(pred).is_lt());
    let (_, rest) = parts.split_at(from);
    let upto = rest.partition_point(|part| part.key.pred().cmp(pred).is_le());
    let (found, _) = rest.split_at(upto);
    found
}

// Whether a part's predicate is one of these.
pub(crate) fn is_among(held: &[Str], part: &Part) -> bool
    ensures { result ≡ is_held held.now part.now }
{
    let pred = part.key.pred();
    held.iter().any(|name| name.cmp(pred).is_eq())
}

// A part as a layer.
pub(crate) fn layer_of(alloc: Global, ts: u64, part: &Part) -> Mem<Arc<Layer>>
    requires { Ascends op_cmp part.now.ops }
    ensures { IfOk result (λ layer. arc_value layer ≡ record { ts = ts; ops = part.now.ops }) }
{
    match Layer::new(ts, copies(alloc, part.ops.as_slice())?) {
        Some(layer) => Ok(Arc::new(alloc, layer)?),
        None => unreachable!(),
    }
}

// Equal operations.
fn copies(alloc: Global, ops: &[Op]) -> Mem<Vec<Op>>
    ensures { IfOk result (λ copied. copied.items ≡ ops.now) }
{
    let mut copied = Vec::with_capacity(alloc, ops.len())?;
    for op in ops {
        copied.push(op.copy(alloc)?)?;
    }
    Ok(copied)
}
