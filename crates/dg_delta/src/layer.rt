// The operations of one commit on one list.
ghost use Rattle.std.specs.Prelude.{◌≡◌, ◌↔◌, IsSome, IfSome, IsTrue};
ghost use Rattle.dg_values.specs.Ascending.{Ascends};
ghost use Rattle.dg_delta.specs.Ops.{op_cmp};
ghost use Rattle.dg_delta.specs.Layers.{Changes};

use crate::Op;
use dg_values::cmp_posting;
use std::marker::Model;

/// The operations of one commit on one list: at most one for each posting, ascending by posting.
#[derive(Debug, Drop)]
pub struct Layer {
    ts: u64,
    ops: Vec<Op>,
}

impl Model for Layer {
    ghost use Rattle.dg_values.specs.Ascending.{Ascends};
    ghost use Rattle.dg_delta.specs.Ops.{op_cmp};
    ghost use Rattle.dg_delta.specs.Layers.{Changes};

    ghost Value = { Changes };

    ghost view = { λ layer. record { ts = layer.ts; ops = layer.ops.items } };

    ghost invariant = { λ layer. Ascends op_cmp layer.ops.items };
}

// Whether each posting is below the next.
fn ascend(ops: &[Op]) -> bool
    ensures { IsTrue result ↔ Ascends op_cmp ops.now }
{
    ops.is_sorted_by(|a, b| cmp_posting(a.posting(), b.posting()).is_lt())
}

impl Layer {
    /// A layer of these operations, made by a commit at this timestamp. None exactly where their postings don't ascend
    /// strictly. It takes no memory.
    pub fn new(ts: u64, ops: Vec<Op>) -> Option<Layer>
        ensures accepts { IsSome result ↔ Ascends op_cmp ops.items }
        ensures made { IfSome result (λ layer. layer ≡ record { ts = ts; ops = ops.items }) }
    {
        if ascend(ops.as_slice()) {
            Some(Layer { ts, ops })
        } else {
            None
        }
    }

    /// The timestamp of the commit.
    pub fn ts(&self) -> u64
        ensures { result ≡ self.now.ts }
    {
        self.ts
    }

    /// The operations, ascending by posting.
    pub fn ops(&self) -> &[Op]
        ensures ops { result.now ≡ self.now.ops }
        ensures ascend { Ascends op_cmp self.now.ops }
    {
        self.ops.as_slice()
    }
}
