// What keys list over pins and own gains.
ghost use Rattle.std.specs.Prelude.{◌≡◌, ◌+◌, IfOk};
ghost use Rattle.dg_txn.specs.Own.{seen};

use crate::Present;
use crate::gains::Gains;
use dg_delta::apply;
use dg_keys::Key;
use dg_values::{Mem, OutOfMemory, Posting, Steps};
use std::alloc::Global;
use std::sync::ledger::Ledger;

// What a key lists: its list at the start, after its own operations. It is one step.
pub fn read_over<L: Ledger>(
    alloc: Global,
    base: &Present,
    gains: &Gains,
    key: &Key,
    reads: &mut Steps<L>,
) -> Mem<Vec<Posting>>
    ensures list { IfOk result (λ v. v.items ≡ seen base.now.schema base.now.graph gains.now key.now) }
    ensures one_read { reads.new ≡ reads.old + 1 }
{
    let list = base.read(alloc, key, reads)?;
    let ops = gains.ops_at(key);
    if ops.is_empty() {
        return Ok(list);
    }
    apply(alloc, list.as_slice(), ops)
}
