// What single layers say of a posting.
ghost use Rattle.dg_delta.specs.Effects.{Says};
ghost use Rattle.dg_list.specs.Lists.{ops_upto};

use dg_delta::{Layer, decide};
use dg_values::Posting;

// What a layer says of a posting, where it is at or below the timestamp.
pub(crate) fn decide_at(layer: &Layer, ts: u64, item: &Posting) -> Option<bool>
    ensures { Says (ops_upto ts layer.now) item.now result }
{
    if layer.ts() <= ts {
        decide(layer.ops(), item)
    } else {
        None
    }
}
